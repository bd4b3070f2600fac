// Looking: what the node does about what the register shows.
// Promises: a look is answered, carried out and leaves the node as specs/Looking.antt says; where something fails, a
// first part of its acts was done (specs/Looks.antt). Leans on node_state, judgement, outcome and clock.
#![tactic(auto)]

ghost use Rattle.std.specs.Prelude.{◌≡◌};
ghost use Rattle.node_state.specs.Nodes.{state_of};
ghost use Rattle.looking.specs.Looks.{LookedOut, lateness_of};
ghost use Rattle.looking.specs.Steps.{Taken};

use node_state::Node;
use outcome::{Fault, Outside};
use refusal::Refusal;

mod at;
mod duties;
mod gathering;
mod learning;
mod past;
mod showing;
mod statements;
mod ticks;
mod types;

pub use types::{Lateness, Shown};

// New keys first, then what has to be shown; the accounts keep what they have of the look.
fn take<O: Outside>(
    node: &mut Node,
    outside: &mut O,
    tick: u32,
    shown: &[Shown],
) -> Result<(), Fault>
    ensures { Taken (state_of node.old) tick shown.now (O.log outside.old) result (state_of node.new) (O.log outside.new) }
{
    learning::learn(node, outside, shown)?;
    showing::show_all(node, outside, tick, shown)?;
    ticks::note_look(node, tick, shown);
    Ok(())
}

// A look at a tick, with all that the register shows then. One before the last look is refused.
pub fn look<O: Outside>(
    node: &mut Node,
    outside: &mut O,
    tick: u32,
    shown: &[Shown],
) -> Result<Result<(), Refusal>, Fault>
    ensures { LookedOut (state_of node.old) tick shown.now (O.log outside.old) result (state_of node.new) (O.log outside.new) }
{
    if ticks::is_earlier(node, tick) {
        return Ok(Err(Refusal::Unreadable));
    }
    take(node, outside, tick, shown)?;
    Ok(Ok(()))
}

// How late a look at the tick would be.
pub fn lateness(node: &Node, tick: u32) -> Lateness
    ensures { result ≡ lateness_of (state_of node.now) tick }
{
    let Some(last) = node.account(0).looked else {
        return Lateness::First;
    };
    let due = u64::from(last) + u64::from(node.terms().look);
    let now = u64::from(tick);
    if due < now {
        return Lateness::Late {
            ticks: (now - due) as u32,
        };
    }
    Lateness::InTime
}
