// New keys. What can fail for want of memory comes before the record.
ghost use Rattle.std.specs.Prelude.{◌≡◌, [], ◌∷◌};
ghost use Rattle.node_state.specs.Nodes.{state_of};
ghost use Rattle.looking.specs.Looking.{new_keys, learning};
ghost use Rattle.looking.specs.Steps.{Recorded, Became};

use crate::types::Shown;
use digest::lock;
use judgement::has_key;
use node_state::Node;
use outcome::{Fault, Outside};

// The key of one statement, where it is one that the node doesn't have.
fn record_new<O: Outside>(
    node: &mut Node,
    outside: &mut O,
    statement: &Shown,
) -> Result<bool, Fault>
    ensures { Recorded (state_of node.old) (O.log outside.old) (new_keys (state_of node.old) (statement.now ∷ [])) result (state_of node.new) (O.log outside.new) }
{
    let Shown::Key { key, .. } = *statement else {
        return Ok(false);
    };
    if has_key(node, &lock(&key)) {
        return Ok(false);
    }
    node.add_key(lock(&key), key)?;
    outside.record_key(&key)?;
    Ok(true)
}

// Each new key, in the order of the statements.
fn record_all<O: Outside>(node: &mut Node, outside: &mut O, shown: &[Shown]) -> Result<bool, Fault>
    ensures { Recorded (state_of node.old) (O.log outside.old) (new_keys (state_of node.old) shown.now) result (state_of node.new) (O.log outside.new) }
{
    let mut some = false;
    for statement in shown {
        some |= record_new(node, outside, statement)?;
    }
    Ok(some)
}

// The new keys, synced where there was one.
pub(crate) fn learn<O: Outside>(
    node: &mut Node,
    outside: &mut O,
    shown: &[Shown],
) -> Result<(), Fault>
    ensures { Became (state_of node.old) (O.log outside.old) (learning (state_of node.old) shown.now) result (state_of node.new) (O.log outside.new) }
{
    if !record_all(node, outside, shown)? {
        return Ok(());
    }
    outside.sync()?;
    Ok(())
}
