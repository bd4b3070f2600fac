// The owner's calls, one by one.
ghost use Rattle.std.specs.Prelude.{◌≡◌};
ghost use Rattle.node_state.specs.Nodes.{state_of};
ghost use Rattle.judgement.specs.Judgements.{to_settle};
ghost use Rattle.outcome.specs.Outcomes.{CarriedOut, signing};
ghost use Rattle.rules.specs.Entries.{given_up, passed};

use change::Change;
use judgement::{to_give_up, to_pass, to_settle};
use node_state::Node;
use outcome::{Fault, Outside, pass_on, sign};
use refusal::Refusal;
use sheet::Payment;

// Paying the out, or getting the in, with the lock.
pub(crate) fn settle<O: Outside>(
    node: &mut Node,
    outside: &mut O,
    i: usize,
    change: Change,
    lock: &[u8; 32],
) -> Result<Result<(), Refusal>, Fault>
    ensures { CarriedOut (signing i (to_settle (state_of node.old) i change lock.now)) (state_of node.old) (O.log outside.old) result (state_of node.new) (O.log outside.new) }
{
    let next = to_settle(node, i, change, lock);
    sign(node, outside, i, next)
}

// Giving up the in with the lock.
pub(crate) fn give_up<O: Outside>(
    node: &mut Node,
    outside: &mut O,
    i: usize,
    lock: &[u8; 32],
) -> Result<Result<(), Refusal>, Fault>
    ensures { CarriedOut (given_up (state_of node.old) i lock.now) (state_of node.old) (O.log outside.old) result (state_of node.new) (O.log outside.new) }
{
    let next = to_give_up(node, i, lock);
    sign(node, outside, i, next)
}

// Passing on the in with the payment's lock from account i to account j as the payment.
pub(crate) fn pass<O: Outside>(
    node: &mut Node,
    outside: &mut O,
    i: usize,
    j: usize,
    payment: Payment,
) -> Result<Result<(), Refusal>, Fault>
    ensures { CarriedOut (passed (state_of node.old) i j payment) (state_of node.old) (O.log outside.old) result (state_of node.new) (O.log outside.new) }
{
    let many = node.many();
    if i >= many || j >= many {
        return Ok(Err(Refusal::NotOpen));
    }
    let next = to_pass(node, i, j, payment);
    pass_on(node, outside, i as u8, j as u8, &payment.lock, next)
}
