// The messages, one by one.
ghost use Rattle.std.specs.Prelude.{◌≡◌};
ghost use Rattle.sheet.specs.Contents.{content_of};
ghost use Rattle.node_state.specs.Nodes.{state_of};
ghost use Rattle.outcome.specs.Outcomes.{CarriedOut};
ghost use Rattle.rules.specs.Entries.{proposed, proposed_signed, signed, key_taken};

use digest::lock;
use judgement::{Signature, has_key, is_under_way, to_accept, to_accept_both, to_hold};
use node_state::Node;
use outcome::{Fault, Outside, accept, accept_both, hold, learn};
use refusal::Refusal;
use sheet::Sheet;

// A sheet alone.
pub(crate) fn take_proposal<O: Outside>(
    node: &mut Node,
    outside: &mut O,
    i: usize,
    sheet: Sheet,
) -> Result<Result<(), Refusal>, Fault>
    ensures { CarriedOut (proposed (state_of node.old) i (content_of sheet)) (state_of node.old) (O.log outside.old) result (state_of node.new) (O.log outside.new) }
{
    let next = to_accept(node, i, sheet);
    accept(node, outside, i, next)
}

// A sheet with the neighbour's signature under it.
pub(crate) fn take_signed_proposal<O: Outside>(
    node: &mut Node,
    outside: &mut O,
    i: usize,
    sheet: Sheet,
    signature: Signature,
) -> Result<Result<(), Refusal>, Fault>
    ensures { CarriedOut (proposed_signed (state_of node.old) i (content_of sheet) signature) (state_of node.old) (O.log outside.old) result (state_of node.new) (O.log outside.new) }
{
    let next = to_accept_both(node, i, sheet, signature);
    if is_under_way(&node.account(i)) {
        return hold(node, outside, i, next);
    }
    accept_both(node, outside, i, next)
}

// A signature alone. Each message has its own judgement and its own acts: given as closures they would be no shorter.
pub(crate) fn take_signature<O: Outside>(
    node: &mut Node,
    outside: &mut O,
    i: usize,
    signature: Signature,
) -> Result<Result<(), Refusal>, Fault>
    ensures { CarriedOut (signed (state_of node.old) i signature) (state_of node.old) (O.log outside.old) result (state_of node.new) (O.log outside.new) }
{
    let next = to_hold(node, i, signature);
    hold(node, outside, i, next)
}

// A key.
pub(crate) fn take_key<O: Outside>(
    node: &mut Node,
    outside: &mut O,
    key: &[u8; 32],
) -> Result<Result<(), Refusal>, Fault>
    ensures { CarriedOut (key_taken (state_of node.old) key.now) (state_of node.old) (O.log outside.old) result (state_of node.new) (O.log outside.new) }
{
    if has_key(node, &lock(key)) {
        return Ok(Ok(()));
    }
    learn(node, outside, key)
}
