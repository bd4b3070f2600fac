// What a neighbour has signed, and keys. What can fail for want of memory comes before the first act.
ghost use Rattle.std.specs.Prelude.{◌≡◌};
ghost use Rattle.change.specs.Changes.{on_content};
ghost use Rattle.node_state.specs.Nodes.{state_of};
ghost use Rattle.outcome.specs.Outcomes.{CarriedOut, holding, learning};

use crate::notes::note_both;
use crate::outside::Outside;
use crate::types::Fault;
use digest::lock;
use node_state::Node;
use refusal::Refusal;
use sheet::Sheet;

// The neighbour has signed the next.
pub fn hold<O: Outside>(
    node: &mut Node,
    outside: &mut O,
    i: usize,
    next: Result<Sheet, Refusal>,
) -> Result<Result<(), Refusal>, Fault>
    ensures { CarriedOut (holding i (on_content next)) (state_of node.old) (O.log outside.old) result (state_of node.new) (O.log outside.new) }
{
    // Not shared by a closure: what it borrowed would not be known once it was called.
    let sheet = match next {
        Ok(sheet) => sheet,
        Err(refusal) => return Ok(Err(refusal)),
    };
    outside.record_both(i, &sheet)?;
    outside.sync()?;
    note_both(node, i, &sheet);
    Ok(Ok(()))
}

// A key that the node doesn't have.
pub fn learn<O: Outside>(
    node: &mut Node,
    outside: &mut O,
    key: &[u8; 32],
) -> Result<Result<(), Refusal>, Fault>
    ensures { CarriedOut (learning key.now) (state_of node.old) (O.log outside.old) result (state_of node.new) (O.log outside.new) }
{
    node.add_key(lock(key), *key)?;
    outside.record_key(key)?;
    outside.sync()?;
    Ok(Ok(()))
}
