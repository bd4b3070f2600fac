// What a neighbour proposed.
ghost use Rattle.std.specs.Prelude.{◌≡◌};
ghost use Rattle.change.specs.Changes.{on_content};
ghost use Rattle.node_state.specs.Nodes.{state_of};
ghost use Rattle.outcome.specs.Outcomes.{CarriedOut, accepting, accepting_both};

use crate::notes::{note_both, note_signed};
use crate::outside::Outside;
use crate::types::Fault;
use node_state::Node;
use refusal::Refusal;
use sheet::Sheet;

// The neighbour proposed it.
pub fn accept<O: Outside>(
    node: &mut Node,
    outside: &mut O,
    i: usize,
    next: Result<Sheet, Refusal>,
) -> Result<Result<(), Refusal>, Fault>
    ensures { CarriedOut (accepting i (on_content next)) (state_of node.old) (O.log outside.old) result (state_of node.new) (O.log outside.new) }
{
    // Not shared by a closure: what it borrowed would not be known once it was called.
    let proposed = match next {
        Ok(proposed) => proposed,
        Err(refusal) => return Ok(Err(refusal)),
    };
    outside.record_signed(i, &proposed)?;
    outside.sync()?;
    outside.send_signature(i, proposed.number)?;
    note_signed(node, i, &proposed);
    Ok(Ok(()))
}

// The neighbour proposed it, and has signed it.
pub fn accept_both<O: Outside>(
    node: &mut Node,
    outside: &mut O,
    i: usize,
    next: Result<Sheet, Refusal>,
) -> Result<Result<(), Refusal>, Fault>
    ensures { CarriedOut (accepting_both i (on_content next)) (state_of node.old) (O.log outside.old) result (state_of node.new) (O.log outside.new) }
{
    // Not shared by a closure: what it borrowed would not be known once it was called.
    let sheet = match next {
        Ok(sheet) => sheet,
        Err(refusal) => return Ok(Err(refusal)),
    };
    outside.record_signed(i, &sheet)?;
    outside.record_both(i, &sheet)?;
    outside.sync()?;
    outside.send_signature(i, sheet.number)?;
    note_signed(node, i, &sheet);
    note_both(node, i, &sheet);
    Ok(Ok(()))
}
