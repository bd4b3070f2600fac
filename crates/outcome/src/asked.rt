// What the owner asked for. What can fail for want of memory comes before the first act.
ghost use Rattle.std.specs.Prelude.{◌≡◌};
ghost use Rattle.change.specs.Changes.{on_content};
ghost use Rattle.node_state.specs.Nodes.{state_of};
ghost use Rattle.outcome.specs.Outcomes.{CarriedOut, signing, passing};

use crate::notes::note_signed;
use crate::outside::Outside;
use crate::types::Fault;
use node_state::{Node, Route};
use refusal::Refusal;
use sheet::Sheet;

// The owner asked for it.
pub fn sign<O: Outside>(
    node: &mut Node,
    outside: &mut O,
    i: usize,
    next: Result<Sheet, Refusal>,
) -> Result<Result<(), Refusal>, Fault>
    ensures { CarriedOut (signing i (on_content next)) (state_of node.old) (O.log outside.old) result (state_of node.new) (O.log outside.new) }
{
    // Not shared by a closure: what it borrowed would not be known once it was called.
    let sheet = match next {
        Ok(sheet) => sheet,
        Err(refusal) => return Ok(Err(refusal)),
    };
    outside.record_signed(i, &sheet)?;
    outside.sync()?;
    outside.send_sheet(i, &sheet)?;
    note_signed(node, i, &sheet);
    Ok(Ok(()))
}

// The owner asked to pass on the in with the lock from one account to another, where this is the next.
pub fn pass_on<O: Outside>(
    node: &mut Node,
    outside: &mut O,
    from: u8,
    to: u8,
    lock: &[u8; 32],
    next: Result<Sheet, Refusal>,
) -> Result<Result<(), Refusal>, Fault>
    ensures { CarriedOut (passing from to lock.now (on_content next)) (state_of node.old) (O.log outside.old) result (state_of node.new) (O.log outside.new) }
{
    // Not shared by a closure: what it borrowed would not be known once it was called.
    let sheet = match next {
        Ok(sheet) => sheet,
        Err(refusal) => return Ok(Err(refusal)),
    };
    let route = Route { from, to };
    node.add_route(*lock, route)?;
    outside.record_passed(lock, route)?;
    outside.record_signed(to as usize, &sheet)?;
    outside.sync()?;
    outside.send_sheet(to as usize, &sheet)?;
    note_signed(node, to as usize, &sheet);
    Ok(Ok(()))
}
