// What a start makes of a node's file: the node that its records say, or where it is damaged.
// Promises: a record is taken just where it fits (specs/Fits.antt), and makes of the node what it made when it was written
// (specs/Takes.antt). Leans on journal, node_state, outcome and the crates below them.
#![tactic(auto)]

ghost use Rattle.std.specs.Prelude.{◌≡◌, ◌≤◌, length, IfOk};
ghost use Rattle.node_state.specs.Nodes.{state_of};
ghost use Rattle.replay.specs.Starts.{Started};
ghost use Rattle.replay.specs.Theorems.{ByRecords, CutAnywhere, AsWritten, DepositsStay};

use node_state::Node;
use schedule::Terms;
use std::alloc::Global;

mod faults;
mod fitting;
mod replaying;
mod taking;
mod types;

pub use types::{Replayed, StartFault};

// The file is lent and isn't changed; what is past `whole` in it is the part of a short record.
pub fn replay(heap: Global, terms: Terms, bytes: &[u8]) -> Result<Replayed, StartFault>
    ensures value { Started terms bytes.now result }
    ensures within { IfOk result (λ got. got.whole ≤ length bytes.now) }
    ensures firsts { IfOk result (λ got. got.firsts ≡ length (state_of got.node).accounts) }
{
    replaying::go_through(Node::new(heap, terms)?, bytes)
}

// The theorems that a start goes by the file's whole records, that it finds a first part of what was written wherever the file
// is cut, that records give the node that it was when it wrote them, and that each account keeps its money.
pub fn start_stands()
    ensures by_records { ByRecords }
    ensures cut_anywhere { CutAnywhere }
    ensures as_written { AsWritten }
    ensures deposits_stay { DepositsStay }
{}
