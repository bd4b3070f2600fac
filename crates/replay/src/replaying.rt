// Going through the records of a file.
ghost use Rattle.std.specs.Prelude.{◌≡◌, ◌≤◌, length, IfOk};
ghost use Rattle.node_state.specs.Nodes.{state_of};
ghost use Rattle.replay.specs.Starts.{GoneThrough};

use crate::taking::{is_first, take_record};
use crate::types::{Replayed, StartFault};
use journal::read_record;
use node_state::Node;

// Takes all whole records from the start of the bytes into the node, up to a short one.
pub(crate) fn go_through(start: Node, bytes: &[u8]) -> Result<Replayed, StartFault>
    ensures value { GoneThrough (state_of start) bytes.now result }
    ensures within { IfOk result (λ got. got.whole ≤ length bytes.now) }
    ensures firsts { IfOk result (λ got. got.firsts ≡ length (state_of got.node).accounts) }
{
    let mut node = start;
    let mut whole = 0;
    let mut others = false;
    // The reader's answer is taken apart by let .. else, a rule of the project; each record says where the next begins.
    loop {
        let Some(got) = read_record(bytes, whole)? else {
            let firsts = node.many();
            return Ok(Replayed {
                node,
                whole,
                firsts,
                others,
            });
        };
        take_record(&mut node, others, &got.record, whole)?;
        others = others | !is_first(&got.record);
        whole += got.used;
    }
}
