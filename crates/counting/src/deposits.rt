// What the node put in, by the first sheets of its file.
ghost use Rattle.std.specs.Prelude.{◌≡◌, ◌*◌, ◌≤◌};
ghost use Rattle.std.specs.Option.{unwrap_or};
ghost use Rattle.node_state.specs.Nodes.{state_of};
ghost use Rattle.counting.specs.Deposits.{own_first, deposits_of};

use journal::{Record, RecordRead, read_record};
use node_state::Node;

// Own of the sheet that both have signed at the place of an account's first sheet.
fn own_of(bytes: &[u8], i: usize) -> Option<u32>
    requires { i ≤ 16 }
    ensures { unwrap_or result 0 ≡ own_first bytes.now i }
{
    match read_record(bytes, 16 * i) {
        Ok(
            Some(
                RecordRead {
                    record: Record::Both(sheet),
                    ..
                },
            ),
        ) => Some(sheet.own),
        _ => None,
    }
}

pub(crate) fn deposits(node: &Node, bytes: &[u8]) -> u64
    ensures value { result ≡ deposits_of (state_of node.now) bytes.now }
    ensures bound { result ≤ 16 * 4294967295 }
{
    let mut sum = 0;
    // An account's number is all that says where its first sheet stands: map and sum would count it the same.
    for i in 0..node.many() {
        sum += u64::from(own_of(bytes, i).unwrap_or(0));
    }
    sum
}
