// What a record makes of the node, in memory.
ghost use Rattle.std.specs.Prelude.{◌≡◌};
ghost use Rattle.sheet.specs.Contents.{content_of};
ghost use Rattle.node_state.specs.Nodes.{state_of};
ghost use Rattle.outcome.specs.Acts.{signed_in, both_in};
ghost use Rattle.outcome.specs.Records.{written};

use node_state::Node;
use sheet::Sheet;

// The node has signed the sheet as the next of the account.
pub fn note_signed(node: &mut Node, i: usize, sheet: &Sheet)
    ensures { state_of node.new ≡ written (signed_in i (content_of sheet.now)) (state_of node.old) }
{
    let account = node.account(i).signed(*sheet);
    node.put(i, account);
}

// Both have signed the sheet. This differs from note_signed in what the account becomes: a closure for that would be longer.
pub fn note_both(node: &mut Node, i: usize, sheet: &Sheet)
    ensures { state_of node.new ≡ written (both_in i (content_of sheet.now)) (state_of node.old) }
{
    let account = node.account(i).holding(*sheet);
    node.put(i, account);
}
