// Whether a record can be one that the node wrote at its place.
ghost use Rattle.std.specs.Prelude.{◌≡◌};
ghost use Rattle.sheet.specs.Contents.{content_of};
ghost use Rattle.node_state.specs.Nodes.{state_of};
ghost use Rattle.journal.specs.Readings.{record_of};
ghost use Rattle.replay.specs.Fits.{fits_first, fits_account, fits_signed, fits_both, fits_passed, fits};

use change::total;
use journal::Record;
use node_state::Node;
use sheet::Sheet;

fn fits_first(node: &Node, others: bool, sheet: &Sheet) -> bool
    ensures { result ≡ fits_first (content_of sheet.now) others (state_of node.now) }
{
    !others
        & (usize::from(sheet.account) == node.many())
        & (sheet.account < 16)
        & (sheet.ins().len() == 0)
        & (sheet.outs().len() == 0)
        & (u64::from(sheet.own) + u64::from(sheet.theirs) <= 4_294_967_295)
}

// Its account is there, and has as much money.
fn fits_account(node: &Node, sheet: &Sheet) -> bool
    ensures { result ≡ fits_account (content_of sheet.now) (state_of node.now) }
{
    let i = usize::from(sheet.account);
    (i < node.many()) & (total(sheet) == total(&node.account(i).held))
}

fn fits_signed(node: &Node, sheet: &Sheet) -> bool
    ensures { result ≡ fits_signed (content_of sheet.now) (state_of node.now) }
{
    let account = node.account(usize::from(sheet.account));
    fits_account(node, sheet)
        & account.under_way().is_none()
        & (u64::from(sheet.number) == u64::from(account.held.number) + 1)
}

fn fits_both(node: &Node, sheet: &Sheet) -> bool
    ensures { result ≡ fits_both (content_of sheet.now) (state_of node.now) }
{
    let account = node.account(usize::from(sheet.account));
    fits_account(node, sheet) & account.under_way().is_some_and(|next| *next == *sheet)
}

fn fits_passed(node: &Node, lock: &[u8; 32], from: u8, to: u8) -> bool
    ensures { result ≡ fits_passed lock.now from to (state_of node.now) }
{
    (usize::from(from) < node.many())
        & (usize::from(to) < node.many())
        & (from != to)
        & node.route_of(lock).is_none()
}

pub(crate) fn fits(node: &Node, others: bool, record: &Record) -> bool
    ensures { result ≡ fits (record_of «record».now) others (state_of node.now) }
{
    match record {
        Record::Signed(sheet) => fits_signed(node, sheet),
        Record::Both(sheet) => {
            if sheet.number == 0 {
                fits_first(node, others, sheet)
            } else {
                fits_both(node, sheet)
            }
        }
        Record::Passed { lock, from, to } => fits_passed(node, lock, *from, *to),
        Record::Key(_) => true,
    }
}
