// Is the proposed sheet the held one with one more in.
ghost use Rattle.std.specs.Prelude.{◌≡◌};
ghost use Rattle.sheet.specs.Contents.{content_of};
ghost use Rattle.proposal.specs.Proposals.{adds_in, offer_of};

use crate::types::Proposal;
use change::Change;
use sheet::{Payment, Sheet};

// Is `payment` before the held ins, and all else, what an offer of it would make of the held sheet.
// Where it isn't covered no amount could be right, so `theirs` is not looked at.
fn adds_in(held: &Sheet, proposed: &Sheet, payment: &Payment, others: &[Payment]) -> bool
    ensures { result ≡ adds_in (content_of held.now) (content_of proposed.now) payment.now others.now }
{
    others == held.ins()
        && proposed.outs() == held.outs()
        && proposed.own == held.own
        && proposed.account == held.account
        && u64::from(proposed.number) == u64::from(held.number) + 1
        && (held.theirs < payment.amount || proposed.theirs == held.theirs - payment.amount)
}

// An offer of the first of the proposed ins.
pub(crate) fn offered(held: &Sheet, proposed: &Sheet) -> Option<Proposal>
    ensures { result ≡ offer_of (content_of held.now) (content_of proposed.now) (content_of proposed.now).ins }
{
    let (payment, others) = proposed.ins().split_first()?;
    adds_in(held, proposed, payment, others).then_some(Proposal {
        change: Change::Offered,
        payment: *payment,
    })
}
