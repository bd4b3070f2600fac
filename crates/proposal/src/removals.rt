// Is the proposed sheet the held one with a payment taken off.
ghost use Rattle.std.specs.Prelude.{◌≡◌, length, take_while, zip};
ghost use Rattle.sheet.specs.Contents.{content_of, payment_eq};
ghost use Rattle.proposal.specs.Proposals.{missing_from, removal_of};

use crate::types::Proposal;
use change::{Change, apply};
use sheet::{Payment, Sheet};

// At how many places, from the first on, the same payments stand.
fn alike(held: &[Payment], proposed: &[Payment]) -> usize
    ensures { result ≡ length (take_while (λ p. payment_eq p.0 p.1) (zip held.now proposed.now)) }
{
    held.iter()
        .copied()
        .zip(proposed.iter().copied())
        .take_while(|(p, q)| p == q)
        .count()
}

// The first held payment that differs from what stands at its place, or has nothing there.
fn missing(held: &[Payment], proposed: &[Payment]) -> Option<Payment>
    ensures { result ≡ missing_from held.now proposed.now }
{
    held.get(alike(held, proposed)).copied()
}

// The change with the payment that is missing of the held list, if that makes the proposed sheet.
pub(crate) fn removal(
    held: &Sheet,
    proposed: &Sheet,
    change: Change,
    list: &[Payment],
    others: &[Payment],
) -> Option<Proposal>
    ensures { result ≡ removal_of (content_of held.now) (content_of proposed.now) change (missing_from list.now others.now) }
{
    let payment = missing(list, others)?;
    let next = apply(*held, change, payment).ok()?;
    (next == *proposed).then_some(Proposal { change, payment })
}
