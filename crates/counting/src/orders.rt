// The two sheets of an account: whether they are in order, and which of them is worth no more than the other.
ghost use Rattle.std.specs.Prelude.{◌≡◌};
ghost use Rattle.sheet.specs.Contents.{content_of};
ghost use Rattle.account.specs.Accounts.{standing_of};
ghost use Rattle.counting.specs.Orders.{matched, is_part, is_beside, is_below, is_orderly, lesser};

use account::Account;
use change::{ins_total, outs_total};
use sheet::{Payment, Sheet};

// What is left of the payments past the first of them, if it is this one; else all of them.
fn matched<'a>(left: &'a [Payment], p: &Payment) -> &'a [Payment]
    ensures { result.now ≡ matched left.now p.now }
{
    match left {
        [first, rest @ ..] if *first == *p => rest,
        _ => left,
    }
}

// Do the payments stand among the others, in the same order.
fn is_part(list: &[Payment], others: &[Payment]) -> bool
    ensures { result ≡ is_part list.now others.now }
{
    let mut left = list;
    for p in others {
        left = matched(left, p);
    }
    left.is_empty()
}

// Is one list the other with payments added or taken off.
fn is_beside(a: &[Payment], b: &[Payment]) -> bool
    ensures { result ≡ is_beside a.now b.now }
{
    is_part(a, b) || is_part(b, a)
}

// Is the sheet never worth more than the other, where their payments are beside each other.
fn is_below(sheet: &Sheet, other: &Sheet) -> bool
    ensures { result ≡ is_below (content_of sheet.now) (content_of other.now) }
{
    let more_in = ins_total(sheet).saturating_sub(ins_total(other));
    let more_out = outs_total(sheet).saturating_sub(outs_total(other));
    u64::from(sheet.own) + more_in + more_out <= u64::from(other.own)
}

pub(crate) fn is_orderly(account: &Account) -> bool
    ensures { result ≡ is_orderly (standing_of account.now) }
{
    let held = &account.held;
    account.under_way().is_none_or(|next| {
        is_beside(held.ins(), next.ins())
            && is_beside(held.outs(), next.outs())
            && (is_below(next, held) || is_below(held, next))
    })
}

// The sheet that is worth no more than the other.
pub(crate) fn lesser_sheet(account: &Account) -> &Sheet
    ensures { content_of result.now ≡ lesser (standing_of account.now) }
{
    match account.under_way() {
        Some(next) if is_below(next, &account.held) => next,
        _ => &account.held,
    }
}
