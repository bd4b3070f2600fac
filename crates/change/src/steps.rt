// The six changes, one by one.
ghost use Rattle.std.specs.Prelude.{◌≡◌};
ghost use Rattle.sheet.specs.Contents.{content_of, found};
ghost use Rattle.change.specs.Changes.{after, changed, gained, left, on_content};
ghost use Rattle.change.specs.declared.types.Change.TheVariants.{Offered, PassingOn, Paying, Getting, Returned, GivingUp};

use refusal::Refusal;
use sheet::{Payment, Sheet, find};

// The sheet with the next number, and with these amounts.
fn numbered(mut sheet: Sheet, own: u32, theirs: u32) -> Result<Sheet, Refusal>
    ensures { on_content result ≡ after (content_of sheet) own theirs (content_of sheet).ins (content_of sheet).outs }
{
    sheet.number = sheet.number.checked_add(1).ok_or(Refusal::TooLarge)?;
    sheet.own = own;
    sheet.theirs = theirs;
    Ok(sheet)
}

// What is left of the money that covers a payment, if it may be added to the others.
fn left(others: &[Payment], covers: u32, payment: &Payment) -> Result<u32, Refusal>
    ensures { result ≡ left payment.now others.now covers }
{
    if find(others, &payment.lock).is_some() {
        return Err(Refusal::LockUsed);
    }
    covers
        .checked_sub(payment.amount)
        .ok_or(Refusal::NotCovered)
}

// What the money is with the amount of the listed payment that has the lock.
fn gained(list: &[Payment], money: u32, lock: &[u8; 32]) -> Result<u32, Refusal>
    ensures { result ≡ gained (found lock.now list.now) money }
{
    let payment = find(list, lock).ok_or(Refusal::Mismatch)?;
    money.checked_add(payment.amount).ok_or(Refusal::TooLarge)
}

// The six changes stand apart, each in the two or three lines that the rules have for it: one function of a list, a sum
// and a side would say less.
pub(crate) fn offered(held: Sheet, payment: Payment) -> Result<Sheet, Refusal>
    ensures { on_content result ≡ changed (content_of held) Offered payment }
{
    let theirs = left(held.ins(), held.theirs, &payment)?;
    let next = held.with_in(payment).ok_or(Refusal::NotCovered)?;
    numbered(next, held.own, theirs)
}

pub(crate) fn passing_on(held: Sheet, payment: Payment) -> Result<Sheet, Refusal>
    ensures { on_content result ≡ changed (content_of held) PassingOn payment }
{
    let own = left(held.outs(), held.own, &payment)?;
    let next = held.with_out(payment).ok_or(Refusal::NotCovered)?;
    numbered(next, own, held.theirs)
}

pub(crate) fn paying(held: Sheet, payment: Payment) -> Result<Sheet, Refusal>
    ensures { on_content result ≡ changed (content_of held) Paying payment }
{
    let theirs = gained(held.outs(), held.theirs, &payment.lock)?;
    numbered(held.without_out(&payment.lock), held.own, theirs)
}

pub(crate) fn getting(held: Sheet, payment: Payment) -> Result<Sheet, Refusal>
    ensures { on_content result ≡ changed (content_of held) Getting payment }
{
    let own = gained(held.ins(), held.own, &payment.lock)?;
    numbered(held.without_in(&payment.lock), own, held.theirs)
}

pub(crate) fn returned(held: Sheet, payment: Payment) -> Result<Sheet, Refusal>
    ensures { on_content result ≡ changed (content_of held) Returned payment }
{
    let own = gained(held.outs(), held.own, &payment.lock)?;
    numbered(held.without_out(&payment.lock), own, held.theirs)
}

pub(crate) fn giving_up(held: Sheet, payment: Payment) -> Result<Sheet, Refusal>
    ensures { on_content result ≡ changed (content_of held) GivingUp payment }
{
    let theirs = gained(held.ins(), held.theirs, &payment.lock)?;
    numbered(held.without_in(&payment.lock), held.own, theirs)
}
