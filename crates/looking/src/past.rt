// Ends that are past.
ghost use Rattle.std.specs.Prelude.{◌≡◌};
ghost use Rattle.sheet.specs.Contents.{content_of};
ghost use Rattle.account.specs.Accounts.{standing_of};
ghost use Rattle.looking.specs.Looking.{any_past, past_on, is_past};

use account::Account;
use sheet::{Payment, Sheet};

fn any_past(list: &[Payment], tick: u32) -> bool
    ensures { result ≡ any_past tick list.now }
{
    // a payment's last tick is its end itself
    list.iter().any(|payment| payment.end < tick)
}

fn past_on(sheet: &Sheet, tick: u32) -> bool
    ensures { result ≡ past_on tick (content_of sheet.now) }
{
    any_past(sheet.ins(), tick) || any_past(sheet.outs(), tick)
}

// Does a sheet that may count have a payment with an end that is past.
pub(crate) fn is_past(account: &Account, tick: u32) -> bool
    ensures { result ≡ is_past tick (standing_of account.now) }
{
    past_on(&account.held, tick) || account.under_way().is_some_and(|next| past_on(next, tick))
}
