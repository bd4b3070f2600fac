// What the node asks of an account, and how it changes.
ghost use Rattle.std.specs.Prelude.{◌≡◌};
ghost use Rattle.std.specs.Option.{option_map};
ghost use Rattle.sheet.specs.Contents.{content_of};
ghost use Rattle.account.specs.Accounts.{standing_of, opened_of, is_frozen, may_sign, signed_of, held_of, signature_taken, on_either, on_standing};

use crate::types::{Account, Next};
use refusal::Refusal;
use sheet::{Sheet, find};

impl Account {
    // An account whose last sheet with both signatures is this one, before the first look.
    pub fn opened(held: Sheet) -> Account
        ensures { standing_of result ≡ opened_of (content_of held) }
    {
        Account {
            held,
            next: Next::Nothing,
            next_sheet: held,
            looked: None,
            disputed: false,
            sent: None,
        }
    }

    // Does the node sign nothing here.
    pub fn is_frozen(&self) -> bool
        ensures { result ≡ is_frozen (standing_of self.now) }
    {
        self.disputed || self.looked.is_none()
    }

    // The next sheet, where one is under way.
    pub fn under_way(&self) -> Option<&Sheet>
        ensures { option_map (λ s. content_of s.now) result ≡ (standing_of self.now).next }
    {
        match self.next {
            Next::Sent => Some(&self.next_sheet),
            Next::Nothing => None,
        }
    }

    // May the node sign a next here.
    pub fn may_sign(&self) -> Result<(), Refusal>
        ensures { result ≡ may_sign (standing_of self.now) }
    {
        if self.is_frozen() {
            return Err(Refusal::NotOpen);
        }
        match self.under_way() {
            Some(_) => Err(Refusal::UnderWay),
            None => Ok(()),
        }
    }

    // The account with a next that the node has signed.
    pub fn signed(self, next: Sheet) -> Account
        ensures { standing_of result ≡ signed_of (standing_of self) (content_of next) }
    {
        Account {
            next: Next::Sent,
            next_sheet: next,
            ..self
        }
    }

    // The account with a sheet that both have signed.
    pub fn holding(self, sheet: Sheet) -> Account
        ensures { standing_of result ≡ held_of (standing_of self) (content_of sheet) }
    {
        Account {
            held: sheet,
            next: Next::Nothing,
            ..self
        }
    }

    // The neighbour's signature under the next with that number: the next is held from then on.
    pub fn with_signature(self, number: u32) -> Result<Account, Refusal>
        ensures { on_standing result ≡ signature_taken (standing_of self) number }
    {
        if self.is_frozen() {
            return Err(Refusal::NotOpen);
        }
        match self.under_way() {
            Some(next) if next.number == number => Ok(self.holding(*next)),
            _ => Err(Refusal::Mismatch),
        }
    }

    // Does a sheet that may count have an in with the lock.
    pub fn has_in(&self, lock: &[u8; 32]) -> bool
        ensures { result ≡ on_either (λ s. s.ins) (standing_of self.now) lock.now }
    {
        find(self.held.ins(), lock).is_some()
            || self
                .under_way()
                .is_some_and(|next| find(next.ins(), lock).is_some())
    }

    // Does a sheet that may count have an out with the lock. As one function with has_in this would want the list as a
    // closure, which is longer than what the two repeat.
    pub fn has_out(&self, lock: &[u8; 32]) -> bool
        ensures { result ≡ on_either (λ s. s.outs) (standing_of self.now) lock.now }
    {
        find(self.held.outs(), lock).is_some()
            || self
                .under_way()
                .is_some_and(|next| find(next.outs(), lock).is_some())
    }
}
