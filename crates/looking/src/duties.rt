// What the node has to show in an account, and what the account becomes.
ghost use Rattle.std.specs.Prelude.{◌≡◌};
ghost use Rattle.account.specs.Accounts.{standing_of};
ghost use Rattle.looking.specs.Looking.{still_sent, is_free, opens, answers, shows_held, looked_of};

use crate::at::LookAt;
use crate::past::is_past;
use account::{Account, OnItsWay};

impl LookAt<'_> {
    // What is still on its way.
    fn still_sent(&self, sent: Option<OnItsWay>) -> Option<OnItsWay>
        ensures { result ≡ still_sent self.now.delay self.now.tick self.now.i self.now.shown.now sent }
    {
        let way = sent?;
        let lost = u64::from(way.at) + u64::from(self.delay) < u64::from(self.tick);
        if lost || self.has_ended() || self.has_reached(way.number) {
            return None;
        }
        Some(way)
    }

    // Is nothing of the node's own on its way.
    fn is_free(&self, account: &Account) -> bool
        ensures { result ≡ is_free self.now.delay self.now.tick self.now.i self.now.shown.now (standing_of account.now) }
    {
        self.still_sent(account.sent).is_none()
    }

    // Is held shown to open a dispute.
    fn opens(&self, account: &Account) -> bool
        ensures { result ≡ opens self.now.delay self.now.tick self.now.i self.now.shown.now (standing_of account.now) }
    {
        self.is_free(account) && !self.has_dispute() && is_past(account, self.tick)
    }

    // Is held shown against a lower number.
    fn answers(&self, account: &Account) -> bool
        ensures { result ≡ answers self.now.delay self.now.tick self.now.i self.now.shown.now (standing_of account.now) }
    {
        self.is_free(account) && self.has_below(account.held.number)
    }

    pub(crate) fn shows_held(&self, account: &Account) -> bool
        ensures { result ≡ shows_held self.now.delay self.now.tick self.now.i self.now.shown.now (standing_of account.now) }
    {
        self.opens(account) || self.answers(account)
    }

    // What is on its way after the look.
    fn sent_after(&self, account: &Account) -> Option<OnItsWay>
        ensures { result ≡ (looked_of self.now.delay self.now.tick self.now.shown.now self.now.i (standing_of account.now)).sent }
    {
        if self.shows_held(account) {
            return Some(OnItsWay {
                number: account.held.number,
                at: self.tick,
            });
        }
        self.still_sent(account.sent)
    }

    // The account after the look.
    pub(crate) fn looked(&self, account: &Account) -> Account
        ensures { standing_of result ≡ looked_of self.now.delay self.now.tick self.now.shown.now self.now.i (standing_of account.now) }
    {
        let disputed = account.disputed || self.has_dispute() || self.opens(account);
        Account {
            looked: Some(self.tick),
            disputed,
            sent: self.sent_after(account),
            ..*account
        }
    }
}
