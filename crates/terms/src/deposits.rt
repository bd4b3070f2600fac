// The deposits of the accounts, one after the other.
ghost use Rattle.std.specs.Prelude.{◌≡◌, ◌<◌};
ghost use Rattle.terms.specs.Reading.{no_deposits, one_more, deposits_in};

use crate::types::{DepositList, Deposits};

impl DepositList {
    pub(crate) fn new() -> DepositList
        ensures { result ≡ no_deposits }
    {
        DepositList {
            list: [Deposits::default(); 16],
            count: 0,
        }
    }

    // The deposits, by the numbers of the accounts.
    pub fn as_slice(&self) -> &[Deposits]
        ensures { result.now ≡ deposits_in self.now }
    {
        self.list.get(..self.count).unwrap_or(&self.list)
    }

    // With those of one account more.
    pub(crate) fn with(self, deposits: Deposits) -> DepositList
        requires { self.count < 16 }
        ensures { result ≡ one_more self deposits }
    {
        let mut next = self;
        next.list[self.count] = deposits;
        next.count = self.count + 1;
        next
    }
}
