// What a node knows.
ghost use Rattle.std.specs.Prelude.{◌≡◌, ◌≤◌, map, length};
ghost use Rattle.account.specs.Accounts.{standing_of};
ghost use Rattle.node_state.specs.Nodes.{state_of, account_at, any_has};

use crate::node::Node;
use crate::types::Route;
use account::Account;
use schedule::Terms;
use sheet::Sheet;

impl Node {
    pub fn terms(&self) -> Terms
        ensures { result ≡ (state_of self.now).terms }
    {
        self.terms
    }

    // How many accounts there are.
    pub fn many(&self) -> usize
        ensures value { result ≡ length (state_of self.now).accounts }
        ensures few { result ≤ 16 }
    {
        self.accounts.len()
    }

    // The accounts, by their numbers.
    pub fn accounts(&self) -> &[Account]
        ensures value { map standing_of result.now ≡ (state_of self.now).accounts }
        ensures few { length result.now ≤ 16 }
    {
        &self.accounts
    }

    // The account with a number; one with nothing in it where there is none.
    pub fn account(&self, i: usize) -> Account
        ensures { standing_of result ≡ account_at (state_of self.now) i }
    {
        match self.accounts.get(i) {
            Some(account) => *account,
            None => Account::opened(Sheet::first(0, 0, 0)),
        }
    }

    pub fn key_of(&self, lock: &[u8; 32]) -> Option<[u8; 32]>
        ensures { result ≡ (state_of self.now).key_of lock.now }
    {
        self.keys.get(lock)
    }

    pub fn route_of(&self, lock: &[u8; 32]) -> Option<Route>
        ensures { result ≡ (state_of self.now).route_of lock.now }
    {
        self.routes.get(lock)
    }

    // Is the lock in an in of a sheet that may count, of any account.
    pub fn has_in(&self, lock: &[u8; 32]) -> bool
        ensures { result ≡ any_has (λ s. s.ins) (state_of self.now).accounts lock.now }
    {
        self.accounts.iter().any(|account| account.has_in(lock))
    }

    // Is the lock in an out of a sheet that may count, of any account.
    pub fn has_out(&self, lock: &[u8; 32]) -> bool
        ensures { result ≡ any_has (λ s. s.outs) (state_of self.now).accounts lock.now }
    {
        self.accounts.iter().any(|account| account.has_out(lock))
    }
}
