// How a node is made, and how what it knows changes.
ghost use Rattle.std.specs.Prelude.{◌≡◌, ◌<◌, [], ◌∷◌, ◌++◌, is_ok, IfOk, if◌then◌else◌};
ghost use Rattle.account.specs.Accounts.{standing_of};
ghost use Rattle.node_state.specs.Nodes.{state_of, empty_of, with_accounts, with_opened, with_account, with_key, with_route};

use crate::node::Node;
use crate::types::Route;
use account::Account;
use lockmap::LockMap;
use schedule::Terms;
use sheet::Sheet;
use std::alloc::{AllocError, Global};

impl Node {
    // A node with no accounts, which knows nothing yet.
    pub fn new(heap: Global, terms: Terms) -> Result<Node, AllocError>
        ensures { IfOk result (λ n. state_of n ≡ empty_of terms) }
    {
        Ok(Node {
            terms,
            accounts: Vec::with_capacity(heap, 16)?,
            keys: LockMap::new(heap)?,
            routes: LockMap::new(heap)?,
        })
    }

    // One account more, with these deposits; nothing changes, and the answer is false, where there are 16. There is no
    // other reason, so that an error would have nothing to say.
    pub fn open_account(&mut self, own: u32, theirs: u32) -> bool
        ensures { (result, state_of self.new) ≡ with_opened (state_of self.old) own theirs }
    {
        let many = self.many();
        if many >= 16 {
            return false;
        }
        self.accounts
            .push_reserved(Account::opened(Sheet::first(many as u8, own, theirs)));
        true
    }

    // The account with a number is this one from now on; nothing changes where there is none.
    pub fn put(&mut self, i: usize, account: Account)
        ensures { state_of self.new ≡ with_account (state_of self.old) i (standing_of account) }
    {
        if let Some(place) = self.accounts.get_mut(i) {
            *place = account;
        }
    }

    // The key of a lock. Nothing changes where memory runs out.
    pub fn add_key(&mut self, lock: [u8; 32], key: [u8; 32]) -> Result<(), AllocError>
        ensures { state_of self.new ≡ (if is_ok result then with_key (state_of self.old) lock key else state_of self.old) }
    {
        self.keys.insert(lock, key)
    }

    // The lock was passed on. Nothing changes where memory runs out.
    pub fn add_route(&mut self, lock: [u8; 32], route: Route) -> Result<(), AllocError>
        ensures { state_of self.new ≡ (if is_ok result then with_route (state_of self.old) lock route else state_of self.old) }
    {
        self.routes.insert(lock, route)
    }
}
