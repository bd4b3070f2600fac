// What a node keeps.
ghost use Rattle.std.specs.Prelude.{◌≤◌, vec_len, vec_capacity};

use crate::types::Route;
use account::Account;
use lockmap::LockMap;
use schedule::Terms;

// Up to 16 accounts, for which there is room from the start; keys by their lock; locks that were passed on, with the
// accounts from and to.
#[derive(Drop)]
pub struct Node {
    pub(crate) terms: Terms,
    pub(crate) accounts: Vec<Account>,
    pub(crate) keys: LockMap<[u8; 32]>,
    pub(crate) routes: LockMap<Route>,
    ghost few: { vec_len accounts ≤ 16 },
    ghost room: { 16 ≤ vec_capacity accounts },
}
