// What the rules ask of the node before it signs.
ghost use Rattle.std.specs.Prelude.{◌≡◌, ◌<◌, false};
ghost use Rattle.account.specs.Accounts.{standing_of};
ghost use Rattle.change.specs.Changes.{on_content};
ghost use Rattle.node_state.specs.Nodes.{state_of};
ghost use Rattle.judgement.specs.Tests.{unless, is_shut, is_closed, is_under_way, has_key, used_in, used_out, too_near, out_stands};

use account::Account;
use node_state::Node;
use refusal::Refusal;
use sheet::{Payment, Sheet};

// The largest number of an account.
pub(crate) const LAST: u8 = 15;

// What would be signed, with one refusal more that applies or not: the lowest number is given.
pub(crate) fn refuse_if(
    next: Result<Sheet, Refusal>,
    applies: bool,
    refusal: Refusal,
) -> Result<Sheet, Refusal>
    ensures { on_content result ≡ unless applies refusal (on_content next) }
{
    if !applies {
        return next;
    }
    match next {
        Err(other) if other.number() <= refusal.number() => Err(other),
        _ => Err(refusal),
    }
}

// Is there no such account, or does the node sign nothing there now.
pub(crate) fn is_shut(node: &Node, i: usize) -> bool
    ensures value { result ≡ is_shut (state_of node.now) i }
    ensures within { result ≡ false → i < 16 }
{
    i >= node.many() || node.account(i).is_frozen()
}

// Is the account that a message comes for shut, or the sender's number for it none.
pub(crate) fn is_closed(node: &Node, i: usize, account: u8) -> bool
    ensures value { result ≡ is_closed (state_of node.now) i account }
    ensures within { result ≡ false → i < 16 }
{
    is_shut(node, i) || account > LAST
}

pub fn is_under_way(account: &Account) -> bool
    ensures { result ≡ is_under_way (standing_of account.now) }
{
    account.under_way().is_some()
}

pub fn has_key(node: &Node, lock: &[u8; 32]) -> bool
    ensures { result ≡ has_key (state_of node.now) lock.now }
{
    node.key_of(lock).is_some()
}

// Can the lock not be offered.
pub(crate) fn used_in(node: &Node, lock: &[u8; 32]) -> bool
    ensures { result ≡ used_in (state_of node.now) lock.now }
{
    node.has_in(lock) || node.route_of(lock).is_some()
}

// Can the lock not be passed on.
pub(crate) fn used_out(node: &Node, lock: &[u8; 32]) -> bool
    ensures { result ≡ used_out (state_of node.now) lock.now }
{
    node.has_out(lock) || node.route_of(lock).is_some()
}

// Are the ends of an in and of the out for it too close, or is one past.
pub(crate) fn too_near(
    gap: u32,
    from: &Account,
    to: &Account,
    incoming: &Payment,
    payment: &Payment,
) -> bool
    ensures { result ≡ too_near gap (standing_of from.now) (standing_of to.now) incoming.now payment.now }
{
    u64::from(incoming.end) < u64::from(payment.end) + u64::from(gap)
        || incoming.end < from.looked.unwrap_or(0)
        || payment.end < to.looked.unwrap_or(0)
}

// May an out for the in with the lock still come to count.
pub(crate) fn out_stands(node: &Node, lock: &[u8; 32]) -> bool
    ensures { result ≡ out_stands (state_of node.now) lock.now ((state_of node.now).route_of lock.now) }
{
    node.route_of(lock)
        .is_some_and(|route| node.account(route.to as usize).has_out(lock))
}
