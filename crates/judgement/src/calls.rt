// What the owner's calls come to.
ghost use Rattle.std.specs.Prelude.{◌≡◌, Some};
ghost use Rattle.account.specs.Accounts.{standing_of};
ghost use Rattle.change.specs.Changes.{on_content};
ghost use Rattle.node_state.specs.Nodes.{state_of};
ghost use Rattle.judgement.specs.Judgements.{only_lock, may_call, to_settle, to_give_up, passed_as, to_pass};

use crate::asks::{has_key, is_shut, is_under_way, out_stands, refuse_if, too_near, used_out};
use account::Account;
use change::{Change, apply};
use node_state::Node;
use refusal::Refusal;
use sheet::{Payment, Sheet, find};

// A payment of which only the lock counts.
fn only_lock(lock: &[u8; 32]) -> Payment
    ensures { result ≡ only_lock lock.now }
{
    Payment {
        lock: *lock,
        amount: 0,
        end: 0,
    }
}

// Is the account there, not frozen, and without a next.
fn may_call(node: &Node, i: usize) -> Result<(), Refusal>
    ensures { result ≡ may_call (state_of node.now) i }
{
    if i >= node.many() {
        return Err(Refusal::NotOpen);
    }
    node.account(i).may_sign()
}

// Paying or getting the payment with the lock.
pub fn to_settle(node: &Node, i: usize, change: Change, lock: &[u8; 32]) -> Result<Sheet, Refusal>
    ensures { on_content result ≡ to_settle (state_of node.now) i change lock.now }
{
    may_call(node, i)?;
    let next = apply(node.account(i).held, change, only_lock(lock));
    refuse_if(next, !has_key(node, lock), Refusal::KeyMissing)
}

// Giving up the in with the lock.
pub fn to_give_up(node: &Node, i: usize, lock: &[u8; 32]) -> Result<Sheet, Refusal>
    ensures { on_content result ≡ to_give_up (state_of node.now) i lock.now }
{
    may_call(node, i)?;
    let next = apply(node.account(i).held, Change::GivingUp, only_lock(lock));
    let next = refuse_if(next, out_stands(node, lock), Refusal::OutStands);
    refuse_if(next, has_key(node, lock), Refusal::KeyKnown)
}

// Passing on this in from one account to another as the payment.
fn passed_as(
    node: &Node,
    from: &Account,
    to: &Account,
    payment: Payment,
    incoming: Payment,
) -> Result<Sheet, Refusal>
    ensures { on_content result ≡ passed_as (state_of node.now) (standing_of from.now) (standing_of to.now) payment (Some incoming) }
{
    let near = too_near(node.terms().gap, from, to, &incoming, &payment);
    let next = apply(to.held, Change::PassingOn, payment);
    let next = refuse_if(next, near, Refusal::EndTooNear);
    let next = refuse_if(next, incoming.amount < payment.amount, Refusal::NotCovered);
    refuse_if(next, used_out(node, &payment.lock), Refusal::LockUsed)
}

// Passing on the in with the payment's lock from account i to account j as the payment.
pub fn to_pass(node: &Node, i: usize, j: usize, payment: Payment) -> Result<Sheet, Refusal>
    ensures { on_content result ≡ to_pass (state_of node.now) i j payment }
{
    if is_shut(node, i) || is_shut(node, j) {
        return Err(Refusal::NotOpen);
    }
    let from = node.account(i);
    let to = node.account(j);
    if is_under_way(&from) || is_under_way(&to) {
        return Err(Refusal::UnderWay);
    }
    if i == j {
        return Err(Refusal::Mismatch);
    }
    let incoming = find(from.held.ins(), &payment.lock).ok_or(Refusal::Mismatch)?;
    passed_as(node, &from, &to, payment, incoming)
}
