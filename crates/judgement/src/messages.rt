// What the neighbours' messages come to.
ghost use Rattle.std.specs.Prelude.{◌≡◌};
ghost use Rattle.sheet.specs.Contents.{content_of};
ghost use Rattle.account.specs.Accounts.{standing_of};
ghost use Rattle.change.specs.Changes.{on_content};
ghost use Rattle.node_state.specs.Nodes.{state_of};
ghost use Rattle.judgement.specs.Judgements.{in_own_view, proposed_as, judged, to_accept, signed_as, to_accept_both, next_with, to_hold};

use crate::asks::{LAST, has_key, is_closed, is_under_way, refuse_if, used_in};
use crate::types::Signature;
use account::Account;
use change::{Change, apply};
use node_state::Node;
use proposal::recognise;
use refusal::Refusal;
use sheet::{Payment, Sheet};

// A neighbour's sheet in the node's own view, with the node's own number for the account.
fn own_view(sheet: Sheet, account: u8) -> Sheet
    ensures { content_of result ≡ in_own_view account (content_of sheet) }
{
    // `..` cannot stand here: the fields of a sheet are its crate's own.
    let mut own = sheet.turned();
    own.account = account;
    own
}

// What a change of the held sheet that was proposed comes to.
fn proposed_as(
    node: &Node,
    held: &Sheet,
    change: Change,
    payment: Payment,
) -> Result<Sheet, Refusal>
    ensures { on_content result ≡ proposed_as (state_of node.now) (content_of held.now) change payment }
{
    match change {
        Change::Offered => {
            let next = apply(*held, change, payment);
            refuse_if(next, used_in(node, &payment.lock), Refusal::LockUsed)
        }
        Change::Returned => apply(*held, change, payment),
        Change::Getting => {
            let next = apply(*held, change, payment);
            refuse_if(next, !has_key(node, &payment.lock), Refusal::KeyMissing)
        }
        Change::PassingOn | Change::Paying | Change::GivingUp => Err(Refusal::Mismatch),
    }
}

// What a proposed sheet, in the node's own view, comes to.
fn judge(node: &Node, held: &Sheet, proposed: &Sheet) -> Result<Sheet, Refusal>
    ensures { on_content result ≡ judged (state_of node.now) (content_of held.now) (content_of proposed.now) }
{
    let proposal = recognise(held, proposed).ok_or(Refusal::Mismatch)?;
    proposed_as(node, held, proposal.change, proposal.payment)
}

// A sheet alone, as it came.
pub fn to_accept(node: &Node, i: usize, sheet: Sheet) -> Result<Sheet, Refusal>
    ensures { on_content result ≡ to_accept (state_of node.now) i (content_of sheet) }
{
    if is_closed(node, i, sheet.account) {
        return Err(Refusal::NotOpen);
    }
    let account = node.account(i);
    if is_under_way(&account) {
        return Err(Refusal::UnderWay);
    }
    judge(node, &account.held, &own_view(sheet, i as u8))
}

// A sheet, in the node's own view, with the neighbour's signature under a number.
fn signed_as(node: &Node, account: &Account, sheet: &Sheet, number: u32) -> Result<Sheet, Refusal>
    ensures { on_content result ≡ signed_as (state_of node.now) (content_of account.now.held) (content_of sheet.now) number (standing_of account.now).next }
{
    match account.under_way() {
        Some(next) if sheet != next => Err(Refusal::UnderWay),
        Some(next) if number != next.number => Err(Refusal::Mismatch),
        Some(next) => Ok(*next),
        None => {
            let next = judge(node, &account.held, sheet);
            refuse_if(next, number != sheet.number, Refusal::Mismatch)
        }
    }
}

// A sheet with the neighbour's signature, as they came.
pub fn to_accept_both(
    node: &Node,
    i: usize,
    sheet: Sheet,
    signature: Signature,
) -> Result<Sheet, Refusal>
    ensures { on_content result ≡ to_accept_both (state_of node.now) i (content_of sheet) signature }
{
    if is_closed(node, i, sheet.account) || signature.account > LAST {
        return Err(Refusal::NotOpen);
    }
    signed_as(
        node,
        &node.account(i),
        &own_view(sheet, i as u8),
        signature.number,
    )
}

// The next with that number.
fn next_with(account: &Account, number: u32) -> Result<Sheet, Refusal>
    ensures { on_content result ≡ next_with number (standing_of account.now).next }
{
    match account.under_way() {
        Some(next) if next.number == number => Ok(*next),
        _ => Err(Refusal::Mismatch),
    }
}

// A signature alone, as it came.
pub fn to_hold(node: &Node, i: usize, signature: Signature) -> Result<Sheet, Refusal>
    ensures { on_content result ≡ to_hold (state_of node.now) i signature }
{
    if is_closed(node, i, signature.account) {
        return Err(Refusal::NotOpen);
    }
    next_with(&node.account(i), signature.number)
}
