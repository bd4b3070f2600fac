// The rules of a node: what it answers to each message and call, what it records and sends, and in which order.
// Promises: each entry is carried out as specs/Entries.antt says: answer, acts and the node after them; and where memory,
// a write or a sync fails, a first part of the acts. Leans on judgement and outcome.
#![tactic(auto)]

ghost use Rattle.std.specs.Prelude.{◌≡◌};
ghost use Rattle.node_state.specs.Nodes.{state_of};
ghost use Rattle.outcome.specs.Outcomes.{CarriedOut};
ghost use Rattle.rules.specs.Entries.{message_of, call_of};
ghost use Rattle.rules.specs.Order.{MessagesRecordedFirst, CallsRecordedFirst};

use change::Change;
use node_state::Node;
use outcome::{Fault, Outside};
use refusal::Refusal;

mod calls;
mod messages;
mod types;

pub use types::{Call, Message};

// A message that came with the number of an account.
pub fn message<O: Outside>(
    node: &mut Node,
    outside: &mut O,
    account: u32,
    message: Message,
) -> Result<Result<(), Refusal>, Fault>
    ensures { CarriedOut (message_of (state_of node.old) account message) (state_of node.old) (O.log outside.old) result (state_of node.new) (O.log outside.new) }
{
    let i = account as usize;
    match message {
        Message::Proposed(sheet) => messages::take_proposal(node, outside, i, sheet),
        Message::ProposedSigned(sheet, signature) => {
            messages::take_signed_proposal(node, outside, i, sheet, signature)
        }
        Message::Signed(signature) => messages::take_signature(node, outside, i, signature),
        Message::Key(key) => messages::take_key(node, outside, &key),
    }
}

// What the owner asks for.
pub fn call<O: Outside>(
    node: &mut Node,
    outside: &mut O,
    call: Call,
) -> Result<Result<(), Refusal>, Fault>
    ensures { CarriedOut (call_of (state_of node.old) call) (state_of node.old) (O.log outside.old) result (state_of node.new) (O.log outside.new) }
{
    match call {
        Call::Pass { from, to, payment } => {
            calls::pass(node, outside, from as usize, to as usize, payment)
        }
        Call::Pay { account, lock } => {
            calls::settle(node, outside, account as usize, Change::Paying, &lock)
        }
        Call::Get { account, lock } => {
            calls::settle(node, outside, account as usize, Change::Getting, &lock)
        }
        Call::GiveUp { account, lock } => calls::give_up(node, outside, account as usize, &lock),
    }
}

// The theorem that whatever is sent was recorded as signed before, and synced.
pub fn recorded_first_stands()
    ensures messages { MessagesRecordedFirst }
    ensures calls { CallsRecordedFirst }
{}
