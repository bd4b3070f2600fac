// What the node would sign or hold for each entry, or why it refuses. Nothing is changed here.
// Promises: each answer is the one that specs/Judgements.antt defines; of several refusals it is the one with the lowest
// number. Leans on node_state, change and proposal.
#![tactic(auto)]

mod asks;
mod calls;
mod messages;
mod types;

pub use asks::{has_key, is_under_way};
pub use calls::{to_give_up, to_pass, to_settle};
pub use messages::{to_accept, to_accept_both, to_hold};
pub use types::Signature;
