// What an entry comes to, carried out: the answer, what is recorded and sent, and what the node becomes.
// Promises: each function does the acts of an outcome (specs/Outcomes.antt) in their order, and the node is then what the
// records say; where something fails, a first part of the acts was done.
// A node and its outside are given side by side: a struct of two `&mut` would be made anew for each call, and each contract
// would name its parts all the same. Leans on node_state and the crates below it.
#![tactic(auto)]

ghost use Rattle.outcome.specs.Logs.{ExtendedIsAppended, BegunIsFirstPart};

mod asked;
mod faults;
mod notes;
mod outside;
mod proposed;
mod taken;
mod types;

pub use asked::{pass_on, sign};
pub use notes::{note_both, note_signed};
pub use outside::Outside;
pub use proposed::{accept, accept_both};
pub use taken::{hold, learn};
pub use types::Fault;

// The theorems that a log with acts after it is the two lists in a row, and one with a first part of them just that.
pub fn logs_stand()
    ensures extended { ExtendedIsAppended }
    ensures begun { BegunIsFirstPart }
{}
