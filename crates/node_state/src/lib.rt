// What a node keeps: its accounts, its keys, and the locks that it passed on.
// Promises: each function answers from, or changes, the state (specs/Nodes.antt) just as its contract says; none has a
// condition on its arguments. Leans on schedule, sheet, account and lockmap.
#![tactic(auto)]

mod changes;
mod node;
mod reads;
mod types;

pub use node::Node;
pub use types::Route;
