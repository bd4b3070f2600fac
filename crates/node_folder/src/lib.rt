// What the programs node and node_told share: the folder of a node, its start, and the lines in and out.
// One program works in a folder at a time; a node starts from its file, cut back to whole records; acts are carried out in their
// order, and each answer is written behind the sync before it. Files, pipes and processes have no contract, so nothing is
// promised of these functions but that they are safe and end. Leans on terms, replay, plan, journal and the crates below them.
#![tactic(auto)]

mod acts;
mod arguments;
mod guard;
mod open_node;
mod start;
mod store;

pub use arguments::attend;
pub use open_node::{Judged, OpenNode};
