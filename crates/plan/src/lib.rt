// The outside as a list: an entry of the rules is carried out on a plan, which the program then follows act by act.
// Promises: what is asked of it is what stands in it, in that order (specs/Plans.antt). Leans on outcome, whose trait it has.
#![tactic(auto)]

mod plans;
mod types;

pub use types::{Act, Plan};
