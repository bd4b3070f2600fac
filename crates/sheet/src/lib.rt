// Payments and sheets: the values that accounts, the file and the register are about.
// Promises: each function does to a sheet's content (specs/Contents.antt) just what its contract says. Leans on nothing.
#![tactic(auto)]

ghost use Rattle.sheet.specs.Contents.{TurnedTwice, EqualIsSame};

mod equals;
mod payments;
mod sheets;
mod types;

pub use payments::find;
pub use types::{Payment, Sheet};

// The theorem that the neighbour's view of the neighbour's view is the sheet itself.
pub fn turned_twice_stands()
    ensures { TurnedTwice }
{}

// The theorem that what == answers of payments and sheets is whether they are the same.
pub fn equal_is_same_stands()
    ensures { EqualIsSame }
{}
