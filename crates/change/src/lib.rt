// The six changes: what the next sheet is, or the refusal; and the money of a sheet. Leans on refusal and sheet.
// Promises: each answer is the one that specs/Changes.antt defines; that is the sheet that follows by the rules
// (specs/Follows.antt), its total is the same, and a refusal is the lowest that applies (specs/Reasons.antt).
#![tactic(auto)]

ghost use Rattle.std.specs.Prelude.{◌≡◌};
ghost use Rattle.sheet.specs.Contents.{content_of};
ghost use Rattle.change.specs.Changes.{changed, on_content};
ghost use Rattle.change.specs.Follows.{SameChange};
ghost use Rattle.change.specs.Reasons.{LowestGiven, NoneApplies};
ghost use Rattle.change.specs.Totals.{KeepsTotal};

use refusal::Refusal;
use sheet::{Payment, Sheet};

mod steps;
mod totals;
mod types;

pub use totals::{ins_total, outs_total, total};
pub use types::Change;

// The held sheet with a change, or the refusal.
pub fn apply(held: Sheet, change: Change, payment: Payment) -> Result<Sheet, Refusal>
    ensures { on_content result ≡ changed (content_of held) change payment }
{
    match change {
        Change::Offered => steps::offered(held, payment),
        Change::PassingOn => steps::passing_on(held, payment),
        Change::Paying => steps::paying(held, payment),
        Change::Getting => steps::getting(held, payment),
        Change::Returned => steps::returned(held, payment),
        Change::GivingUp => steps::giving_up(held, payment),
    }
}

// The theorem that what is computed is the sheet that follows by the rules, as specs/Follows.antt states them.
pub fn same_change_stands()
    ensures { SameChange }
{}

// The theorem that each change gives a next sheet of the account with the same total.
pub fn keeps_total_stands()
    ensures { KeepsTotal }
{}

// The theorem that a refusal is given just where one applies, and then the one with the lowest number.
pub fn lowest_given_stands()
    ensures lowest { LowestGiven }
    ensures none { NoneApplies }
{}
