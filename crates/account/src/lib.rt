// An account by value: each change takes the account and hands it back.
// Promises: each answer is the one that specs/Accounts.antt defines. Leans on refusal and sheet.
#![tactic(auto)]

mod accounts;
mod types;

pub use types::{Account, Next, OnItsWay};
