// The register's rules for one account: its dispute, the keys that were shown for it, and what is paid out.
// Promises: each function answers from, or changes, a page (specs/Pages.antt) just as the rules of specs/Register.antt say,
// and none has a condition on its arguments. Of the rules themselves it promises the laws of specs/Laws.antt: what has
// ended stays, `until` of a dispute stays and its number never falls, keys stay with their ticks, nothing changes the payout
// of a settled account, and the two payouts are together all money on the sheet. Leans on sheet and digest.
#![tactic(auto)]

ghost use Rattle.register.specs.Laws.{EndedForGood, UntilStays, HigherShown, KeysStay, SettledForGood, StaysSettled, NothingLost};

mod changes;
mod keys;
mod payouts;
mod reads;
mod types;

pub use types::{KeyAt, Page, Phase};

// The theorem that the sheet that counts, once a dispute has ended, counts for good.
pub fn ended_stands()
    ensures { EndedForGood }
{}

// The theorems that `until` of a dispute stays and its number never falls, and that a higher sheet in time is shown.
pub fn dispute_stands()
    ensures stays { UntilStays }
    ensures higher { HigherShown }
{}

// The theorem that a key that was shown stays shown, with its tick.
pub fn keys_stand()
    ensures { KeysStay }
{}

// The theorems that nothing changes the payout of a settled account, and that it stays settled.
pub fn settled_stands()
    ensures payout { SettledForGood }
    ensures settled { StaysSettled }
{}

// The theorem that the node and the neighbour get together all money on the sheet that counts.
pub fn nothing_lost_stands()
    ensures { NothingLost }
{}
