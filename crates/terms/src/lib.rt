// The terms of a node, as its owner writes them.
// Promises: a text is read as specs/Reading.antt says, or what is wrong with it and where. Leans on lines and schedule.
#![tactic(auto)]

ghost use Rattle.std.specs.Prelude.{◌≡◌};
ghost use Rattle.terms.specs.Reading.{terms_of, TermsHold};

mod deposits;
mod drafts;
mod entries;
mod faults;
mod types;

pub use types::{Agreed, DepositList, Deposits, Fault, Wrong};

// The terms that a text says, or what is wrong with it.
pub fn read_terms(text: &[u8]) -> Result<Agreed, Fault>
    ensures { result ≡ terms_of text.now }
{
    if text.len() > 1_048_576 {
        return Err(Fault::missing(Wrong::TooLong));
    }
    drafts::agreed_by(drafts::draft_of(text)?)
}

// The theorem that terms which were read keep the rules.
pub fn terms_hold_stands()
    ensures { TermsHold }
{}
