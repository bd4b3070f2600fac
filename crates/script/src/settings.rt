// What is said before the play: the terms, the parties, their accounts.
use crate::matching::Misfit;
use crate::pairs::have_account;
use crate::types::{Opening, Party, Wrong};
use schedule::TooSmall;

const MOST_NODES: usize = 4;

const MOST_PARTIES: usize = 16;

const MOST_ACCOUNTS: usize = 16;

// The word of the terms that is too small.
impl From<TooSmall> for Misfit {
    fn from(small: TooSmall) -> Misfit {
        let (word, wrong) = match small {
            TooSmall::Look => (8, Wrong::LookBelowOne),
            TooSmall::Window => (4, Wrong::WindowTooShort),
            TooSmall::Gap => (2, Wrong::GapTooShort),
        };
        Misfit { word, wrong }
    }
}

// A letter, and then letters, digits, - and _.
fn is_name(name: &[u8]) -> bool {
    name.first().is_some_and(|b| b.is_ascii_alphabetic())
        && name
            .iter()
            .all(|b| b.is_ascii_alphanumeric() || *b == b'-' || *b == b'_')
}

// A party with this name has to be one that may be added.
pub(crate) fn check_party(parties: &[Party], name: &[u8], is_node: bool) -> Result<(), Misfit> {
    let nodes = parties.iter().filter(|party| party.is_node).count();
    let wrong = if !is_name(name) {
        Wrong::NotAName
    } else if is_node && nodes >= MOST_NODES {
        Wrong::TooManyNodes
    } else if parties.len() >= MOST_PARTIES {
        Wrong::TooManyParties
    } else {
        return Ok(());
    };
    Err(Misfit { word: 1, wrong })
}

fn is_node(parties: &[Party], party: usize) -> bool {
    parties.get(party).is_some_and(|found| found.is_node)
}

// How many accounts a party has.
fn accounts_of(openings: &[Opening], party: usize) -> usize {
    openings
        .iter()
        .filter(|opening| opening.first == party || opening.second == party)
        .count()
}

// An account has to be one that may be added.
pub(crate) fn check_opening(
    parties: &[Party],
    openings: &[Opening],
    opening: Opening,
) -> Result<(), Misfit> {
    let Opening {
        first,
        second,
        first_put_in,
        second_put_in,
    } = opening;
    let (word, wrong) = if first == second {
        (2, Wrong::AccountWithItself)
    } else if !is_node(parties, first) && !is_node(parties, second) {
        (2, Wrong::AccountWithoutNode)
    } else if have_account(openings, first, second) {
        (2, Wrong::AccountTwice)
    } else if accounts_of(openings, first) >= MOST_ACCOUNTS {
        (1, Wrong::TooManyAccounts)
    } else if accounts_of(openings, second) >= MOST_ACCOUNTS {
        (2, Wrong::TooManyAccounts)
    } else if first_put_in.checked_add(second_put_in).is_none() {
        (4, Wrong::DepositsTooLarge)
    } else {
        return Ok(());
    };
    Err(Misfit { word, wrong })
}
