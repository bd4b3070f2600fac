// Which accounts a command is about, and whether they are there.
use crate::matching::Misfit;
use crate::types::{Command, Deed, Opening, Showing, Wish, Wrong};

// Do the two parties have an account.
pub(crate) fn have_account(openings: &[Opening], a: usize, b: usize) -> bool {
    openings.iter().any(|opening| {
        let as_written = opening.first == a && opening.second == b;
        let turned = opening.first == b && opening.second == a;
        as_written || turned
    })
}

impl Deed {
    // Who does it, and the node.
    fn parties(self) -> (usize, usize) {
        match self {
            Deed::Offers { from, to, .. }
            | Deed::Returns { from, to, .. }
            | Deed::Settles { from, to, .. }
            | Deed::Signs { from, to }
            | Deed::Sends { from, to, .. } => (from, to),
        }
    }
}

// Two parties have to have an account; `word` is what is named where they have none.
fn check_account(openings: &[Opening], a: usize, b: usize, word: usize) -> Result<(), Misfit> {
    if have_account(openings, a, b) {
        return Ok(());
    }
    Err(Misfit {
        word,
        wrong: Wrong::NoAccount,
    })
}

fn check_wish(openings: &[Opening], wish: Wish) -> Result<(), Misfit> {
    match wish {
        Wish::Passes { node, from, to, .. } => {
            check_account(openings, node, from, 5)?;
            check_account(openings, node, to, 7)
        }
        Wish::Pays { node, to, .. } => check_account(openings, node, to, 2),
        Wish::Gets { node, from, .. } => check_account(openings, node, from, 2),
        Wish::GivesUp { node, from, .. } => check_account(openings, node, from, 3),
    }
}

fn check_showing(openings: &[Opening], showing: Showing) -> Result<(), Misfit> {
    match showing {
        Showing::KeyTo { .. } => Ok(()),
        Showing::ShowsSheet { by, of, .. } => check_account(openings, by, of, 2),
        Showing::ShowsKey { first, second, .. } => check_account(openings, first, second, 6),
    }
}

// The accounts that a command speaks of have to be there.
pub(crate) fn check_accounts(openings: &[Opening], command: &Command) -> Result<(), Misfit> {
    match *command {
        Command::Deed(deed) => {
            let (from, to) = deed.parties();
            check_account(openings, from, to, 2)
        }
        Command::Wish(wish) => check_wish(openings, wish),
        Command::Showing(showing) => check_showing(openings, showing),
        Command::Turn(_) | Command::Tick { .. } | Command::Arrivals { .. } | Command::Show => Ok(
            (),
        ),
    }
}
