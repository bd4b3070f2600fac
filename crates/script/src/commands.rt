// The command of a line's verb with the line's parties and numbers.
use crate::forms::Verb;
use crate::tokens::Token;
use crate::types::{Command, Deed, Promised, Showing, Turn, Wish};
use std::array;

// The parties and the numbers of a line, each in the line's order; zeros where there are fewer.
#[derive(Clone, Copy)]
pub(crate) struct Parts {
    pub(crate) parties: [usize; 3],
    pub(crate) numbers: [u32; 4],
    first_is_node: bool,
}

fn parties_of(tokens: &[Token]) -> [usize; 3] {
    let mut parties = tokens.iter().filter_map(|token| match *token {
        Token::Party { index, .. } => Some(index),
        _ => None,
    });
    array::from_fn(|_| parties.next().unwrap_or(0))
}

fn numbers_of(tokens: &[Token]) -> [u32; 4] {
    let mut numbers = tokens.iter().filter_map(|token| match *token {
        Token::Number(n) => Some(n),
        _ => None,
    });
    array::from_fn(|_| numbers.next().unwrap_or(0))
}

fn first_is_node(tokens: &[Token]) -> bool {
    tokens
        .iter()
        .find_map(|token| match *token {
            Token::Party { is_node, .. } => Some(is_node),
            _ => None,
        })
        .unwrap_or(false)
}

impl Parts {
    pub(crate) fn of(tokens: &[Token]) -> Parts {
        Parts {
            parties: parties_of(tokens),
            numbers: numbers_of(tokens),
            first_is_node: first_is_node(tokens),
        }
    }
}

impl Verb {
    // The command that a line says.
    pub(crate) fn command(self, parts: &Parts) -> Command {
        let [first, second, third] = parts.parties;
        let [number, amount, end, _] = parts.numbers;
        let key = number;
        let promised = Promised { key, amount, end };
        match self {
            Verb::Offers { signed } => Command::Deed(Deed::Offers {
                from: first,
                to: second,
                promised,
                signed,
            }),
            Verb::Returns { signed } => Command::Deed(Deed::Returns {
                from: first,
                to: second,
                key,
                signed,
            }),
            Verb::Pays if parts.first_is_node => Command::Wish(Wish::Pays {
                node: first,
                to: second,
                key,
            }),
            Verb::Pays => Command::Deed(Deed::Settles {
                from: first,
                to: second,
                key,
                signed: true,
            }),
            Verb::PaysUnsigned => Command::Deed(Deed::Settles {
                from: first,
                to: second,
                key,
                signed: false,
            }),
            Verb::Signs => Command::Deed(Deed::Signs {
                from: first,
                to: second,
            }),
            Verb::Passes => Command::Wish(Wish::Passes {
                node: first,
                from: second,
                to: third,
                promised,
            }),
            Verb::Gets => Command::Wish(Wish::Gets {
                node: first,
                from: second,
                key,
            }),
            Verb::GivesUp => Command::Wish(Wish::GivesUp {
                node: first,
                from: second,
                key,
            }),
            Verb::KeyTo => Command::Showing(Showing::KeyTo { key, to: first }),
            Verb::ShowsSheet => Command::Showing(Showing::ShowsSheet {
                by: first,
                of: second,
                number,
            }),
            Verb::ShowsKey => Command::Showing(Showing::ShowsKey {
                by: first,
                key,
                first: second,
                second: third,
            }),
            Verb::Looks => Command::Turn(Turn::Looks { node: first }),
            Verb::LooksByHand => Command::Turn(Turn::LooksByHand { node: first }),
            Verb::LooksByItself => Command::Turn(Turn::LooksByItself { node: first }),
            Verb::MissesLooks => Command::Turn(Turn::MissesLooks {
                node: first,
                until: number,
            }),
            Verb::Arrivals { at_once } => Command::Arrivals { at_once },
            Verb::Stops => Command::Turn(Turn::Stops { node: first }),
            Verb::StopsAfter { lost } => Command::Turn(Turn::StopsAfter {
                node: first,
                acts: number,
                lost,
            }),
            Verb::Starts => Command::Turn(Turn::Starts { node: first }),
            Verb::Show => Command::Show,
        }
    }
}
