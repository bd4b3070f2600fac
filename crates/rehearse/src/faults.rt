// What is wrong with a script, in words.
use crate::cast::line_at;
use script::{Fault, Wrong, word_at};
use std::alloc::{AllocError, Global};
use std::fmt;

// What is said: after the word that is wrong, or with no word before it.
#[derive(Clone, Copy)]
enum Words {
    After(&'static str),
    Alone(&'static str),
}

// This program's own words, a table of them (a Display in the crate script would be the same table).
fn words_for(wrong: Wrong) -> Words {
    match wrong {
        Wrong::CannotStand => Words::After(" is not a word that can stand here"),
        Wrong::EndsEarly => Words::Alone("the line ends too early"),
        Wrong::NotANumber => Words::After(" is not a number"),
        Wrong::TooLarge => Words::After(" is above 4294967295"),
        Wrong::NotDigits => Words::After(" is not an even number of hexadecimal digits"),
        Wrong::NoParty => Words::After(" is nobody in this script"),
        Wrong::NotANode => Words::After(" is not a node"),
        Wrong::IsANode => Words::After(" is a node, which does what its rules say"),
        Wrong::NameTaken => Words::After(" is in this script already"),
        Wrong::NotAName => Words::After(" can't be a name"),
        Wrong::TooManyNodes => Words::After(" is one node too many: there are at most 4"),
        Wrong::TooManyParties => Words::After(" is one too many: there are at most 16"),
        Wrong::TooManyAccounts => Words::After(" has 16 accounts already"),
        Wrong::AccountTwice => Words::After(" has this account already"),
        Wrong::AccountWithItself => Words::After(" can't have an account with itself"),
        Wrong::AccountWithoutNode => Words::After(
            " is no node, and neither is the other: an account needs one",
        ),
        Wrong::NoAccount => Words::After(" has no such account"),
        Wrong::DepositsTooLarge => Words::After(
            " is too much: the two together are above 4294967295",
        ),
        Wrong::TermsTwice => Words::After(" stands here a second time"),
        Wrong::TermsLate => Words::After(" can't stand here: the play has begun"),
        Wrong::LookBelowOne => Words::After(" is too little: look is at least 1"),
        Wrong::WindowTooShort => Words::After(
            " is too little: window is at least look + delay + 1",
        ),
        Wrong::GapTooShort => Words::After(
            " is too little: gap is at least window + 3 delay + 3 look",
        ),
        Wrong::TickBefore => Words::After(" is before the tick that the script has come to"),
        Wrong::TickTooLarge => Words::After(" is too far: a script ends by tick 1000000"),
        Wrong::NoTerms => Words::Alone("there is no line with terms"),
        Wrong::TooLong => Words::Alone("more than 1048576 bytes"),
    }
}

// A script, or a line of it.
#[derive(Clone, Copy)]
struct Place<'a> {
    path: &'a str,
    line: Option<u32>,
}

impl fmt::Display for Place<'_> {
    fn fmt<W: fmt::Write>(&self, f: &mut fmt::Formatter<W>) -> fmt::Result {
        let Place { path, line } = *self;
        match line {
            Some(line) => write!(f, "{path}, line {line}"),
            None => write!(f, "{path}"),
        }
    }
}

// Bytes as text, one character each.
fn shown(heap: Global, bytes: &[u8]) -> Result<String, AllocError> {
    let mut text = String::new(heap);
    for b in bytes {
        if b.is_ascii_graphic() {
            text.push(char::from(*b))?;
        } else {
            text.push('?')?;
        }
    }
    Ok(text)
}

// Says file, line and word on standard error.
pub(crate) fn say_fault(
    rt: &HostRuntime,
    path: &str,
    text: &[u8],
    fault: Fault,
) -> anyhow::Result<()> {
    let Fault { line, word, wrong } = fault;
    let place = Place { path, line };
    match words_for(wrong) {
        Words::After(words) => {
            let word = shown(rt.alloc(), word_at(line_at(text, line), word))?;
            eprintln!(rt; "rehearse: {place}: '{word}'{words}")?;
        }
        Words::Alone(words) => eprintln!(rt; "rehearse: {place}: {words}")?,
    }
    Ok(())
}
