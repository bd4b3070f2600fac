// What one line says.
ghost use Rattle.std.specs.Prelude.{◌≡◌};
ghost use Rattle.lines.specs.Lines.{words};
ghost use Rattle.terms.specs.Reading.{named, numbered, funded, words_say, line_says};

use crate::types::{Deposits, Entry, Wrong};
use lines::{NumberFault, next_word, number, part_at};

fn entry_named(word: &[u8], n: u32) -> Result<Entry, Wrong>
    ensures { result ≡ named word.now n }
{
    // a match on the words proves all but window: the search ends before its six bytes do
    if word == b"gap".as_slice() {
        Ok(Entry::Gap(n))
    } else if word == b"window".as_slice() {
        Ok(Entry::Window(n))
    } else if word == b"delay".as_slice() {
        Ok(Entry::Delay(n))
    } else if word == b"look".as_slice() {
        Ok(Entry::Look(n))
    } else {
        Err(Wrong::NotUnderstood)
    }
}

// A word and a number.
fn number_entry(word: &[u8], digits: &[u8]) -> Result<Entry, Wrong>
    ensures { result ≡ numbered word.now digits.now }
{
    entry_named(word, number(digits)?)
}

// The two deposits of an account.
fn account_entry(own: &[u8], theirs: &[u8]) -> Result<Entry, Wrong>
    ensures { result ≡ funded own.now theirs.now }
{
    match (number(own), number(theirs)) {
        (Ok(own), Ok(theirs)) => Ok(Entry::Account(Deposits { own, theirs })),
        (Err(NumberFault::NotANumber), _) | (_, Err(NumberFault::NotANumber)) => {
            Err(Wrong::NotUnderstood)
        }
        _ => Err(Wrong::NumberTooLarge),
    }
}

// What a line says, without its comment.
fn words_entry(line: &[u8]) -> Result<Entry, Wrong>
    ensures { result ≡ words_say (words line.now) }
{
    let Some(word) = next_word(line) else {
        return Ok(Entry::Nothing);
    };
    let first = next_word(word.rest).ok_or(Wrong::NotUnderstood)?;
    let Some(second) = next_word(first.rest) else {
        return number_entry(word.text, first.text);
    };
    if next_word(second.rest).is_some() || word.text != b"account".as_slice() {
        return Err(Wrong::NotUnderstood);
    }
    account_entry(first.text, second.text)
}

// What a line says. A comment begins at a #.
pub(crate) fn entry_of(line: &[u8]) -> Result<Entry, Wrong>
    ensures { result ≡ line_says line.now }
{
    words_entry(part_at(line, b'#').text)
}
