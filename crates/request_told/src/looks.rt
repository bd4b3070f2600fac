// A look, and the statements of the register in it.
ghost use Rattle.std.specs.Prelude.{◌≡◌, ℕ, List, IfOk, vec_items};
ghost use Rattle.std.specs.Option.{option_map};
ghost use Rattle.lines.specs.Lines.{words, parts, colon};
ghost use Rattle.request_told.specs.Looks.{dispute_read, key_shown_read, parts_show, words_show};
ghost use Rattle.looking.specs.declared.types.Shown.{Shown};
ghost use Rattle.any_request.specs.Looks.{on_look};
ghost use Rattle.request_told.specs.Ticks.{look_seen, tick_of};

use crate::types::TickShown;
use any_request::{Look, read_tick};
use lines::{hex_array, next_part, next_word, number};
use looking::Shown;
use refusal::Refusal;
use std::alloc::{AllocError, Global};

// How many hexadecimal digits a key has.
const KEY_DIGITS: usize = 64;

fn read_dispute(i: &[u8], middle: &[u8], last: &[u8]) -> Option<Shown>
    ensures { result ≡ dispute_read i.now middle.now last.now }
{
    Some(Shown::Dispute {
        account: number(i).ok()?,
        number: number(middle).ok()?,
        until: number(last).ok()?,
    })
}

fn read_shown_key(i: &[u8], middle: &[u8], last: &[u8]) -> Option<Shown>
    ensures { result ≡ key_shown_read i.now middle.now last.now }
{
    let account = number(i).ok()?;
    let key = hex_array::<32>(middle)?;
    let tick = number(last).ok()?;
    Some(Shown::Key { account, key, tick })
}

// A statement: I:NUMBER:UNTIL, or I:KEY:TICK. No number needs as many digits as a key.
fn read_statement(word: &[u8]) -> Option<Shown>
    ensures { result ≡ parts_show (parts colon word.now) }
{
    let i = next_part(word);
    let middle = next_part(i.rest?);
    let last = next_part(middle.rest?);
    if last.rest.is_some() {
        return None;
    }
    if middle.text.len() == KEY_DIGITS {
        read_shown_key(i.text, middle.text, last.text)
    } else {
        read_dispute(i.text, middle.text, last.text)
    }
}

// The statements of a look, one a word; None where a word is none.
fn read_shown(heap: Global, line: &[u8]) -> Result<Option<Vec<Shown>>, AllocError>
    ensures { IfOk result (λ o. option_map vec_items o ≡ words_show (words line.now)) }
{
    let mut shown = Vec::new(heap);
    let mut rest = line;
    // The crate lines hands out one word and what follows it, and pushing may fail: a chain would be no plainer.
    while let Some(word) = next_word(rest) {
        let Some(statement) = read_statement(word.text) else {
            return Ok(None);
        };
        shown.push(statement)?;
        rest = word.rest;
    }
    Ok(Some(shown))
}

// tick T WORD .., past its first word.
fn read_look(heap: Global, line: &[u8]) -> Result<Result<TickShown, Refusal>, AllocError>
    ensures { IfOk result (λ l. on_look look_seen l ≡ tick_of (words line.now)) }
{
    // A refusal is an answer here, beside which only a lack of memory is left to `?`: hence let .. else.
    let Some(word) = next_word(line) else {
        return Ok(Err(Refusal::Unreadable));
    };
    let Some(shown) = read_shown(heap, word.rest)? else {
        return Ok(Err(Refusal::Unreadable));
    };
    Ok(read_tick(word.text).map(|tick| TickShown { tick, shown }))
}

impl Look for TickShown {
    ghost Seen = { ℕ × List Shown };

    ghost seen = { look_seen };

    ghost look_of = { tick_of };

    fn read(heap: Global, line: &[u8]) -> Result<Result<TickShown, Refusal>, AllocError> {
        read_look(heap, line)
    }
}
