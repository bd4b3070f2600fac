// A message line, and a line by its first word.
ghost use Rattle.std.specs.Prelude.{◌≡◌};
ghost use Rattle.std.specs.Option.{option_map};
ghost use Rattle.lines.specs.Lines.{words};
ghost use Rattle.any_request.specs.Faults.{Reads};
ghost use Rattle.any_request.specs.Messages.{told_by};
ghost use Rattle.any_request.specs.Requests.{wish_of, one_told, two_told, told_in, message_of, line_of, request_of, text_of};

use crate::calls::{read_get, read_give, read_pass, read_pay};
use crate::faults::Fault;
use crate::looks::Look;
use crate::messages::{read_message, read_pair};
use crate::types::Request;
use lines::{hex_bytes, next_word, number};
use refusal::Refusal;
use rules::Message;
use std::alloc::Global;

fn told_one(heap: Global, word: &[u8]) -> Result<Message, Fault>
    ensures { Reads told_by result (one_told word.now) }
{
    let bytes = hex_bytes(heap, word)?.ok_or(Refusal::Unreadable)?;
    Ok(read_message(bytes.as_slice())?)
}

fn told_two(heap: Global, sheet: &[u8], signature: &[u8]) -> Result<Message, Fault>
    ensures { Reads told_by result (two_told sheet.now signature.now) }
{
    let sheet = hex_bytes(heap, sheet)?.ok_or(Refusal::Unreadable)?;
    let signature = hex_bytes(heap, signature)?.ok_or(Refusal::Unreadable)?;
    Ok(read_pair(sheet.as_slice(), signature.as_slice())?)
}

// The message of a line, whose first word of hexadecimal digits is this.
fn told_by(heap: Global, word: &[u8], rest: &[u8]) -> Result<Message, Fault>
    ensures { Reads told_by result (told_in word.now (words rest.now)) }
{
    let Some(second) = next_word(rest) else {
        return told_one(heap, word);
    };
    if next_word(second.rest).is_some() {
        return Err(Refusal::Unreadable.into());
    }
    told_two(heap, word, second.text)
}

// I HEX, or I HEX HEX, past its first word.
fn read_told<L: Look>(heap: Global, i: &[u8], line: &[u8]) -> Result<Request<L>, Fault>
    ensures { Reads (wish_of L.seen) result (message_of i.now (words line.now)) }
{
    let word = next_word(line).ok_or(Refusal::Unreadable)?;
    let account = number(i).or(Err(Refusal::Unreadable))?;
    Ok(Request::Message(account, told_by(heap, word.text, word.rest)?))
}

// A line by its first word.
fn read_by<L: Look>(heap: Global, word: &[u8], rest: &[u8]) -> Result<Request<L>, Fault>
    ensures { Reads (wish_of L.seen) result (line_of L.look_of word.now (words rest.now)) }
{
    if word == b"pass".as_slice() {
        Ok(Request::Asked(read_pass(rest)?))
    } else if word == b"pay".as_slice() {
        Ok(Request::Asked(read_pay(rest)?))
    } else if word == b"get".as_slice() {
        Ok(Request::Asked(read_get(rest)?))
    } else if word == b"give".as_slice() {
        Ok(Request::Asked(read_give(rest)?))
    } else if word == b"tick".as_slice() {
        Ok(Request::Look(L::read(heap, rest)??))
    } else {
        read_told(heap, word, rest)
    }
}

// A line without its newline; None where it has none.
fn text_of(line: &[u8]) -> Option<&[u8]>
    ensures { option_map (λ x. x.now) result ≡ text_of line.now }
{
    match line {
        [text @ .., b'\n'] => Some(text),
        _ => None,
    }
}

// A line with its newline.
pub(crate) fn read_line<L: Look>(heap: Global, line: &[u8]) -> Result<Request<L>, Fault>
    ensures { Reads (wish_of L.seen) result (request_of L.look_of line.now) }
{
    let text = text_of(line).ok_or(Refusal::Unreadable)?;
    let first = next_word(text).ok_or(Refusal::Unreadable)?;
    read_by(heap, first.text, first.rest)
}
