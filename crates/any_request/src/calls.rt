// The owner's calls.
ghost use Rattle.std.specs.Prelude.{◌≡◌};
ghost use Rattle.lines.specs.Lines.{words, number_read};
ghost use Rattle.rules.specs.declared.types.Call.TheVariants.{Pay, Get};
ghost use Rattle.any_request.specs.Requests.{plain, pass_call, pass_of, place_read, place_of, place_call, give_of};

use crate::types::Place;
use lines::{hex_array, next_word, number};
use refusal::Refusal;
use rules::Call;
use sheet::Payment;

// A number, refused as unreadable whatever is wrong with it.
fn plain_number(word: &[u8]) -> Result<u32, Refusal>
    ensures { result ≡ plain (number_read word.now) }
{
    number(word).map_err(|_| Refusal::Unreadable)
}

fn pass_call(i: &[u8], j: &[u8], lock: &[u8], amount: &[u8], last: &[u8]) -> Result<Call, Refusal>
    ensures { result ≡ pass_call i.now j.now lock.now amount.now last.now }
{
    let from = plain_number(i)?;
    let to = plain_number(j)?;
    let lock = hex_array::<32>(lock).ok_or(Refusal::Unreadable)?;
    let amount = plain_number(amount)?;
    let end = plain_number(last)?;
    let payment = Payment { lock, amount, end };
    Ok(Call::Pass { from, to, payment })
}

// pass I J LOCK AMOUNT END, past its first word.
pub(crate) fn read_pass(line: &[u8]) -> Result<Call, Refusal>
    ensures { result ≡ pass_of (words line.now) }
{
    let i = next_word(line).ok_or(Refusal::Unreadable)?;
    let j = next_word(i.rest).ok_or(Refusal::Unreadable)?;
    let lock = next_word(j.rest).ok_or(Refusal::Unreadable)?;
    let amount = next_word(lock.rest).ok_or(Refusal::Unreadable)?;
    let last = next_word(amount.rest).ok_or(Refusal::Unreadable)?;
    if next_word(last.rest).is_some() {
        return Err(Refusal::Unreadable);
    }
    pass_call(i.text, j.text, lock.text, amount.text, last.text)
}

fn place_of(i: &[u8], lock: &[u8]) -> Result<Place, Refusal>
    ensures { result ≡ place_read i.now lock.now }
{
    let account = plain_number(i)?;
    let lock = hex_array::<32>(lock).ok_or(Refusal::Unreadable)?;
    Ok(Place { account, lock })
}

// I LOCK, past the name of a call.
fn read_place(line: &[u8]) -> Result<Place, Refusal>
    ensures { result ≡ place_of (words line.now) }
{
    let i = next_word(line).ok_or(Refusal::Unreadable)?;
    let lock = next_word(i.rest).ok_or(Refusal::Unreadable)?;
    if next_word(lock.rest).is_some() {
        return Err(Refusal::Unreadable);
    }
    place_of(i.text, lock.text)
}

pub(crate) fn read_pay(line: &[u8]) -> Result<Call, Refusal>
    ensures { result ≡ place_call Pay (place_of (words line.now)) }
{
    let Place { account, lock } = read_place(line)?;
    Ok(Call::Pay { account, lock })
}

// Two lines as read_pay has, since the kinds of a call have names and no common maker.
pub(crate) fn read_get(line: &[u8]) -> Result<Call, Refusal>
    ensures { result ≡ place_call Get (place_of (words line.now)) }
{
    let Place { account, lock } = read_place(line)?;
    Ok(Call::Get { account, lock })
}

// give up I LOCK, past its first word.
pub(crate) fn read_give(line: &[u8]) -> Result<Call, Refusal>
    ensures { result ≡ give_of (words line.now) }
{
    let up = next_word(line).ok_or(Refusal::Unreadable)?;
    if up.text == b"up".as_slice() {
        let Place { account, lock } = read_place(up.rest)?;
        Ok(Call::GiveUp { account, lock })
    } else {
        Err(Refusal::Unreadable)
    }
}
