// What acts look like on lines.
use lines::{push_hex, push_number};
use refusal::Refusal;
use sheet::Sheet;
use sheet_bytes::push_sheet;
use std::alloc::{AllocError, Global};

// The first bytes of messages: a sheet that is proposed, and a signature.
const PROPOSED: u8 = 1;

const SIGNED: u8 = 2;

// `send I` and the like.
fn push_head(out: &mut Vec<u8>, word: &[u8], account: usize) -> Result<(), AllocError> {
    out.extend_from_slice(word)?;
    out.push(b' ')?;
    if let Ok(account) = u32::try_from(account) {
        push_number(out, account)?;
    }
    out.push(b' ')?;
    Ok(())
}

// The message with a sheet, or the sheet alone where there is no first byte. `out` grows from `heap`, and the message is made
// apart: both are given, here and below.
fn push_sheet_hex(
    out: &mut Vec<u8>,
    heap: Global,
    first: &[u8],
    sheet: &Sheet,
) -> Result<(), AllocError> {
    let mut bytes = first.to_vec(heap)?;
    push_sheet(&mut bytes, sheet)?;
    push_hex(out, bytes.as_slice())
}

// The message with the node's own signature, in its own number for the account.
fn push_signature_hex(out: &mut Vec<u8>, account: usize, number: u32) -> Result<(), AllocError> {
    let [a, b, c, d] = number.to_be_bytes();
    push_hex(out, &[SIGNED, (account & 0xff) as u8, a, b, c, d])
}

// A sheet of the node's own and its signature under it, as one line.
pub(crate) fn push_send(
    out: &mut Vec<u8>,
    heap: Global,
    account: usize,
    sheet: &Sheet,
) -> Result<(), AllocError> {
    push_head(out, b"send", account)?;
    push_sheet_hex(out, heap, &[PROPOSED], sheet)?;
    out.push(b' ')?;
    push_signature_hex(out, account, sheet.number)?;
    out.push(b'\n')?;
    Ok(())
}

// The signature alone.
pub(crate) fn push_signature(
    out: &mut Vec<u8>,
    account: usize,
    number: u32,
) -> Result<(), AllocError> {
    push_head(out, b"send", account)?;
    push_signature_hex(out, account, number)?;
    out.push(b'\n')?;
    Ok(())
}

// A sheet for the register.
pub(crate) fn push_show(
    out: &mut Vec<u8>,
    heap: Global,
    account: usize,
    sheet: &Sheet,
) -> Result<(), AllocError> {
    push_head(out, b"show", account)?;
    push_sheet_hex(out, heap, &[], sheet)?;
    out.push(b'\n')?;
    Ok(())
}

// A key for the register.
pub(crate) fn push_key(
    out: &mut Vec<u8>,
    account: usize,
    key: &[u8; 32],
) -> Result<(), AllocError> {
    push_head(out, b"key", account)?;
    push_hex(out, key)?;
    out.push(b'\n')?;
    Ok(())
}

// The last line of an answer.
pub(crate) fn push_answer(
    out: &mut Vec<u8>,
    answer: Result<(), Refusal>,
) -> Result<(), AllocError> {
    match answer {
        Ok(()) => out.extend_from_slice(b"ok\n"),
        Err(refusal) => {
            out.extend_from_slice(b"no ")?;
            push_number(out, u32::from(refusal.number()))?;
            out.extend_from_slice(b"\n")
        }
    }
}
