// Sheets as bytes: account (1), number (4), own (4), theirs (4), how many ins (1), these (40 each), how many outs (1),
// these (40 each).
ghost use Rattle.std.specs.Prelude.{◌≡◌, ◌+◌, ◌-◌, ◌*◌, ◌<◌, ◌≤◌, ◌++◌, length, drop, IfOk};
ghost use Rattle.sheet.specs.Contents.{content_of};
ghost use Rattle.sheet_bytes.specs.Appends.{Appended, Room, Put};
ghost use Rattle.sheet_bytes.specs.Bytes.{head_bytes, sheet_bytes, counts_read, sheet_read};
ghost use Rattle.sheet_bytes.specs.Sheets.{contents};

use crate::numbers::{number_at, put_bytes, put_number, rest_from};
use crate::payments::{payments_at, put_list};
use refusal::Refusal;
use sheet::{Payment, Sheet};
use std::alloc::AllocError;

// A sheet, and how many bytes it was read from.
#[derive(Clone, Copy)]
pub struct SheetRead {
    pub sheet: Sheet,
    pub used: usize,
}

// Appends what comes before the ins.
fn put_head(out: &mut Vec<u8>, sheet: &Sheet)
    requires { Room out.old 13 }
    ensures { Put out.old out.new (head_bytes (content_of sheet.now)) 13 }
{
    put_bytes(out, &[sheet.account]);
    put_number(out, sheet.number);
    put_number(out, sheet.own);
    put_number(out, sheet.theirs);
}

// Appends the bytes of a sheet, for which there is room.
fn put_sheet(out: &mut Vec<u8>, sheet: &Sheet)
    requires { Room out.old (15 + 40 * length (content_of sheet.now).ins + 40 * length (content_of sheet.now).outs) }
    ensures { out.new.items ≡ out.old.items ++ sheet_bytes (content_of sheet.now) }
{
    put_head(out, sheet);
    put_list(out, sheet.ins());
    put_list(out, sheet.outs());
}

// Appends the bytes of a sheet.
pub fn push_sheet(out: &mut Vec<u8>, sheet: &Sheet) -> Result<(), AllocError>
    ensures { Appended result out.old.items (sheet_bytes (content_of sheet.now)) out.new.items }
{
    out.reserve(15 + 40 * sheet.ins().len() + 40 * sheet.outs().len())?;
    put_sheet(out, sheet);
    Ok(())
}

// How many ins and outs the bytes of a sheet say that it has; None where they don't begin with a whole sheet.
fn counts(bytes: &[u8]) -> Option<(usize, usize)>
    ensures { result ≡ counts_read bytes.now }
{
    if bytes.len() < 14 {
        return None;
    }
    let ins = bytes[13] as usize;
    if ins > 32 || bytes.len() < 15 + 40 * ins {
        return None;
    }
    let outs = bytes[14 + 40 * ins] as usize;
    if outs > 32 || bytes.len() < 15 + 40 * ins + 40 * outs {
        return None;
    }
    Some((ins, outs))
}

// Reads a sheet from the first bytes; refused where it is cut short or a count is above 32.
pub fn read_sheet(bytes: &[u8]) -> Result<SheetRead, Refusal>
    ensures value { contents result ≡ sheet_read bytes.now }
    ensures within { IfOk result (λ got. got.used ≤ length bytes.now) }
    ensures some { IfOk result (λ got. 0 < got.used) }
{
    let (in_count, out_count) = counts(bytes).ok_or(Refusal::Unreadable)?;
    let number = number_at(bytes, 1);
    let (own, theirs) = (number_at(bytes, 5), number_at(bytes, 9));
    let mut ins = [Payment::default(); 32];
    payments_at(bytes, 14, in_count, &mut ins);
    let mut outs = [Payment::default(); 32];
    payments_at(bytes, 15 + 40 * in_count, out_count, &mut outs);
    let (ins, outs) = (&ins[..in_count], &outs[..out_count]);
    let sheet = Sheet::from_parts(bytes[0], number, own, theirs, ins, outs).ok_or(
        Refusal::Unreadable,
    )?;
    let used = 15 + 40 * in_count + 40 * out_count;
    Ok(SheetRead { sheet, used })
}

// Reads a sheet from a place on.
pub fn read_sheet_at(bytes: &[u8], at: usize) -> Result<SheetRead, Refusal>
    ensures value { contents result ≡ sheet_read (drop at bytes.now) }
    ensures within { IfOk result (λ got. at + got.used ≤ length bytes.now) }
    ensures some { IfOk result (λ got. 0 < got.used) }
{
    read_sheet(rest_from(bytes, at))
}
