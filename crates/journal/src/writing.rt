// Writing records.
ghost use Rattle.std.specs.Prelude.{◌≡◌, ◌++◌};
ghost use Rattle.sheet_bytes.specs.Appends.{Appended};
ghost use Rattle.journal.specs.Records.{first_byte, rest_bytes, record_bytes};
ghost use Rattle.journal.specs.Readings.{record_of};

use crate::types::Record;
use sheet_bytes::push_sheet;
use std::alloc::AllocError;

// Appends some bytes.
fn push_bytes(out: &mut Vec<u8>, bytes: &[u8]) -> Result<(), AllocError>
    ensures { Appended result out.old.items bytes.now out.new.items }
{
    out.extend_from_slice(bytes)?;
    Ok(())
}

// Appends some bytes and then some more.
fn push_two(out: &mut Vec<u8>, bytes: &[u8], more: &[u8]) -> Result<(), AllocError>
    ensures { Appended result out.old.items (bytes.now ++ more.now) out.new.items }
{
    let start = out.len();
    push_bytes(out, bytes)?;
    let pushed = push_bytes(out, more);
    if pushed.is_err() {
        out.truncate(start);
    }
    pushed
}

// The format's number of each kind: a table, since the kinds carry values.
fn first_byte(record: &Record) -> u8
    ensures { result ≡ first_byte (record_of «record».now) }
{
    match record {
        Record::Signed(_) => 4,
        Record::Both(_) => 5,
        Record::Passed { .. } => 6,
        Record::Key(_) => 7,
    }
}

// Appends what comes past the first byte.
fn push_rest(out: &mut Vec<u8>, record: &Record) -> Result<(), AllocError>
    ensures { Appended result out.old.items (rest_bytes (record_of «record».now)) out.new.items }
{
    match record {
        Record::Signed(sheet) | Record::Both(sheet) => push_sheet(out, sheet),
        Record::Passed { lock, from, to } => push_two(out, lock, &[*from, *to]),
        Record::Key(key) => push_bytes(out, key),
    }
}

// Appends the bytes of a record.
pub fn push_record(out: &mut Vec<u8>, record: &Record) -> Result<(), AllocError>
    ensures { Appended result out.old.items (record_bytes (record_of «record».now)) out.new.items }
{
    let start = out.len();
    push_bytes(out, &[first_byte(record)])?;
    let pushed = push_rest(out, record);
    if pushed.is_err() {
        out.truncate(start);
    }
    pushed
}
