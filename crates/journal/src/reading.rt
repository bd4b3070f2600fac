// Reading records: one at a place, and how far the whole ones reach.
ghost use Rattle.std.specs.Prelude.{◌≡◌, ◌+◌, ◌-◌, ◌<◌, ◌≤◌, ◌==◌, false, length, drop, if◌then◌else◌, IfErr, MatchResult, slice_index, Ok};
ghost use Rattle.journal.specs.Records.{signed_record, both_record, overfull, sheet_after, passed_after, key_after, record_read, whole_part};
ghost use Rattle.journal.specs.Readings.{outcome, Uses, reach};

use crate::types::{Damaged, Record, RecordRead};
use sheet_bytes::read_sheet;

// The byte at a place, 0 where there is none.
fn byte_at(bytes: &[u8], at: usize) -> usize
    ensures value { result ≡ slice_index bytes.now at }
    ensures byte { result < 256 }
{
    usize::from(bytes.get(at).copied().unwrap_or(0))
}

// Is one of a sheet's counts there and above 32?
fn is_overfull(rest: &[u8]) -> bool
    ensures { result ≡ overfull rest.now }
{
    let ins = byte_at(rest, 13);
    ins > 32 || byte_at(rest, 14 + 40 * ins) > 32
}

// Reads a record with a lock passed on, past its first byte.
fn read_passed_after(rest: &[u8]) -> Option<RecordRead>
    ensures value { outcome (Ok result) ≡ passed_after rest.now }
    ensures within { Uses (Ok result) (λ n. n ≤ 1 + length rest.now) }
    ensures some { Uses (Ok result) (λ n. 0 < n) }
{
    let lock = *rest.first_chunk()?;
    let (from, to) = (*rest.get(32)?, *rest.get(33)?);
    Some(RecordRead {
        record: Record::Passed { lock, from, to },
        used: 35,
    })
}

// Reads a record with a key, past its first byte.
fn read_key_after(rest: &[u8]) -> Option<RecordRead>
    ensures value { outcome (Ok result) ≡ key_after rest.now }
    ensures within { Uses (Ok result) (λ n. n ≤ 1 + length rest.now) }
    ensures some { Uses (Ok result) (λ n. 0 < n) }
{
    let key = *rest.first_chunk()?;
    Some(RecordRead {
        record: Record::Key(key),
        used: 33,
    })
}

// Reads a record with a sheet, past its first byte, which says who has signed it. Apart from the others, since a function pays
// on each call for the size of what it has room for, and a sheet is large.
fn read_sheet_after(first: u8, rest: &[u8]) -> Option<RecordRead>
    requires { overfull rest.now ≡ false }
    ensures value { outcome (Ok result) ≡ sheet_after (if first == 4 then signed_record else both_record) rest.now }
    ensures within { Uses (Ok result) (λ n. n ≤ 1 + length rest.now) }
    ensures some { Uses (Ok result) (λ n. 0 < n) }
{
    let got = read_sheet(rest).ok()?;
    let record = if first == 4 {
        Record::Signed(got.sheet)
    } else {
        Record::Both(got.sheet)
    };
    Some(RecordRead {
        record,
        used: 1 + got.used,
    })
}

// Reads the record at a place; None where the bytes end inside it, or none is left.
pub fn read_record(bytes: &[u8], at: usize) -> Result<Option<RecordRead>, Damaged>
    ensures value { outcome result ≡ record_read (drop at bytes.now) }
    ensures within { Uses result (λ n. at + n ≤ length bytes.now) }
    ensures some { Uses result (λ n. 0 < n) }
    ensures place { IfErr result (λ e. e.at ≡ at) }
{
    let Some([first, rest @ ..]) = bytes.get(at..) else {
        return Ok(None);
    };
    let read = match *first {
        4 | 5 if is_overfull(rest) => return Err(Damaged { at }),
        4 | 5 => read_sheet_after(*first, rest),
        6 => read_passed_after(rest),
        7 => read_key_after(rest),
        _ => return Err(Damaged { at }),
    };
    Ok(read)
}

// How many bytes the whole records from the start take: where the file is cut back to.
pub fn whole_part(bytes: &[u8]) -> Result<usize, Damaged>
    ensures value { reach result ≡ whole_part bytes.now }
    ensures within { MatchResult result (λ n. n ≤ length bytes.now) (λ e. e.at ≤ length bytes.now) }
{
    let mut at = 0;
    // Each record says where the next begins, and one may be damaged: an iterator would want the place as well.
    while let Some(got) = read_record(bytes, at)? {
        at += got.used;
    }
    Ok(at)
}
