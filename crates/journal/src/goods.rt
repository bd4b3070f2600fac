// Why each record that code can hold is good: its sheet is, its bytes are bytes.
ghost use Rattle.std.specs.Prelude.{◌≡◌, length};
ghost use Rattle.sheet_bytes.specs.Theorems.{AreBytes};
ghost use Rattle.journal.specs.Readings.{record_of};
ghost use Rattle.journal.specs.Theorems.{GoodRecord};

use crate::types::Record;
use sheet_bytes::read_back_stands;

fn bytes_good(bytes: [u8; 32])
    ensures long { length bytes ≡ 32 }
    ensures all { AreBytes bytes }
{}

pub(crate) fn record_good(held: Record)
    ensures { GoodRecord (record_of held) }
{
    match held {
        Record::Signed(sheet) => read_back_stands(sheet),
        Record::Both(sheet) => read_back_stands(sheet),
        Record::Passed { lock, .. } => bytes_good(lock),
        Record::Key(key) => bytes_good(key),
    }
}
