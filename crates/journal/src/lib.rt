// The records of a node's file: how they are written, and how they are read back.
// Promises: the writer appends, and the reader reads, just the bytes of specs/Records.antt; wherever the file is cut,
// its whole records are read back (specs/Theorems.antt). Leans on sheet, sheet_bytes and refusal.
#![tactic(auto)]

ghost use Rattle.journal.specs.Readings.{record_of};
ghost use Rattle.journal.specs.Theorems.{GoodRecord, ReadBack, OneBack, OneWritten, OnlyWritten};

use crate::goods::record_good;

mod goods;
mod reading;
mod types;
mod writing;

pub use reading::{read_record, whole_part};
pub use types::{Damaged, Record, RecordRead};
pub use writing::push_record;

// The theorem that, wherever the file is cut, the records that lie whole before the cut are read back.
pub fn read_back_stands()
    ensures { ReadBack }
{}

// The theorem that whatever is read was written so, of one record and of the file.
pub fn only_written_stands()
    ensures one { OneWritten }
    ensures all { OnlyWritten }
{}

// Each record that code can hold is good, so that it is read back from its bytes, whatever follows them.
pub fn record_back_stands(held: Record)
    ensures good { GoodRecord (record_of held) }
    ensures back { OneBack (record_of held) }
{
    record_good(held);
}
