// The bytes of payments and sheets, as messages and the file hold them. Leans on sheet and refusal.
// Promises: bytes are written and read just as specs/Bytes.antt says, and what was written is read back (specs/Theorems.antt).
#![tactic(auto)]

ghost use Rattle.sheet.specs.Contents.{content_of};
ghost use Rattle.sheet_bytes.specs.Theorems.{Good, ReadBack, RoundTrip, OnlyWritten, CutShort};

use sheet::Sheet;

mod numbers;
mod payments;
mod sheets;

pub use numbers::{push_number, read_number};
pub use payments::{push_payment, read_payment};
pub use sheets::{SheetRead, push_sheet, read_sheet, read_sheet_at};

// The theorem that reading gives back what was written, and takes just its bytes.
pub fn round_trip_stands()
    ensures { RoundTrip }
{}

// The theorem that whatever is read was written so.
pub fn only_written_stands()
    ensures { OnlyWritten }
{}

// The theorem that a sheet that is cut short is refused.
pub fn cut_short_stands()
    ensures { CutShort }
{}

// Each sheet that code can hold is good, so that it is read back from its bytes.
pub fn read_back_stands(sheet: Sheet)
    ensures good { Good (content_of sheet) }
    ensures back { ReadBack (content_of sheet) }
{}
