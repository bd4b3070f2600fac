// A record of the file, and what comes of reading one.
use sheet::Sheet;

// What the node has to keep for good, in its own view.
#[derive(Clone, Copy)]
pub enum Record {
    // a sheet that the node has signed
    Signed(Sheet),
    // a sheet that both have signed
    Both(Sheet),
    // a lock that was passed on, from one account to another
    Passed { lock: [u8; 32], from: u8, to: u8 },
    Key([u8; 32]),
}

// A record, and how many bytes it was read from.
#[derive(Clone, Copy)]
pub struct RecordRead {
    pub record: Record,
    pub used: usize,
}

// The record at this place has an unknown first byte, or a count above 32.
#[derive(Clone, Copy, PartialEq, Eq, Debug)]
pub struct Damaged {
    pub at: usize,
}
