// What the register has of one account.
use sheet::Sheet;

// `Disputed`: the dispute shows the sheet, and is open at ticks before `until`. `Ended`: the sheet counts, for good.
// `until` is a tick and a window together, so it may lie above a u32.
#[derive(Clone, Copy)]
pub enum Phase {
    Quiet,
    Disputed { sheet: Sheet, until: u64 },
    Ended { sheet: Sheet, until: u64 },
}

// A key, and the tick at which it was first shown.
#[derive(Clone, Copy)]
pub struct KeyAt {
    pub key: [u8; 32],
    pub tick: u32,
}

// The account's dispute, and the keys shown for it, in the order in which they came.
#[derive(Drop)]
pub struct Page {
    pub(crate) phase: Phase,
    pub(crate) keys: Vec<KeyAt>,
}
