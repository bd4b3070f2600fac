// What the register shows, as the node is told it, and when it is told.

// One statement: in an account a dispute shows the sheet with a number, and ends or ended at a tick; or a key was shown
// for an account at a tick.
#[derive(Clone, Copy)]
pub enum Shown {
    Dispute {
        account: u32,
        number: u32,
        until: u32,
    },
    Key {
        account: u32,
        key: [u8; 32],
        tick: u32,
    },
}

// When a look comes: the first since the node's start, in time, or so many ticks too late. Three answers with names: an Option
// of an Option would say less.
#[derive(Clone, Copy, PartialEq, Eq, Debug)]
pub enum Lateness {
    First,
    InTime,
    Late { ticks: u32 },
}
