// An account with a neighbour, as the node knows it.
use sheet::Sheet;

// Whether a next is under way: a sheet with the number after held's, signed by the node and perhaps by the neighbour.
// An enum with the sheet beside it, by a rule of the project; `Account::under_way` answers the two as an Option.
#[derive(Clone, Copy, PartialEq, Eq, Debug)]
pub enum Next {
    Nothing,
    Sent,
}

// A sheet of the account that the node has sent to the register and hasn't seen there: its number, and the tick of the
// look at which it was sent.
#[derive(Clone, Copy, PartialEq, Eq, Debug)]
pub struct OnItsWay {
    pub number: u32,
    pub at: u32,
}

// Held is the last sheet that both have signed; the next sheet counts for something only where `next` says so.
// `looked` is the tick of the last look since the node's start; `disputed` says that a dispute was seen there, or that
// the node has sent a sheet off to open one; `sent` is what of its own is on its way there. None of these three is in
// the file. (The field: a channel with its current and its pending commitment, and its watcher's state.)
#[derive(Clone, Copy)]
pub struct Account {
    pub held: Sheet,
    pub next: Next,
    pub next_sheet: Sheet,
    pub looked: Option<u32>,
    pub disputed: bool,
    pub sent: Option<OnItsWay>,
}
