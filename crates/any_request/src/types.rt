// What a line asks for.
use rules::{Call, Message as Told};

// A message comes from the neighbour of an account; a key is taken whatever account it names.
#[derive(Clone, Copy, Drop)]
pub enum Request<L> {
    Message(u32, Told),
    Asked(Call),
    Look(L),
}

// An account and a lock, as three of the calls have them.
#[derive(Clone, Copy)]
pub struct Place {
    pub account: u32,
    pub lock: [u8; 32],
}
