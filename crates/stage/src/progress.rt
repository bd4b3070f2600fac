// How far a rehearsal is.
use crate::types::{Event, Happening, Letter, Trouble};
use rules::Message;
use std::alloc::Global;
use std::collections::VecDeque;

// A message of a node that goes to another node, for the account of the two.
#[derive(Clone, Copy)]
pub(crate) struct Delivery {
    pub(crate) from: usize,
    pub(crate) to: usize,
    pub(crate) letter: Letter,
    pub(crate) message: Message,
}

// The tick and the line of the script that it has come to, what has happened, and the messages between nodes that are to
// be delivered.
#[derive(Drop)]
pub(crate) struct Progress {
    pub(crate) tick: u32,
    pub(crate) line: Option<u32>,
    pub(crate) events: Vec<Event>,
    pub(crate) deliveries: VecDeque<Delivery>,
}

impl Progress {
    pub(crate) fn new(heap: Global) -> Progress {
        Progress {
            tick: 0,
            line: None,
            events: Vec::new(heap),
            deliveries: VecDeque::new(heap),
        }
    }

    pub(crate) fn note(&mut self, what: Happening) -> Result<(), Trouble> {
        self.events.push(Event {
            tick: self.tick,
            line: self.line,
            what,
        })?;
        Ok(())
    }
}
