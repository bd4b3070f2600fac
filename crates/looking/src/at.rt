// A look at one account.
use crate::types::Shown;

// The account's number, the tick, how many ticks a sheet may be on its way, and what the register shows.
#[derive(Clone, Copy)]
pub(crate) struct LookAt<'a> {
    pub(crate) i: usize,
    pub(crate) tick: u32,
    pub(crate) delay: u32,
    pub(crate) shown: &'a [Shown],
}
