// Why a message, a call or a look is turned away. Whoever is turned away is told one number, and nothing has changed.
// Promises: each case has the number that the rules give it (specs/Number.antt). Leans on nothing.
#![tactic(auto)]

ghost use Rattle.std.specs.Prelude.{◌≡◌};
ghost use Rattle.refusal.specs.Number.{number_of};

// The cases, by what is wrong. Where several apply, the one with the lowest number is given.
#[derive(Clone, Copy, PartialEq, Eq, Debug)]
pub enum Refusal {
    // cut short, too long, an unknown first byte, a count above 32, or a line that can't be read
    Unreadable,
    // no such account, or the node signs nothing there now: a dispute was seen, or it hasn't looked since its start
    NotOpen,
    // a next is under way
    UnderWay,
    // not the held sheet with one change, another number than the next's, or nothing that stands on the held sheet
    Mismatch,
    // the lock stands there already, or was passed on
    LockUsed,
    // own, the neighbour's own or the in's amount doesn't cover it, or there are 32 already
    NotCovered,
    // the ends are less than the gap apart, or one is past
    EndTooNear,
    // the key isn't there
    KeyMissing,
    // the key is there, so an in isn't given up
    KeyKnown,
    // an out for it may still come to count
    OutStands,
    // a sum, a number or a tick would pass 4,294,967,295
    TooLarge,
}

impl Refusal {
    // The number that is answered: a table, since two cases share a number.
    pub fn number(self) -> u8
        ensures { result ≡ number_of self }
    {
        match self {
            Refusal::Unreadable => 1,
            Refusal::NotOpen => 2,
            Refusal::UnderWay => 3,
            Refusal::Mismatch => 4,
            Refusal::LockUsed => 5,
            Refusal::NotCovered => 6,
            Refusal::EndTooNear => 7,
            Refusal::KeyMissing | Refusal::KeyKnown => 8,
            Refusal::OutStands => 9,
            Refusal::TooLarge => 10,
        }
    }
}
