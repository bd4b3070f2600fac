// What is wrong, from the faults of others, and in words.
ghost use Rattle.std.specs.Prelude.{◌≡◌};
ghost use Rattle.terms.specs.Reading.{faulty, faulted, missing};

use crate::types::{Fault, Wrong};
use lines::NumberFault;
use std::fmt;

impl From<NumberFault> for Wrong {
    ghost from_gives = { λ e r. r ≡ faulty e };

    fn from(fault: NumberFault) -> Wrong {
        match fault {
            NumberFault::NotANumber => Wrong::NotUnderstood,
            NumberFault::TooLarge => Wrong::NumberTooLarge,
        }
    }
}

impl Fault {
    pub(crate) fn at(line: usize, wrong: Wrong) -> Fault
        ensures { result ≡ faulted line wrong }
    {
        Fault {
            line: Some(line),
            wrong,
        }
    }

    // What is missing stands in no line.
    pub(crate) fn missing(wrong: Wrong) -> Fault
        ensures { result ≡ missing wrong }
    {
        Fault { line: None, wrong }
    }
}

impl fmt::Display for Wrong {
    fn fmt<W: fmt::Write>(&self, f: &mut fmt::Formatter<W>) -> fmt::Result {
        f.write_str(match self {
            Wrong::TooLong => "more than 1048576 bytes",
            Wrong::NotUnderstood => "not understood",
            Wrong::NumberTooLarge => "a number above 4294967295",
            Wrong::Twice => "a second line with this word",
            Wrong::TooManyAccounts => "more than 16 accounts",
            Wrong::DepositsTooLarge => "the deposits together are above 4294967295",
            Wrong::NoGap => "no line with gap",
            Wrong::NoWindow => "no line with window",
            Wrong::NoDelay => "no line with delay",
            Wrong::NoLook => "no line with look",
            Wrong::NoAccount => "no line with account",
            Wrong::LookBelowOne => "look is below 1",
            Wrong::WindowTooShort => "window is below look + delay + 1",
            Wrong::GapTooShort => "gap is below window + 3 delay + 3 look",
        })
    }
}
