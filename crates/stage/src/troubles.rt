// What other crates call a fault is trouble here.
ghost use Rattle.std.specs.Prelude.{Some};
ghost use Rattle.stage.specs.Troubles.{trouble_text};

use crate::types::Trouble;
use outcome::Fault;
use replay::StartFault;
use std::alloc::{AllocError, AllocFailed};
use std::error::Error;
use std::fmt;

impl fmt::Display for Trouble {
    ghost output = { λ trouble. Some (trouble_text trouble) };

    fn fmt<W: fmt::Write>(&self, f: &mut fmt::Formatter<W>) -> fmt::Result {
        match *self {
            Trouble::Memory => write!(f, "out of memory"),
            Trouble::Failed => write!(f, "an act failed"),
            Trouble::Damaged => write!(f, "a node could not be started from its records"),
        }
    }
}

impl Error for Trouble {}

impl From<AllocError> for Trouble {
    fn from(_error: AllocError) -> Trouble {
        Trouble::Memory
    }
}

impl<T: Drop> From<AllocFailed<T>> for Trouble {
    fn from(_error: AllocFailed<T>) -> Trouble {
        Trouble::Memory
    }
}

impl From<Fault> for Trouble {
    fn from(fault: Fault) -> Trouble {
        match fault {
            Fault::Memory => Trouble::Memory,
            Fault::Failed => Trouble::Failed,
        }
    }
}

impl From<StartFault> for Trouble {
    fn from(fault: StartFault) -> Trouble {
        match fault {
            StartFault::Memory => Trouble::Memory,
            StartFault::Damaged { .. } => Trouble::Damaged,
        }
    }
}
