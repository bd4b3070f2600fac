// Why a line is not read.
ghost use Rattle.std.specs.Prelude.{◌≡◌};
ghost use Rattle.any_request.specs.declared.faults.Fault.TheVariants.{Refused, NoMemory};

use refusal::Refusal;
use std::alloc::AllocError;

// A refusal is an answer, and a lack of memory is none: both are told by `?` while a line is read, and apart at its end.
#[derive(Drop)]
pub enum Fault {
    Refused(Refusal),
    NoMemory(AllocError),
}

impl From<Refusal> for Fault {
    ghost from_gives = { λ refusal fault. fault ≡ Refused refusal };

    fn from(refusal: Refusal) -> Fault {
        Fault::Refused(refusal)
    }
}

impl From<AllocError> for Fault {
    ghost from_gives = { λ error fault. fault ≡ NoMemory error };

    fn from(error: AllocError) -> Fault {
        Fault::NoMemory(error)
    }
}
