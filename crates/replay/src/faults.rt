// A lack of memory is a fault, and so is a damaged record.
ghost use Rattle.std.specs.Prelude.{◌≡◌};
ghost use Rattle.replay.specs.declared.types.StartFault.TheVariants.{Memory, Damaged};

use crate::types::StartFault;
use journal::Damaged;
use std::alloc::AllocError;

impl From<AllocError> for StartFault {
    ghost from_gives = { λ _ r. r ≡ Memory };

    fn from(_error: AllocError) -> StartFault {
        StartFault::Memory
    }
}

impl From<Damaged> for StartFault {
    ghost from_gives = { λ e r. r ≡ Damaged e.at };

    fn from(damaged: Damaged) -> StartFault {
        StartFault::Damaged { at: damaged.at }
    }
}
