// Why a run does not come to its end.
ghost use Rattle.std.specs.Prelude.{◌≡◌};
ghost use Rattle.journal.specs.declared.faults.Fault.TheVariants.{Declined, Memory};

use session::Refusal;
use std::alloc::{AllocError, AllocFailed};

#[derive(Clone, Copy, PartialEq, Eq, Debug)]
pub enum Fault {
    // there is no session of so many nodes
    Declined(Refusal),
    // fewer cells for answers than calls
    ShortAnswers,
    Memory,
}

impl From<Refusal> for Fault {
    ghost from_gives = { λ why r. r ≡ Declined why };

    fn from(why: Refusal) -> Fault {
        Fault::Declined(why)
    }
}

impl From<AllocError> for Fault {
    ghost from_gives = { λ _ r. r ≡ Memory };

    fn from(_e: AllocError) -> Fault {
        Fault::Memory
    }
}

impl<T: Drop> From<AllocFailed<T>> for Fault {
    ghost from_gives = { λ _ r. r ≡ Memory };

    fn from(_e: AllocFailed<T>) -> Fault {
        Fault::Memory
    }
}
