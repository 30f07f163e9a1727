// Why a run of a program broke off.
#![tactic(auto)]

ghost use Rattle.std.specs.Prelude.{◌≡◌};
ghost use Rattle.failure.specs.declared.Failure.TheVariants.{OutOfMemory, Stream};

use std::alloc::{AllocError, AllocFailed};
use std::io;

#[derive(Debug, Drop)]
pub enum Failure {
    OutOfMemory,
    Stream(io::Error),
}

impl From<AllocError> for Failure {
    ghost from_gives = { λ _ r. r ≡ OutOfMemory };

    fn from(_error: AllocError) -> Failure {
        Failure::OutOfMemory
    }
}

impl<T: Drop> From<AllocFailed<T>> for Failure {
    ghost from_gives = { λ _ r. r ≡ OutOfMemory };

    fn from(_error: AllocFailed<T>) -> Failure {
        Failure::OutOfMemory
    }
}

impl From<io::Error> for Failure {
    ghost from_gives = { λ e r. r ≡ Stream e };

    fn from(error: io::Error) -> Failure {
        Failure::Stream(error)
    }
}
