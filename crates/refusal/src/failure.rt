//! Why a call that needs a heap gives nothing.
ghost use Rattle.std.specs.Prelude.{◌≡◌};
ghost use Rattle.refusal.specs.declared.failure.Failure.TheVariants.{Refused, OutOfMemory};

use crate::fault::Refusal;
use std::alloc::AllocError;

/// What was given is refused; or memory ran out, which is no refusal and has no number.
#[derive(Clone, Copy, Debug, PartialEq, Eq)]
pub enum Failure {
    Refused(Refusal),
    OutOfMemory,
}

impl From<Refusal> for Failure {
    ghost from_gives = { λ r f. f ≡ Refused r };

    fn from(refusal: Refusal) -> Failure {
        Failure::Refused(refusal)
    }
}

impl From<AllocError> for Failure {
    ghost from_gives = { λ _ f. f ≡ OutOfMemory };

    fn from(_: AllocError) -> Failure {
        Failure::OutOfMemory
    }
}
