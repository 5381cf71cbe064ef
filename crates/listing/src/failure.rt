ghost use Rattle.std.specs.Prelude.{◌≡◌};
ghost use Rattle.listing.specs.declared.failure.Failure.TheVariants.{Refused, OutOfMemory};

use refusal::Refusal;
use std::alloc::AllocError;

// Why there are no places to print.
#[derive(Debug, Drop)]
pub(crate) enum Failure {
    Refused(Refusal),
    OutOfMemory(AllocError),
}

impl From<Refusal> for Failure {
    ghost from_gives = { λ refusal failure. failure ≡ Refused refusal };

    fn from(refusal: Refusal) -> Self {
        Failure::Refused(refusal)
    }
}

impl From<AllocError> for Failure {
    ghost from_gives = { λ error failure. failure ≡ OutOfMemory error };

    fn from(error: AllocError) -> Self {
        Failure::OutOfMemory(error)
    }
}
