//! Why a substitution has no answer.

use std::alloc::AllocError;

/// Why a substitution has no answer.
#[derive(Clone, Copy, Debug, PartialEq, Eq)]
pub enum PutFault {
    /// What is put is eliminated in a way that does not fit it, or it nests deeper than its type says.
    Untyped,
    /// A number that is written would pass 4,294,967,295.
    TooFar,
    NoMemory,
}

impl From<AllocError> for PutFault {
    ghost use Rattle.std.specs.Prelude.{◌≡◌};
    ghost use Rattle.hered_put.specs.declared.fault.PutFault.TheVariants.{NoMemory};

    ghost from_gives = { λ _ e. e ≡ NoMemory };

    fn from(_error: AllocError) -> PutFault {
        PutFault::NoMemory
    }
}
