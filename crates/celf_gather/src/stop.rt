//! What ends a walk before its end.
use clf_syntax::Want;
use std::alloc::AllocError;

/// Nothing is gathered of the part; or memory is lacking, or a number past its range.
#[derive(Drop)]
pub enum Stop {
    Misfit,
    Short(Want),
}

impl From<AllocError> for Stop {
    ghost use Rattle.std.specs.Prelude.{◌≡◌};
    ghost use Rattle.clf_syntax.specs.declared.fault.Want.TheVariants.{NoMemory};
    ghost use Rattle.celf_gather.specs.declared.stop.Stop.TheVariants.{Short};

    ghost from_gives = { λ _ e. e ≡ Short NoMemory };

    fn from(_error: AllocError) -> Stop {
        Stop::Short(Want::NoMemory)
    }
}
