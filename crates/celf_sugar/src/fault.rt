//! Faults of what is written, beyond its grammar.
use celf_surface::Span;
use std::alloc::AllocError;

/// Why an item has no plain form. Each span is that of the part at fault.
#[derive(Debug, Drop)]
pub enum SugarFault {
    /// The word `type` stands elsewhere than at the end of a declaration's kind, or that kind has an arrow other than
    /// `->`, `<-` and `Pi`.
    KindPlace(Span),
    /// A synchronous type stands where none may.
    NotAsync(Span),
    /// A lambda, a pair, `<>`, braces or `_` is applied, is projected, or is the right side of a `let`.
    Redex(Span),
    /// A number is outside its range.
    OutOfRange(Span),
    /// The type or kind after `[n]` does not begin with `n` persistent functions or arguments.
    BadImplicit(Span),
    /// Memory ran out.
    NoMemory,
}

impl From<AllocError> for SugarFault {
    ghost use Rattle.std.specs.Prelude.{◌≡◌};
    ghost use Rattle.celf_sugar.specs.declared.fault.SugarFault.TheVariants.{NoMemory};

    ghost from_gives = { λ _ e. e ≡ NoMemory };

    fn from(_error: AllocError) -> SugarFault {
        SugarFault::NoMemory
    }
}
