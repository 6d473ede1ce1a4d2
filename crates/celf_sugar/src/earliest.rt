//! The earliest fault.
ghost use Rattle.std.specs.Prelude.{◌≡◌};
ghost use Rattle.celf_sugar.specs.Earliest.{sooner as sooner_of};
ghost use Rattle.celf_sugar.specs.Faults.{start};

use celf_surface::Span;

/// Of two spans the one that begins earlier, and the first where they begin at one byte.
pub fn sooner(first: Option<Span>, other: Option<Span>) -> Option<Span>
    ensures { result ≡ sooner_of start first other }
{
    match (first, other) {
        (None, other) => other,
        (Some(first), None) => Some(first),
        (Some(first), Some(other)) => {
            if other.start < first.start {
                Some(other)
            } else {
                Some(first)
            }
        }
    }
}
