//! Numbers and their ranges.
ghost use Rattle.std.specs.Prelude.{◌≡◌, ◌-◌, ◌^◌, min, ℕ};
ghost use Rattle.celf_surface.specs.Surface.{WrittenType};
ghost use Rattle.celf_sugar.specs.Earliest.{earliest};
ghost use Rattle.celf_sugar.specs.Faults.{start, outside as outside_of, leading as leading_of, too_many as too_many_of, implicit_outside as implicit_outside_of};
ghost use Rattle.celf_sugar.specs.Sugar.{number as number_of, implicit as implicit_of, reading};

use crate::limits::MOST_IMPLICIT;
use celf_surface::{Bound, Span};

/// The span of a number below `low` or above `high`.
pub fn outside(low: u64, high: u64, bound: Bound) -> Option<Span>
    ensures { result ≡ earliest start (outside_of low high bound) }
{
    match bound {
        Bound::Number { value, span } => {
            if low <= value && value <= high {
                None
            } else {
                Some(span)
            }
        }
        Bound::Star => None,
    }
}

/// The span of a number of implicit arguments past `MOST_IMPLICIT`.
pub fn implicit_outside(implicit: Option<Bound>) -> Option<Span>
    ensures { result ≡ earliest start (implicit_outside_of implicit) }
{
    match implicit {
        None => None,
        Some(bound) => outside(0, MOST_IMPLICIT, bound),
    }
}

/// The span of a number of implicit arguments greater than `leading`, the number of persistent functions or arguments
/// that the type or kind begins with.
pub fn too_many(implicit: Option<Bound>, leading: u64) -> Option<Span>
    ensures { (t : WrittenType) → min (leading_of (reading t).as_type) (2 ^ 64 - 1) ≡ leading
        → result ≡ earliest start (too_many_of implicit t) }
{
    match implicit {
        None | Some(Bound::Star) => None,
        Some(Bound::Number { value, span }) => { if value <= leading { None } else { Some(span) } }
    }
}

/// The value of a number, 4,294,967,295 where it is greater, and `None` for `*`.
pub fn number(bound: Bound) -> Option<u32>
    ensures { result ≡ number_of bound }
{
    match bound {
        Bound::Number { value, span: _ } => Some(capped(value)),
        Bound::Star => None,
    }
}

/// The number of implicit arguments, 0 where none is written.
pub fn implicit_count(implicit: Option<Bound>) -> u32
    ensures { result ≡ implicit_of implicit }
{
    match implicit {
        None | Some(Bound::Star) => 0,
        Some(Bound::Number { value, span: _ }) => capped(value),
    }
}

fn capped(value: u64) -> u32
    ensures { result ≡ min value (2 ^ 32 - 1) }
{
    if value < 4_294_967_295 {
        value as u32
    } else {
        4_294_967_295
    }
}
