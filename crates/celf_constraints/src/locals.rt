//! The locals at the places of a metavariable.
ghost use Rattle.std.specs.Prelude.{◌≡◌, ◌⊎◌, ◌<◌, ◌≤◌, ◌↔◌, ℕ, IfOk, IsTrue, map, length, Option, Some, None};
ghost use Rattle.std.specs.List.{slice_get};
ghost use Rattle.celf_constraints.specs.Ended.{local_of, StandsAt, Apart};
ghost use Rattle.celf_constraints.specs.Reading.{plain_place};

use crate::blank::is_blank;
use crate::places::Place;
use std::alloc::{AllocError, Global};

/// The local of each place, where its type is not blank.
pub fn locals_of(alloc: Global, places: &[Place<'_>]) -> Result<Vec<Option<u32>>, AllocError>
    ensures { IfOk result (λ found. found.items ≡ map (λ p. local_of (plain_place p)) places.now) }
{
    let mut found = Vec::new(alloc);
    for place in places {
        found.push(local_at(place))?;
    }
    Ok(found)
}

fn local_at(place: &Place<'_>) -> Option<u32>
    ensures { result ≡ local_of (plain_place place.now) }
{
    if is_blank(place.ty) {
        None
    } else {
        Some(place.local)
    }
}

/// Whether this is the local.
pub fn is_local(found: Option<u32>, local: u32) -> bool
    ensures { IsTrue result ↔ (found ≡ Some local) }
{
    match found {
        Some(number) => number == local,
        None => false,
    }
}

/// Whether the local stands at one of the first places, of so many.
pub fn stands_before(locals: &[Option<u32>], count: usize, local: u32) -> bool
    requires { count ≤ length locals.now }
    ensures { IsTrue result ↔ ((i : ℕ) × (i < count) × StandsAt locals.now i local) }
{
    for place in 0..count {
        if is_local(locals[place], local) {
            return true;
        }
    }
    false
}

/// Whether no local stands at two places.
pub fn are_distinct(locals: &[Option<u32>]) -> bool
    ensures { IsTrue result ↔ Apart locals.now }
{
    for place in 0..locals.len() {
        if let Some(local) = locals[place] {
            if stands_before(locals, place, local) {
                return false;
            }
        }
    }
    true
}
