//! What an equation gives to a metavariable that stands on distinct locals.
ghost use Rattle.std.specs.Prelude.{◌≡◌, ◌<◌, [], ◌∷◌, ◌++◌, ℕ, false, nat_eq, true, IfErr, IfOk, map};
ghost use Rattle.std.specs.Prelude.{if◌then◌else◌};
ghost use Rattle.clf_syntax.specs.Occurs.{occurs};
ghost use Rattle.clf_syntax.specs.Plain.{plain_obj};
ghost use Rattle.clf_syntax.specs.Renamings.{renumbering_by};
ghost use Rattle.clf_syntax.specs.Wide.{IsWant};
ghost use Rattle.pattern_laws.specs.Patterns.{blank, inverse as inverse_of, inverted as inverted_by};
ghost use Rattle.celf_constraints.specs.Reading.{plain_place};

use crate::places::{lambdas, numbered, want_of};
use celf_constraints::{Place, is_blank};
use clf_syntax::{Obj, Renaming, Want};
use std::alloc::{AllocError, Global};

/// The object below the lambdas of the places, where each of the first `count` variables becomes the variable of its
/// place. No other variable may occur.
pub fn inverted(alloc: Global, count: usize, places: &[Place<'_>], obj: &Obj) -> Result<Obj, Want>
    requires within { (v : ℕ) → occurs v (plain_obj obj.now) ≡ true → v < count }
    ensures inverted { IfOk result
        (λ o. plain_obj o ≡ inverted_by count (map plain_place places.now) (plain_obj obj.now)) }
    ensures wanting { IfErr result IsWant }
{
    let names = inverse(alloc, count, places)?;
    match obj.rename(alloc, &names) {
        Ok(body) => Ok(lambdas(alloc, places, body)?),
        Err(fault) => Err(want_of(alloc, fault)),
    }
}

/// What becomes of the first `count` variables: each becomes that of its place.
fn inverse(alloc: Global, count: usize, places: &[Place<'_>]) -> Result<Renaming, Want>
    ensures inverse { IfOk result (λ names. (v : ℕ) → v < count
        → renumbering_by names v ≡ inverse_of count (map plain_place places.now) v) }
    ensures wanting { IfErr result IsWant }
{
    let mut images = Vec::new(alloc);
    for local in 0..count {
        images = with_image(images, numbered(alloc, place_of(local, places))?)?;
    }
    Ok(Renaming { images, rest: 0 })
}

/// One image more.
fn with_image(images: Vec<u32>, image: u32) -> Result<Vec<u32>, AllocError>
    ensures { IfOk result (λ more. more.items ≡ images.items ++ image ∷ []) }
{
    let mut more = images;
    more.push(image)?;
    Ok(more)
}

/// The first place with the local, or how many places there are.
fn place_of(local: usize, places: &[Place<'_>]) -> usize
    ensures { (n : ℕ) → local < n → inverse_of n (map plain_place places.now) local ≡ result }
{
    for number in 0..places.len() {
        if has_local(&places[number], local) {
            return number;
        }
    }
    places.len()
}

/// Whether the local stands at the place, which is not blank.
fn has_local(place: &Place<'_>, local: usize) -> bool
    ensures { result
        ≡ (if blank (plain_place place.now).1 then false else nat_eq (plain_place place.now).2 local) }
{
    if is_blank(place.ty) {
        false
    } else {
        place.local as usize == local
    }
}
