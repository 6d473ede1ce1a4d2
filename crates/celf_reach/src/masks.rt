//! Which places of a metavariable are kept.
ghost use Rattle.std.specs.Prelude.{◌≡◌, IfOk, map, not};
ghost use Rattle.std.specs.List.{list_any};
ghost use Rattle.std.specs.Option.{option_map};
ghost use Rattle.celf_constraints.specs.Reading.{plain_place, plain_places};
ghost use Rattle.reach_walk.specs.Marks.{MarksForeign};
ghost use Rattle.celf_reach.specs.Masks.{is_kept as is_kept_of, has_local as has_local_of, PrunesTo};
ghost use Rattle.celf_reach.specs.Scanned.{plain_prune};

use crate::found::Prune;
use crate::marks::is_marked;
use celf_constraints::{Place, Places, is_blank};
use clf_syntax::Head;
use std::alloc::{AllocError, Global};

/// Whether the place is blank, or its local is not marked, under so many binders.
fn is_kept(marks: &[bool], depth: u64, place: &Place<'_>) -> bool
    ensures { result ≡ is_kept_of marks.now depth (plain_place place.now) }
{
    if is_blank(place.ty) {
        return true;
    }
    !is_marked(marks, depth, Head::Var(place.local))
}

/// For each place whether it is kept.
fn mask_of(
    alloc: Global,
    marks: &[bool],
    depth: u64,
    places: &[Place<'_>],
) -> Result<Vec<bool>, AllocError>
    ensures { IfOk result (λ mask. mask.items ≡ map (λ p. is_kept_of marks.now depth (plain_place p)) places.now) }
{
    let mut mask = Vec::new(alloc);
    for place in places {
        mask.push(is_kept(marks, depth, place))?;
    }
    Ok(mask)
}

/// Whether the mask leaves out a place.
fn leaves_one(mask: &[bool]) -> bool
    ensures { result ≡ list_any not mask.now }
{
    for kept in mask {
        if !*kept {
            return true;
        }
    }
    false
}

/// The metavariable with the places that are not marked, if one is.
pub fn prune_of(
    alloc: Global,
    marks: &[bool],
    depth: u64,
    places: &Places<'_>,
) -> Result<Option<Prune>, AllocError>
    ensures { IfOk result (λ found.
        PrunesTo marks.now depth places.now.meta (plain_places places.now) (option_map plain_prune found)) }
{
    let mask = mask_of(alloc, marks, depth, places.places.as_slice())?;
    if leaves_one(mask.as_slice()) {
        Ok(Some(Prune {
            meta: places.meta,
            mask,
        }))
    } else {
        Ok(None)
    }
}

/// Whether the local stands at the place, which is not blank.
fn has_local(place: &Place<'_>, local: usize) -> bool
    ensures { result ≡ has_local_of local (plain_place place.now) }
{
    !is_blank(place.ty) && place.local as usize == local
}

/// Whether the local stands at one of the places.
fn is_among(places: &[Place<'_>], local: usize) -> bool
    ensures { result ≡ list_any (λ p. has_local_of local (plain_place p)) places.now }
{
    for place in places {
        if has_local(place, local) {
            return true;
        }
    }
    false
}

/// Marks at those of the first `count` locals that stand at none of the places.
pub fn foreign_marks(
    alloc: Global,
    count: usize,
    places: &Places<'_>,
) -> Result<Vec<bool>, AllocError>
    ensures { IfOk result (λ marks. MarksForeign count (plain_places places.now) marks.items) }
{
    let mut marks = Vec::new(alloc);
    for local in 0..count {
        marks.push(!is_among(places.places.as_slice(), local))?;
    }
    Ok(marks)
}
