//! The same metavariable on both sides.
ghost use Rattle.std.specs.Prelude.{◌≡◌, ◌↔◌, ◌<◌, ℕ, IfOk, IsTrue, length, map};
ghost use Rattle.std.specs.Option.{option_map};
ghost use Rattle.celf_constraints.specs.Reading.{plain_place, plain_places};
ghost use Rattle.celf_reach.specs.Agreeing.{Agrees, AgreesAt};

use celf_constraints::{Place, Places, ends, is_blank};
use std::alloc::{AllocError, Global};

/// Whether the place is blank, or the other list has the same local there.
fn agrees(places: &[Place<'_>], others: &[Place<'_>], place: usize) -> bool
    requires { place < length places.now }
    ensures { IsTrue result ↔ AgreesAt (map plain_place places.now) (map plain_place others.now) place }
{
    if is_blank(places[place].ty) {
        return true;
    }
    if place >= others.len() {
        return false;
    }
    !is_blank(others[place].ty) && places[place].local == others[place].local
}

/// For each place whether it has the same local in both lists; none where the way from another one comes to no end.
pub fn agreeing(
    alloc: Global,
    places: &Places<'_>,
    others: &Places<'_>,
) -> Result<Option<Vec<bool>>, AllocError>
    ensures { IfOk result
        (λ o. Agrees (plain_places places.now) (plain_places others.now) (option_map (λ v. v.items) o)) }
{
    let ended = ends(alloc, places, others)?;
    let here = places.places.as_slice();
    let mut mask = Vec::new(alloc);
    for place in 0..here.len() {
        let same = agrees(here, others.places.as_slice(), place);
        if !same && !ended[place] {
            return Ok(None);
        }
        mask.push(same)?;
    }
    Ok(Some(mask))
}
