//! What follows a variable, once an object is put for it; and types past newer variables.
ghost use Rattle.std.specs.Prelude.{map, IfOk, IfErr, ◌≡◌};
ghost use Rattle.clf_syntax.specs.Plain.{plain_obj};
ghost use Rattle.clf_syntax.specs.PlainTypes.{plain_ty, plain_tele, plain_tele_entry};
ghost use Rattle.clf_syntax.specs.Renaming.{ren_type, ren_telescope, up};
ghost use Rattle.clf_syntax.specs.TypeTree.{telescope_of};
ghost use Rattle.celf_gather.specs.Scene.{put_in_type, put_in_telescope, put_in_kind};
ghost use Rattle.celf_gather.specs.Stops.{Gives, IsShort, IsUnput};

use crate::stop::Stop;
use clf_syntax::{Obj, Or, Tele, TeleEntry, TooFar, Ty, Want, erase};
use hered_put::{PutFault, put_args, put_entries, put_ty};
use sqlite_items::Items;
use std::alloc::Global;

/// A function's range with an argument put for its variable, which has the domain's type.
#[tactic(auto, using(crate::proofs::Stopping::unput_stops), unfolding(crate::specs::Scene::put_in_type))]
pub fn put_in_range(alloc: Global, obj: &Obj, dom: &Ty, cod: &Ty) -> Result<Ty, Stop>
    ensures { Gives plain_ty (put_in_type (plain_obj obj.now) (plain_ty dom.now) (plain_ty cod.now)) result }
{
    let simple = erase(alloc, dom)?;
    match put_ty(alloc, &simple, obj, 0, cod) {
        Ok(ty) => Ok(ty),
        Err(fault) => Err(unput(alloc, fault)),
    }
}

/// The later entries of a telescope with an object put for the first one's variable.
#[tactic(auto, using(crate::proofs::Stopping::unput_stops), unfolding(crate::specs::Scene::put_in_telescope))]
pub fn put_in_entries(
    alloc: Global,
    obj: &Obj,
    ty: &Ty,
    later: &[TeleEntry],
) -> Result<Items<TeleEntry>, Stop>
    ensures { Gives (λ es. telescope_of (map plain_tele_entry es)) (put_in_telescope (plain_obj obj.now)
        (plain_ty ty.now) (telescope_of (map plain_tele_entry later.now))) result }
{
    let simple = erase(alloc, ty)?;
    match put_entries(alloc, &simple, obj, 0, later) {
        Ok(entries) => Ok(entries),
        Err(fault) => Err(unput(alloc, fault)),
    }
}

/// The later arguments of a kind with an object put for the first one's variable.
#[tactic(auto, using(crate::proofs::Stopping::unput_stops), unfolding(crate::specs::Scene::put_in_kind))]
pub fn put_in_arguments(alloc: Global, obj: &Obj, ty: &Ty, later: &[Ty]) -> Result<Items<Ty>, Stop>
    ensures { Gives (map plain_ty)
        (put_in_kind (plain_obj obj.now) (plain_ty ty.now) (map plain_ty later.now)) result }
{
    let simple = erase(alloc, ty)?;
    match put_args(alloc, &simple, obj, 0, later) {
        Ok(args) => Ok(args),
        Err(fault) => Err(unput(alloc, fault)),
    }
}

/// What ends a walk where an object could not be put.
fn unput(alloc: Global, fault: PutFault) -> Stop
    ensures { IsUnput fault result }
{
    match fault {
        PutFault::Untyped => Stop::Misfit,
        PutFault::TooFar => Stop::Short(Want::too_far(alloc)),
        PutFault::NoMemory => Stop::Short(Want::NoMemory),
    }
}

/// A type past so many newer variables.
#[tactic(auto, using(crate::proofs::Raised::raised_laws))]
pub fn raised_type(alloc: Global, ty: &Ty, by: u32) -> Result<Ty, Stop>
    ensures raised { IfOk result (λ t. plain_ty t ≡ ren_type (up by) (plain_ty ty.now)) }
    ensures short { IfErr result IsShort }
{
    match ty.shift(alloc, by, 0) {
        Ok(ty) => Ok(ty),
        Err(why) => Err(unwritten(alloc, why)),
    }
}

/// A telescope past so many newer variables.
#[tactic(auto, using(crate::proofs::Raised::raised_laws))]
pub fn raised_telescope(alloc: Global, tele: &Tele, by: usize) -> Result<Tele, Stop>
    ensures raised { IfOk result (λ t. plain_tele t ≡ ren_telescope (up by) (plain_tele tele.now)) }
    ensures short { IfErr result IsShort }
{
    if by > u32::MAX as usize {
        return Err(Stop::Short(Want::too_far(alloc)));
    }
    match tele.shift(alloc, by as u32, 0) {
        Ok(tele) => Ok(tele),
        Err(why) => Err(unwritten(alloc, why)),
    }
}

/// What ends a walk where a tree could not be written.
fn unwritten(alloc: Global, why: Or<TooFar>) -> Stop
    ensures { IsShort result }
{
    match why {
        Or::Fault(_) => Stop::Short(Want::too_far(alloc)),
        Or::NoMemory => Stop::Short(Want::NoMemory),
    }
}
