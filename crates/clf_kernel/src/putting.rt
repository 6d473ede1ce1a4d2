//! What follows a variable, once an object is put for it. Where the object has not the variable's type, it stays as it
//! is: then nothing is derived of it either way.
ghost use Rattle.std.specs.Prelude.{◌≡◌, IfOk, IfErr, map};
ghost use Rattle.clf_syntax.specs.Plain.{plain_obj};
ghost use Rattle.clf_syntax.specs.PlainTypes.{plain_ty, plain_tele_entry};
ghost use Rattle.clf_syntax.specs.TypeTree.{telescope_of};
ghost use Rattle.clf_decision.specs.Hereditary.{hereditary};
ghost use Rattle.clf_kernel.specs.Stops.{IsShort};

use crate::refusal::{Stop, too_far};
use clf_syntax::{Obj, TeleEntry, Ty, erase};
use hered_put::{PutFault, put_args, put_entries, put_ty};
use sqlite_items::Items;
use std::alloc::Global;

/// A function's range with an argument put for its variable, which has the domain's type.
#[tactic(auto, using(clf_decision::proofs::Hereditary::hereditary_laws))]
pub fn put_in_range(alloc: Global, obj: &Obj, dom: &Ty, cod: &Ty) -> Result<Ty, Stop>
    ensures put { IfOk result
        (λ t. plain_ty t ≡ hereditary.into_type (plain_obj obj.now) (plain_ty dom.now) (plain_ty cod.now)) }
    ensures short { IfErr result IsShort }
{
    let simple = erase(alloc, dom)?;
    match put_ty(alloc, &simple, obj, 0, cod) {
        Ok(ty) => Ok(ty),
        Err(PutFault::Untyped) => Ok(cod.copy(alloc)?),
        Err(PutFault::TooFar) => Err(too_far(alloc)),
        Err(PutFault::NoMemory) => Err(Stop::NoMemory),
    }
}

/// The later entries of a telescope with an object put for the first one's variable.
#[tactic(auto, using(clf_decision::proofs::Hereditary::hereditary_laws))]
pub fn put_in_entries(
    alloc: Global,
    obj: &Obj,
    ty: &Ty,
    later: &[TeleEntry],
) -> Result<Items<TeleEntry>, Stop>
    ensures put { IfOk result (λ es.
        telescope_of (map plain_tele_entry es)
        ≡ hereditary.into_telescope (plain_obj obj.now) (plain_ty ty.now)
        (telescope_of (map plain_tele_entry later.now))) }
    ensures short { IfErr result IsShort }
{
    let simple = erase(alloc, ty)?;
    match put_entries(alloc, &simple, obj, 0, later) {
        Ok(entries) => Ok(entries),
        Err(PutFault::Untyped) => copied_entries(alloc, later),
        Err(PutFault::TooFar) => Err(too_far(alloc)),
        Err(PutFault::NoMemory) => Err(Stop::NoMemory),
    }
}

/// The later arguments of a kind with an object put for the first one's variable.
#[tactic(auto, using(clf_decision::proofs::Hereditary::hereditary_laws))]
pub fn put_in_arguments(alloc: Global, obj: &Obj, ty: &Ty, later: &[Ty]) -> Result<Items<Ty>, Stop>
    ensures put { IfOk result (λ k.
        map plain_ty k ≡ hereditary.into_kind (plain_obj obj.now) (plain_ty ty.now) (map plain_ty later.now)) }
    ensures short { IfErr result IsShort }
{
    let simple = erase(alloc, ty)?;
    match put_args(alloc, &simple, obj, 0, later) {
        Ok(args) => Ok(args),
        Err(PutFault::Untyped) => copied_arguments(alloc, later),
        Err(PutFault::TooFar) => Err(too_far(alloc)),
        Err(PutFault::NoMemory) => Err(Stop::NoMemory),
    }
}

fn copied_entries(alloc: Global, entries: &[TeleEntry]) -> Result<Items<TeleEntry>, Stop>
    ensures copied { IfOk result (λ es. es ≡ entries.now) }
    ensures short { IfErr result IsShort }
{
    let mut copied = Items::new(alloc);
    for entry in entries {
        copied.push(entry.copy(alloc)?)?;
    }
    Ok(copied)
}

fn copied_arguments(alloc: Global, args: &[Ty]) -> Result<Items<Ty>, Stop>
    ensures copied { IfOk result (λ k. k ≡ args.now) }
    ensures short { IfErr result IsShort }
{
    let mut copied = Items::new(alloc);
    for arg in args {
        copied.push(arg.copy(alloc)?)?;
    }
    Ok(copied)
}
