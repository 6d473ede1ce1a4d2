//! The type made of a simple type, with new metavariables in its indices.
ghost use Rattle.std.specs.Prelude.{◌≡◌, ◌+◌, ◌++◌, ◌∷◌, [], IfOk, OnOk, IfErr, length, map, reverse};
ghost use Rattle.clf_syntax.specs.Plain.{plain_obj};
ghost use Rattle.clf_syntax.specs.PlainSimple.{plain_simple, plain_simple_entry};
ghost use Rattle.clf_syntax.specs.PlainTypes.{plain_ty, plain_tele_entry};
ghost use Rattle.clf_syntax.specs.Simple.{erase};
ghost use Rattle.clf_syntax.specs.TypeTree as core_type;
ghost use Rattle.clf_syntax.specs.Wide.{IsWant};
ghost use Rattle.clf_sig.specs.Signature.{plain_signature};
ghost use Rattle.metavars.specs.Fresh.{scope_of};
ghost use Rattle.metavars.specs.Stored.{constants, additions};
ghost use Rattle.celf_places.specs.Combined.{with_mode};
ghost use Rattle.celf_filled.specs.TypedFrom as spec;
ghost use Rattle.celf_filled.specs.States.{count, IsGrownBy};

use crate::trees::{both, function, monad};
use celf_places::arguments_of;
use clf_sig::Signature;
use clf_syntax::{Mode, Obj, Simple, SimpleEntry, TeleEntry, Ty, Want};
use metavars::Store;
use sqlite_items::Items;
use std::alloc::{AllocError, Global};

/// The type that is left of a simple type where each index is an object of new metavariables.
///
/// These are numbered in order, and applied to the persistent variables that are bound on the way. A family that the
/// signature does not have gets no indices. It fails only where memory runs out or a number passes its range.
#[tactic(auto, using(crate::proofs::Erasures::erasure_laws))]
pub fn typed_from(sig: &Signature, store: &mut Store, simple: &Simple) -> Result<Ty, Want>
    ensures made { IfOk result (λ a.
        plain_ty a
        ≡ spec.typed_from (spec.indices_of (plain_signature sig.now)) (count store.old) []
        (plain_simple simple.now)) }
    ensures erased { IfOk result (λ a. erase (plain_ty a) ≡ plain_simple simple.now) }
    ensures grown { OnOk result (IsGrownBy store.old store.new
        (spec.new_in (spec.indices_of (plain_signature sig.now)) [] (plain_simple simple.now))) }
    ensures wanting { IfErr result IsWant }
{
    type_under(simple, sig, store, &[])
}

/// The type under these variables, the oldest first.
#[cycle(typed)]
#[tactic(auto, using(clf_syntax::specs::PlainSimple::plain_simple_laws, crate::proofs::Grown::grown_laws))]
fn type_under(
    simple: &Simple,
    sig: &Signature,
    store: &mut Store,
    locals: &[SimpleEntry],
) -> Result<Ty, Want>
    ensures made { IfOk result (λ a.
        plain_ty a
        ≡ spec.typed_from (spec.indices_of (plain_signature sig.now)) (count store.old)
        (map plain_simple_entry (reverse locals.now)) (plain_simple simple.now)) }
    ensures grown { OnOk result (IsGrownBy store.old store.new
        (spec.new_in (spec.indices_of (plain_signature sig.now)) (map plain_simple_entry (reverse locals.now))
        (plain_simple simple.now))) }
    ensures wanting { IfErr result IsWant }
{
    match simple {
        Simple::Atom(family) => family_under(sig, store, *family, locals),
        Simple::Fun { mode, dom, cod } => {
            let alloc = store.alloc();
            let first = type_under(dom.get(), sig, store, locals)?;
            let inner = with_local(alloc, locals, *mode, dom.get())?;
            let second = type_under(cod.get(), sig, store, inner.as_slice())?;
            Ok(function(alloc, *mode, first, second)?)
        }
        Simple::With { left, right } => {
            let alloc = store.alloc();
            let first = type_under(left.get(), sig, store, locals)?;
            let second = type_under(right.get(), sig, store, locals)?;
            Ok(both(alloc, first, second)?)
        }
        Simple::Top => Ok(Ty::Top),
        Simple::Monad { entries } => {
            let entries = entries_under(entries.as_slice(), sig, store, locals)?;
            Ok(monad(entries))
        }
    }
}

/// A family at objects of new metavariables.
#[tactic(auto, using(clf_syntax::specs::PlainTypes::plain_type_laws, crate::proofs::Grown::grown_laws))]
fn family_under(
    sig: &Signature,
    store: &mut Store,
    family: u32,
    locals: &[SimpleEntry],
) -> Result<Ty, Want>
    ensures made { IfOk result (λ a.
        plain_ty a
        ≡ core_type.family family
        (spec.fresh_objects (count store.old) (scope_of (map plain_simple_entry (reverse locals.now)))
        (spec.indices_of (plain_signature sig.now) family))) }
    ensures grown { OnOk result (IsGrownBy store.old store.new
        (spec.new_of_each (scope_of (map plain_simple_entry (reverse locals.now)))
        (spec.indices_of (plain_signature sig.now) family))) }
    ensures wanting { IfErr result IsWant }
{
    let wanted = arguments_of(store.alloc(), sig, family)?;
    let indices = fresh_objects(store, wanted.as_slice(), locals)?;
    Ok(Ty::Fam { family, indices })
}

/// Objects of new metavariables, one for each of these entries.
fn fresh_objects(
    store: &mut Store,
    wanted: &[SimpleEntry],
    locals: &[SimpleEntry],
) -> Result<Items<Obj>, Want>
    ensures made { IfOk result (λ os.
        map plain_obj os
        ≡ spec.fresh_objects (count store.old) (scope_of (map plain_simple_entry (reverse locals.now)))
        (map spec.type_of_entry (map plain_simple_entry wanted.now))) }
    ensures grown { OnOk result (IsGrownBy store.old store.new
        (spec.new_of_each (scope_of (map plain_simple_entry (reverse locals.now)))
        (map spec.type_of_entry (map plain_simple_entry wanted.now)))) }
    ensures wanting { IfErr result IsWant }
{
    let mut objects = Items::new(store.alloc());
    for entry in wanted {
        objects.push(fresh_object(store, entry, locals)?)?;
    }
    Ok(objects)
}

/// An object of new metavariables, of the simple type of an entry.
#[tactic(auto, using(clf_syntax::specs::PlainSimple::plain_simple_laws))]
fn fresh_object(store: &mut Store, entry: &SimpleEntry, locals: &[SimpleEntry]) -> Result<Obj, Want>
    ensures made { IfOk result (λ o.
        plain_obj o
        ≡ spec.fresh_object (count store.old) (scope_of (map plain_simple_entry (reverse locals.now)))
        (spec.type_of_entry (plain_simple_entry entry.now))) }
    ensures grown { OnOk result (IsGrownBy store.old store.new
        (spec.new_types (scope_of (map plain_simple_entry (reverse locals.now)))
        (spec.type_of_entry (plain_simple_entry entry.now)))) }
    ensures wanting { IfErr result IsWant }
{
    store.fresh(&entry.ty, locals)
}

/// These variables and one more, the newest last.
fn with_local(
    alloc: Global,
    locals: &[SimpleEntry],
    mode: Mode,
    ty: &Simple,
) -> Result<Items<SimpleEntry>, AllocError>
    ensures { IfOk result (λ inner.
        map plain_simple_entry (reverse inner)
        ≡ with_mode mode (plain_simple ty.now) ∷ map plain_simple_entry (reverse locals.now)) }
{
    let mut inner = copies(alloc, locals)?;
    inner.push(entry_of(mode, ty.copy(alloc)?))?;
    Ok(inner)
}

#[tactic(auto, using(clf_syntax::specs::PlainSimple::plain_simple_laws))]
fn entry_of(mode: Mode, ty: Simple) -> SimpleEntry
    ensures { plain_simple_entry result ≡ with_mode mode (plain_simple ty) }
{
    SimpleEntry { mode, ty }
}

fn copies(alloc: Global, locals: &[SimpleEntry]) -> Result<Items<SimpleEntry>, AllocError>
    ensures { IfOk result (λ copied. copied ≡ locals.now) }
{
    let mut copied = Items::new(alloc);
    for local in locals {
        copied.push(local.copy(alloc)?)?;
    }
    Ok(copied)
}

/// The entries of a telescope, each under those before it.
#[cycle(typed)]
fn entries_under(
    entries: &[SimpleEntry],
    sig: &Signature,
    store: &mut Store,
    outer: &[SimpleEntry],
) -> Result<Items<TeleEntry>, Want>
    ensures made { IfOk result (λ es.
        map plain_tele_entry es
        ≡ spec.typed_entries (spec.indices_of (plain_signature sig.now)) (count store.old)
        (map plain_simple_entry (reverse outer.now)) (map plain_simple_entry entries.now)) }
    ensures grown { OnOk result (IsGrownBy store.old store.new
        (spec.new_in_entries (spec.indices_of (plain_signature sig.now))
        (map plain_simple_entry (reverse outer.now)) (map plain_simple_entry entries.now))) }
    ensures wanting { IfErr result IsWant }
{
    let alloc = store.alloc();
    let mut locals = copies(alloc, outer)?;
    let mut typed = Items::new(alloc);
    for entry in entries {
        typed.push(entry_under(entry, sig, store, locals.as_slice())?)?;
        locals.push(entry.copy(alloc)?)?;
    }
    Ok(typed)
}

#[cycle(typed)]
#[tactic(auto, using(clf_syntax::specs::PlainSimple::plain_simple_laws, clf_syntax::specs::PlainTypes::plain_type_laws))]
fn entry_under(
    entry: &SimpleEntry,
    sig: &Signature,
    store: &mut Store,
    locals: &[SimpleEntry],
) -> Result<TeleEntry, Want>
    ensures made { IfOk result (λ e.
        plain_tele_entry e
        ≡ spec.typed_entry (spec.indices_of (plain_signature sig.now)) (count store.old)
        (map plain_simple_entry (reverse locals.now)) (plain_simple_entry entry.now)) }
    ensures grown { OnOk result (IsGrownBy store.old store.new
        (spec.new_in (spec.indices_of (plain_signature sig.now)) (map plain_simple_entry (reverse locals.now))
        (spec.type_of_entry (plain_simple_entry entry.now)))) }
    ensures wanting { IfErr result IsWant }
{
    Ok(TeleEntry {
        mode: entry.mode,
        ty: type_under(&entry.ty, sig, store, locals)?,
    })
}
