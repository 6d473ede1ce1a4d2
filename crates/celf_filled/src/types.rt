//! The reading of types and telescopes, with new metavariables for what is left to be found.
ghost use Rattle.std.specs.Prelude.{◌≡◌, false, map, get_or, IfOk, OnOk, option_copied};
ghost use Rattle.clf_syntax.specs.Plain.{plain_obj};
ghost use Rattle.clf_syntax.specs.PlainTypes.{plain_ty, plain_tele_entry};
ghost use Rattle.clf_syntax.specs.PlainSimple.{plain_simple_entry};
ghost use Rattle.clf_sig.specs.Entry.{entry_at};
ghost use Rattle.clf_sig.specs.Signature.{plain_signature};
ghost use Rattle.celf_sugar.specs.Plain.{desugared_object, desugared_type, desugared_telescope, desugared_entry};
ghost use Rattle.celf_names.specs.Names.{family_named as family_named_in};
ghost use Rattle.celf_places.specs.Locals.{plain_place};
ghost use Rattle.celf_places.specs.Heads.{arguments_of as arguments_in};
ghost use Rattle.celf_places.specs.Along.{left_along};
ghost use Rattle.celf_filled.specs.Scopes.{plain_scope, plain_named, implicit_after};
ghost use Rattle.celf_filled.specs.States.{state_of};
ghost use Rattle.celf_filled.specs.HeadedTypes.{plain_indices};
ghost use Rattle.celf_filled.specs.WalkTypes as spec;

use crate::heads::{implicit_arguments, place_of};
use crate::objects::fill_object;
use crate::places::fill_place;
use crate::scope::Scope;
use crate::trees::{both, function, monad};
use celf_implicit::Implicit;
use celf_names::family_named;
use celf_places::{arguments_of, boxed, next_part, simple_of};
use celf_sugar::{PEntry, PName, PObj, PTele, PTy, PTyForm};
use clf_sig::Signature;
use clf_syntax::{Mode, Name, Obj, Shortage, Simple, SimpleEntry, TeleEntry, Ty};
use metavars::Store;
use sqlite_items::{Boxed, Items};
use std::alloc::{AllocError, Global};

/// Indices, and what is wanted of those that are left.
#[derive(Drop)]
pub struct Indices<'a> {
    pub objects: Items<Obj>,
    pub wanted: &'a [SimpleEntry],
}

/// The tree of a type, under these binders.
#[cycle(types)]
#[tactic(auto, using(celf_names::proofs::Forms::type_laws, clf_syntax::specs::PlainTypes::plain_type_laws))]
pub fn fill_type<'a>(
    ty: &'a PTy,
    sig: &'a Signature,
    variables: &'a [Implicit],
    scope: &Scope<'a>,
    store: &mut Store,
    whole: &mut bool,
) -> Result<Ty, Shortage>
    ensures made { IfOk result (λ a.
        plain_ty a
        ≡ (spec.fill_type (plain_signature sig.now) (map plain_named variables.now) (plain_scope scope.now)
        (desugared_type ty.now) (state_of store.old whole.old)).0) }
    ensures left { OnOk result (state_of store.new whole.new
        ≡ (spec.fill_type (plain_signature sig.now) (map plain_named variables.now) (plain_scope scope.now)
        (desugared_type ty.now) (state_of store.old whole.old)).1) }
{
    match &ty.form {
        PTyForm::Family { head, indices } => {
            fill_family(
                indices.as_slice(),
                sig,
                variables,
                scope,
                head,
                store,
                whole,
            )
        }
        PTyForm::Fun {
            mode,
            name,
            dom,
            cod,
        } => {
            let alloc = store.alloc();
            let simple = boxed(alloc, simple_of(alloc, sig, dom.get()))?;
            let dom = fill_type(dom.get(), sig, variables, scope, store, whole)?;
            let inner = scope.copy(alloc)?;
            let cod = fill_under(
                cod.get(),
                sig,
                variables,
                *mode,
                name,
                &simple,
                inner,
                store,
                whole,
            )?;
            Ok(function(alloc, *mode, dom, cod)?)
        }
        PTyForm::With { left, right } => {
            let left = fill_type(left.get(), sig, variables, scope, store, whole)?;
            let right = fill_type(right.get(), sig, variables, scope, store, whole)?;
            Ok(both(store.alloc(), left, right)?)
        }
        PTyForm::Top => Ok(Ty::Top),
        PTyForm::Monad { tele } => {
            let entries = fill_telescope(tele, sig, variables, scope, store, whole)?;
            Ok(monad(entries))
        }
    }
}

/// The tree of a type under one binder more.
#[cycle(types)]
fn fill_under<'a>(
    ty: &'a PTy,
    sig: &'a Signature,
    variables: &'a [Implicit],
    mode: Mode,
    name: &'a Option<Name>,
    simple: &'a Option<Boxed<Simple>>,
    outer: Scope<'a>,
    store: &mut Store,
    whole: &mut bool,
) -> Result<Ty, Shortage>
    ensures made { IfOk result (λ a.
        plain_ty a
        ≡ (spec.fill_type (plain_signature sig.now) (map plain_named variables.now)
        (spec.bound_under (spec.bound_local mode name.now (plain_place simple.now)) (plain_scope outer.entry))
        (desugared_type ty.now) (state_of store.old whole.old)).0) }
    ensures left { OnOk result (state_of store.new whole.new
        ≡ (spec.fill_type (plain_signature sig.now) (map plain_named variables.now)
        (spec.bound_under (spec.bound_local mode name.now (plain_place simple.now)) (plain_scope outer.entry))
        (desugared_type ty.now) (state_of store.old whole.old)).1) }
{
    let mut scope = outer;
    scope.bind(mode, name, place_of(simple))?;
    fill_type(ty, sig, variables, &scope, store, whole)
}

/// The entries of a telescope, under these binders.
#[cycle(types)]
#[tactic(auto, using(celf_names::proofs::Forms::telescope_laws))]
pub fn fill_telescope<'a>(
    tele: &'a PTele,
    sig: &'a Signature,
    variables: &'a [Implicit],
    scope: &Scope<'a>,
    store: &mut Store,
    whole: &mut bool,
) -> Result<Items<TeleEntry>, Shortage>
    ensures made { IfOk result (λ es.
        map plain_tele_entry es
        ≡ (spec.fill_telescope (plain_signature sig.now) (map plain_named variables.now)
        (spec.no_bindings_yet (plain_scope scope.now), state_of store.old whole.old)
        (desugared_telescope tele.now)).0.entries) }
    ensures left { OnOk result (state_of store.new whole.new
        ≡ (spec.fill_telescope (plain_signature sig.now) (map plain_named variables.now)
        (spec.no_bindings_yet (plain_scope scope.now), state_of store.old whole.old)
        (desugared_telescope tele.now)).1) }
{
    let alloc = store.alloc();
    let simples = simples_of(alloc, sig, tele.entries.as_slice())?;
    fill_bindings(
        tele.entries.as_slice(),
        sig,
        variables,
        simples.as_slice(),
        scope.copy(alloc)?,
        store,
        whole,
    )
}

/// The simple types of what entries bind, in order.
fn simples_of(
    alloc: Global,
    sig: &Signature,
    entries: &[PEntry],
) -> Result<Items<Option<Boxed<Simple>>>, Shortage>
    ensures { IfOk result (λ ts.
        map plain_place ts
        ≡ map (spec.entry_place (plain_signature sig.now)) (map desugared_entry entries.now)) }
{
    let mut simples = Items::new(alloc);
    for entry in entries {
        simples.push(simple_of_entry(alloc, sig, entry)?)?;
    }
    Ok(simples)
}

#[tactic(auto, using(celf_sugar::specs::Plain::entry_laws))]
fn simple_of_entry(
    alloc: Global,
    sig: &Signature,
    entry: &PEntry,
) -> Result<Option<Boxed<Simple>>, Shortage>
    ensures { IfOk result
        (λ t. plain_place t ≡ spec.entry_place (plain_signature sig.now) (desugared_entry entry.now)) }
{
    boxed(alloc, simple_of(alloc, sig, &entry.ty))
}

/// The entries, each under those before it.
#[cycle(types)]
fn fill_bindings<'a>(
    entries: &'a [PEntry],
    sig: &'a Signature,
    variables: &'a [Implicit],
    simples: &'a [Option<Boxed<Simple>>],
    outer: Scope<'a>,
    store: &mut Store,
    whole: &mut bool,
) -> Result<Items<TeleEntry>, Shortage>
    requires { map plain_place simples.now
        ≡ map (spec.entry_place (plain_signature sig.now)) (map desugared_entry entries.now) }
    ensures made { IfOk result (λ es.
        map plain_tele_entry es
        ≡ (left_along (spec.fill_binding (plain_signature sig.now) (map plain_named variables.now))
        (spec.no_bindings_yet (plain_scope outer.entry), state_of store.old whole.old)
        (map desugared_entry entries.now)).0.entries) }
    ensures left { OnOk result (state_of store.new whole.new
        ≡ (left_along (spec.fill_binding (plain_signature sig.now) (map plain_named variables.now))
        (spec.no_bindings_yet (plain_scope outer.entry), state_of store.old whole.old)
        (map desugared_entry entries.now)).1) }
{
    let mut scope = outer;
    let mut filled = Items::new(store.alloc());
    for (index, entry) in entries.iter().enumerate() {
        filled.push(fill_binding(entry, sig, variables, &scope, store, whole)?)?;
        scope.bind(entry.mode, &entry.name, place_at(simples, index))?;
    }
    Ok(filled)
}

/// The simple type at a place.
fn place_at<'a>(simples: &'a [Option<Boxed<Simple>>], index: usize) -> Option<&'a Simple>
    ensures { option_copied result ≡ get_or simples.now index None }
{
    match simples.get(index)? {
        Some(simple) => Some(simple.get()),
        None => None,
    }
}

#[cycle(types)]
#[tactic(auto, using(celf_sugar::specs::Plain::entry_laws, clf_syntax::specs::PlainTypes::plain_type_laws))]
fn fill_binding<'a>(
    entry: &'a PEntry,
    sig: &'a Signature,
    variables: &'a [Implicit],
    scope: &Scope<'a>,
    store: &mut Store,
    whole: &mut bool,
) -> Result<TeleEntry, Shortage>
    ensures { IfOk result (λ e.
        (plain_tele_entry e, state_of store.new whole.new)
        ≡ spec.entry_typed (plain_signature sig.now) (map plain_named variables.now) (plain_scope scope.now)
        (desugared_entry entry.now) (state_of store.old whole.old)) }
{
    Ok(TeleEntry {
        mode: entry.mode,
        ty: fill_type(&entry.ty, sig, variables, scope, store, whole)?,
    })
}

/// A family at its indices, of which the implicit ones are filled in.
fn fill_family<'a>(
    indices: &'a [PObj],
    sig: &'a Signature,
    variables: &'a [Implicit],
    scope: &Scope<'a>,
    head: &PName,
    store: &mut Store,
    whole: &mut bool,
) -> Result<Ty, Shortage>
    ensures { IfOk result (λ a.
        (plain_ty a, state_of store.new whole.new)
        ≡ spec.fill_family (plain_signature sig.now) (map plain_named variables.now) (plain_scope scope.now)
        head.now.dollar (map desugared_object indices.now)
        (family_named_in (plain_signature sig.now) head.now.name) (state_of store.old whole.old)) }
{
    match family_named(sig, head.name.as_str()) {
        Some(family) => {
            let alloc = store.alloc();
            let wanted = arguments_of(alloc, sig, family)?;
            let implicit = implicit_arguments(sig, head.dollar, family);
            let filled = fill_indices(
                indices,
                sig,
                variables,
                wanted.as_slice(),
                implicit,
                scope,
                store,
                whole,
            )?;
            Ok(family_at(family, filled))
        }
        None => {
            *whole = false;
            Ok(nothing_typed(store.alloc())?)
        }
    }
}

#[tactic(auto, using(clf_syntax::specs::PlainTypes::plain_type_laws))]
fn family_at(family: u32, indices: Items<Obj>) -> Ty
    ensures { plain_ty result ≡ spec.family_at family (map plain_obj indices) }
{
    Ty::Fam { family, indices }
}

/// What stands for a type whose family has no meaning: a hole is in it.
#[tactic(auto, using(clf_syntax::specs::Plain::plain_laws))]
fn nothing_typed(alloc: Global) -> Result<Ty, AllocError>
    ensures { IfOk result (λ a. plain_ty a ≡ spec.nothing_typed) }
{
    let mut indices = Items::new(alloc);
    indices.push(Obj::Hole)?;
    Ok(family_at(0, indices))
}

/// Indices, of which so many are filled in.
fn fill_indices<'a>(
    indices: &'a [PObj],
    sig: &'a Signature,
    variables: &'a [Implicit],
    wanted: &'a [SimpleEntry],
    implicit: u32,
    outer: &Scope<'a>,
    store: &mut Store,
    whole: &mut bool,
) -> Result<Items<Obj>, Shortage>
    ensures made { IfOk result (λ os.
        map plain_obj os
        ≡ (spec.fill_indices (plain_signature sig.now) (map plain_named variables.now) (plain_scope outer.now)
        implicit (map plain_simple_entry wanted.now) (map desugared_object indices.now)
        (state_of store.old whole.old)).0.objects) }
    ensures left { OnOk result (state_of store.new whole.new
        ≡ (spec.fill_indices (plain_signature sig.now) (map plain_named variables.now) (plain_scope outer.now)
        implicit (map plain_simple_entry wanted.now) (map desugared_object indices.now)
        (state_of store.old whole.old)).1) }
{
    let first = fill_first(wanted, implicit, outer, store, whole)?;
    let mut wanted = first.wanted;
    let mut objects = first.objects;
    for index in indices {
        let next = next_part(wanted);
        objects.push(fill_object(index, sig, variables, outer, next.place, store, whole)?)?;
        wanted = next.later;
    }
    Ok(objects)
}

/// The first indices, so many, all of them filled in.
fn fill_first<'a>(
    wanted: &'a [SimpleEntry],
    implicit: u32,
    scope: &Scope<'a>,
    store: &mut Store,
    whole: &mut bool,
) -> Result<Indices<'a>, Shortage>
    ensures { IfOk result (λ is.
        (plain_indices is, state_of store.new whole.new)
        ≡ spec.fill_first (plain_scope scope.now) implicit (
          spec.no_indices_yet (map plain_simple_entry wanted.now),
          state_of store.old whole.old,
        )) }
{
    let mut filled = Indices {
        objects: Items::new(store.alloc()),
        wanted,
    };
    let mut left = implicit;
    while left > 0 {
        left -= 1;
        filled = fill_index(scope, filled, store, whole)?;
    }
    Ok(filled)
}

/// One index more that is filled in.
fn fill_index<'a>(
    scope: &Scope<'a>,
    filled: Indices<'a>,
    store: &mut Store,
    whole: &mut bool,
) -> Result<Indices<'a>, Shortage>
    ensures { IfOk result (λ is.
        (plain_indices is, state_of store.new whole.new)
        ≡ spec.fill_index (plain_scope scope.now) (plain_indices filled.entry, state_of store.old whole.old)) }
{
    let next = next_part(filled.wanted);
    let mut objects = filled.objects;
    objects.push(fill_place(store, whole, scope, next.place)?)?;
    Ok(Indices {
        objects,
        wanted: next.later,
    })
}
