//! Metavariables that are left, as constants.
ghost use Rattle.std.specs.Prelude.{◌≡◌, ◌+◌, ◌++◌, ◌==◌, ◌<◌, ◌≤◌, ℕ, Some, None, map, length, IfErr, IfOk, OnOk};
ghost use Rattle.std.specs.List.{All, position};
ghost use Rattle.clf_syntax.specs.declared.tree.Head.TheVariants.{Const};
ghost use Rattle.clf_syntax.specs.Tree.{head_alone};
ghost use Rattle.clf_syntax.specs.Plain.{plain_obj};
ghost use Rattle.clf_syntax.specs.PlainSimple.{plain_simple};
ghost use Rattle.clf_syntax.specs.PlainTypes.{plain_ty};
ghost use Rattle.clf_syntax.specs.Wide.{IsWant};
ghost use Rattle.clf_sig.specs.Core.{plain_core};
ghost use Rattle.clf_sig.specs.Signature.{plain_signature};
ghost use Rattle.clf_rules.specs.WellFormed.{WellFormedSignature};
ghost use Rattle.eta_laws.specs.Eta.{expansion};
ghost use Rattle.store_laws.specs.Additions.{given};
ghost use Rattle.metavars.specs.Stored.{additions, constants};
ghost use Rattle.celf_filled.specs.States.{IsGrownBy};
ghost use Rattle.celf_reconstruct.specs.Known.{HasSimple};
ghost use Rattle.celf_reconstruct.specs.Left.{metavariables_with, naming};
ghost use Rattle.celf_reconstruct.specs.Naming.{AreSimples, HasMadeTypes, IsNamedScene, IsNamedUntil, IsSolvedBy, IsUnsolvedWith, NamesLeft, NamesOne, metas_of, types_in};
ghost use Rattle.celf_reconstruct.specs.Steps.{IsFormedIn};

use crate::read::add_types;
use celf_solve::{Found, Scene, put_in};
use clf_sig::Signature;
use clf_simple::eta;
use clf_syntax::{Head, Neutral, Obj, Or, Simple, Want, copy_simples};
use metavars::Store;
use sqlite_items::Items;
use std::alloc::{AllocError, Global};

/// The simple types of the metavariables that are left.
pub fn simples_left(alloc: Global, store: &Store, left: &[u32]) -> Result<Items<Simple>, AllocError>
    requires known { All (HasSimple (types_in store.now)) left.now }
    ensures { IfOk result (λ simples. AreSimples (types_in store.now) left.now (map plain_simple simples)) }
{
    let mut simples = Items::new(alloc);
    for meta in left {
        simples.push(simple_of_meta(store, *meta).copy(alloc)?)?;
    }
    Ok(simples)
}

/// That of a metavariable.
fn simple_of_meta(store: &Store, meta: u32) -> &Simple
    requires known { HasSimple (types_in store.now) meta }
    ensures { types_in store.now meta ≡ Some (plain_simple result.now) }
{
    match store.metas().get(meta as usize) {
        Some(simple) => simple,
        None => unreachable!(),
    }
}

/// What is found of an item, with its metavariables that are left as constants past those of its implicit variables.
/// Each has a type that is made of its simple type.
pub fn named(
    alloc: Global,
    sig: &Signature,
    found: Found,
    left: &[u32],
    simples: &[Simple],
) -> Result<Scene, Want>
    requires signature { WellFormedSignature (plain_signature sig.now) }
    requires formed { IsFormedIn (plain_signature sig.now) (plain_core found.core) (map plain_ty found.types) found.store }
    requires left { left.now ≡ metavariables_with (plain_core found.core) (map plain_ty found.types) }
    requires simples { AreSimples (types_in found.store) left.now (map plain_simple simples.now) }
    ensures scene { IfOk result (IsNamedScene (plain_signature sig.now) found (map plain_simple simples.now)) }
    ensures wanting { IfErr result IsWant }
{
    let Some(first) = sig.len().checked_add(found.types.len()) else {
        drop(found);
        return Err(Want::too_far(alloc));
    };
    match with_names(alloc, &found.store, first, left, simples) {
        Ok(names) => named_by(alloc, sig, found, names, simples),
        Err(want) => {
            drop(found);
            Err(want)
        }
    }
}

/// The same, where this store solves what is left by constants.
fn named_by(
    alloc: Global,
    sig: &Signature,
    found: Found,
    names: Store,
    simples: &[Simple],
) -> Result<Scene, Want>
    requires names { NamesLeft (plain_signature sig.now) found (map plain_simple simples.now) names }
    ensures scene { IfOk result (IsNamedScene (plain_signature sig.now) found (map plain_simple simples.now)) }
    ensures wanting { IfErr result IsWant }
{
    match unsolved_with(alloc, &found.store, simples) {
        Ok(fresh) => named_in(alloc, sig, found, names, fresh, simples),
        Err(want) => {
            drop(found);
            drop(names);
            Err(want)
        }
    }
}

/// The same, where this store has the constants and no solutions.
fn named_in(
    alloc: Global,
    sig: &Signature,
    found: Found,
    names: Store,
    fresh: Store,
    simples: &[Simple],
) -> Result<Scene, Want>
    requires names { NamesLeft (plain_signature sig.now) found (map plain_simple simples.now) names }
    requires fresh { IsUnsolvedWith found.store (map plain_simple simples.now) fresh }
    ensures scene { IfOk result (IsNamedScene (plain_signature sig.now) found (map plain_simple simples.now)) }
    ensures wanting { IfErr result IsWant }
{
    let Found { core, types, store } = found;
    drop(store);
    match put_in(alloc, core, types, names) {
        Ok(put) => with_made_types(sig, put, fresh, simples),
        Err(want) => {
            drop(fresh);
            Err(want)
        }
    }
}

/// The core with its types, after which stand types that are made of these simple types.
fn with_made_types(
    sig: &Signature,
    put: Found,
    fresh: Store,
    simples: &[Simple],
) -> Result<Scene, Want>
    ensures made { IfOk result
        (HasMadeTypes (plain_signature sig.now) put fresh (map plain_simple simples.now)) }
    ensures wanting { IfErr result IsWant }
{
    let Found {
        core,
        mut types,
        store,
    } = put;
    drop(store);
    let mut fresh = fresh;
    match add_types(sig, &mut fresh, simples, &mut types) {
        Ok(()) => Ok(Scene {
            core,
            types,
            store: fresh,
        }),
        Err(want) => {
            drop(core);
            drop(types);
            drop(fresh);
            Err(want)
        }
    }
}

/// The store with constants of these simple types more, in which these metavariables are solved by them.
fn with_names(
    alloc: Global,
    old: &Store,
    first: usize,
    left: &[u32],
    simples: &[Simple],
) -> Result<Store, Want>
    ensures constants { IfOk result (λ s. constants s ≡ constants old.now ++ map plain_simple simples.now) }
    ensures metas { IfOk result (λ s. metas_of s ≡ metas_of old.now) }
    ensures named { IfOk result (λ s. (m : ℕ) → m < length (metas_of old.now) →
        given (additions s) m ≡ naming first (types_in old.now) left.now m) }
    ensures later { IfOk result (λ s. (m : ℕ) → length (metas_of old.now) ≤ m → given (additions s) m ≡ None) }
    ensures wanting { IfErr result IsWant }
{
    let mut store = unsolved_with(alloc, old, simples)?;
    name_each(&mut store, first, left)?;
    Ok(store)
}

/// The store with constants of these simple types more, in which nothing is solved.
fn unsolved_with(alloc: Global, old: &Store, simples: &[Simple]) -> Result<Store, Want>
    ensures unsolved { IfOk result (IsUnsolvedWith old.now (map plain_simple simples.now)) }
    ensures wanting { IfErr result IsWant }
{
    let mut constants = copy_simples(alloc, old.consts())?;
    for simple in simples {
        constants.push(simple.copy(alloc)?)?;
    }
    let mut store = Store::new(alloc, constants.as_slice())?;
    add_metas(alloc, &mut store, old.metas())?;
    Ok(store)
}

/// Adds metavariables of these simple types.
pub fn add_metas(alloc: Global, store: &mut Store, simples: &[Simple]) -> Result<(), Want>
    ensures grown { OnOk result (IsGrownBy store.old store.new (map plain_simple simples.now)) }
    ensures wanting { IfErr result IsWant }
{
    for simple in simples {
        store.new_meta(simple.copy(alloc)?)?;
    }
    Ok(())
}

/// Solves each of the metavariables that are left by its constant.
#[tactic(auto, using(crate::proofs::NameSteps::until_start, crate::proofs::NameSteps::until_next))]
fn name_each(store: &mut Store, first: usize, left: &[u32]) -> Result<(), Want>
    requires unsolved { (m : ℕ) → given (additions store.old) m ≡ None }
    ensures named { OnOk result (IsNamedUntil first left.now store.old (length (metas_of store.old)) store.new) }
    ensures wanting { IfErr result IsWant }
{
    let Ok(count) = u32::try_from(store.metas().len()) else {
        return Err(Want::too_far(store.alloc()));
    };
    for meta in 0..count {
        name_one(store, first, left, meta)?;
    }
    Ok(())
}

/// Solves a metavariable by its constant, if it is among those that are left.
#[tactic(auto, using(crate::proofs::NameSteps::named_one, crate::proofs::NameSteps::named_none))]
fn name_one(store: &mut Store, first: usize, left: &[u32], meta: u32) -> Result<(), Want>
    requires there { meta < length (metas_of store.old) }
    requires unsolved { given (additions store.old) meta ≡ None }
    ensures named { OnOk result (NamesOne first left.now meta store.old store.new) }
    ensures wanting { IfErr result IsWant }
{
    match place_of(left, meta) {
        Some(place) => solve_by(store, first, place, meta),
        None => Ok(()),
    }
}

fn place_of(left: &[u32], meta: u32) -> Option<usize>
    ensures { result ≡ position (λ k. k == meta) left.now }
{
    left.iter().position(|other| *other == meta)
}

/// Solves a metavariable by the constant of this number past the first.
fn solve_by(store: &mut Store, first: usize, place: usize, meta: u32) -> Result<(), Want>
    requires there { meta < length (metas_of store.old) }
    requires unsolved { given (additions store.old) meta ≡ None }
    ensures solved { OnOk result (IsSolvedBy store.old meta (first + place) store.new) }
    ensures wanting { IfErr result IsWant }
{
    let alloc = store.alloc();
    let Some(number) = first.checked_add(place) else {
        return Err(Want::too_far(alloc));
    };
    let obj = constant_form(alloc, simple_of_meta(store, meta), number)?;
    store.solve(meta, obj)
}

/// The eta-long form of a constant at a simple type.
#[tactic(auto, using(clf_syntax::specs::Plain::plain_laws))]
fn constant_form(alloc: Global, simple: &Simple, number: usize) -> Result<Obj, Want>
    ensures form { IfOk result
        (λ o. plain_obj o ≡ expansion (plain_simple simple.now) (head_alone (Const number))) }
    ensures wanting { IfErr result IsWant }
{
    let Ok(number) = u32::try_from(number) else {
        return Err(Want::too_far(alloc));
    };
    let neutral = Neutral {
        head: Head::Const(number),
        spine: Items::new(alloc),
    };
    match eta(alloc, simple, &neutral) {
        Ok(obj) => Ok(obj),
        Err(Or::NoMemory) => Err(Want::NoMemory),
        Err(Or::Fault(_)) => Err(Want::too_far(alloc)),
    }
}
