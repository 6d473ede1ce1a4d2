//! Equations are tested, and solved where they are typed: the call asks for that.
ghost use Rattle.std.specs.Prelude.{◌↔◌, IfOk, IsTrue, OnOk, map};
ghost use Rattle.clf_syntax.specs.Plain.{plain_obj};
ghost use Rattle.clf_syntax.specs.PlainSimple.{plain_simple};
ghost use Rattle.clf_syntax.specs.Simple.{SimplyTyped};
ghost use Rattle.pattern_laws.specs.Equations.{TypedEquation, TypedEquations, scoped};
ghost use Rattle.pattern_laws.specs.Instantiations.{closed};
ghost use Rattle.pattern_laws.specs.Patterns.{HasFinalResult};
ghost use Rattle.celf_constraints.specs.Equated.{equations_in, plain_equation, plain_locals};
ghost use Rattle.metavars.specs.Stored.{additions};
ghost use Rattle.celf_unify.specs.Gathered.{consts_in, metas_in};
ghost use Rattle.celf_unify.specs.Passes.{IsReady};
ghost use Rattle.unify_tests.specs.Started.{AllFinal, HasNoSolution};

use celf_constraints::{Equation, Equations};
use celf_unify::{Unified, unify};
use clf_simple::simply_typed;
use clf_syntax::{Obj, Simple, Want};
use metavars::Store;
use std::alloc::{AllocError, Global};

/// A store after a call, and what the call answered.
#[derive(Drop)]
pub struct Outcome {
    pub store: Store,
    pub answer: Unified,
}

/// What comes of the equations over these constants and metavariables, where all is typed.
pub fn solved(
    alloc: Global,
    consts: &[Simple],
    metas: &[Simple],
    given: &Equations,
) -> Option<Outcome> {
    match store_of(alloc, consts, metas) {
        Ok(store) => tested(alloc, store, given),
        Err(_want) => None,
    }
}

/// The same, in a store without solutions.
fn tested(alloc: Global, store: Store, given: &Equations) -> Option<Outcome>
    requires none { HasNoSolution (additions store) }
{
    let mut store = store;
    match are_ready(alloc, &store, given) {
        Ok(true) => {}
        _ => return None,
    }
    let answer = unify(alloc, &mut store, given).ok()?;
    Some(Outcome { store, answer })
}

/// A store with these metavariables.
fn store_of(alloc: Global, consts: &[Simple], metas: &[Simple]) -> Result<Store, Want>
    ensures { IfOk result (λ store. HasNoSolution (additions store)) }
{
    let mut store = Store::new(alloc, consts)?;
    for ty in metas {
        add(&mut store, ty)?;
    }
    Ok(store)
}

/// One metavariable more.
fn add(store: &mut Store, ty: &Simple) -> Result<(), Want>
    ensures { OnOk result (HasNoSolution (additions store.old) → HasNoSolution (additions store.new)) }
{
    let ty = ty.copy(store.alloc())?;
    store.new_meta(ty)?;
    Ok(())
}

/// Whether all is typed, in a store without solutions.
fn are_ready(alloc: Global, store: &Store, given: &Equations) -> Result<bool, AllocError>
    requires none { HasNoSolution (additions store.now) }
    ensures { IfOk result (λ b. IsTrue b → IsReady store.now (equations_in given.now)) }
{
    if !have_final_results(store.metas()) {
        return Ok(false);
    }
    are_typed(alloc, store, given.as_slice())
}

fn are_typed(alloc: Global, store: &Store, given: &[Equation]) -> Result<bool, AllocError>
    ensures { IfOk result (λ b. IsTrue b →
        TypedEquations (consts_in store.now) (metas_in store.now) (map plain_equation given.now)) }
{
    for equation in given {
        if !is_typed(alloc, store, equation)? {
            return Ok(false);
        }
    }
    Ok(true)
}

fn is_typed(alloc: Global, store: &Store, equation: &Equation) -> Result<bool, AllocError>
    ensures { IfOk result (λ b. IsTrue b →
        TypedEquation (consts_in store.now) (metas_in store.now) (plain_equation equation.now)) }
{
    if !has_type(alloc, store, equation, &equation.left)? {
        return Ok(false);
    }
    has_type(alloc, store, equation, &equation.right)
}

/// Whether the side has the equation's type.
fn has_type(
    alloc: Global,
    store: &Store,
    equation: &Equation,
    side: &Obj,
) -> Result<bool, AllocError>
    ensures { IfOk result (λ b. IsTrue b → SimplyTyped
        (scoped (plain_locals equation.now.locals.items) (closed (consts_in store.now) (metas_in store.now)))
        (plain_obj side.now) (plain_simple equation.now.ty)) }
{
    let locals = equation.locals.as_slice();
    simply_typed(
        alloc,
        store.consts(),
        store.metas(),
        locals,
        side,
        &equation.ty,
    )
}

/// Whether each metavariable's result is a family or a monad.
fn have_final_results(types: &[Simple]) -> bool
    ensures { IsTrue result → AllFinal (map plain_simple types.now) }
{
    for ty in types {
        if !has_final_result(ty) {
            return false;
        }
    }
    true
}

/// Whether the result is a family or a monad.
#[cycle(result)]
#[tactic(auto, using(clf_syntax::specs::PlainSimple::plain_simple_laws))]
fn has_final_result(ty: &Simple) -> bool
    ensures { IsTrue result ↔ HasFinalResult (plain_simple ty.now) }
{
    match ty {
        Simple::Atom(_) | Simple::Monad { .. } => true,
        Simple::Fun {
            mode: _,
            dom: _,
            cod,
        } => has_final_result(cod.get()),
        Simple::With { .. } | Simple::Top => false,
    }
}
