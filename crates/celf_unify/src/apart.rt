//! Equations whose sides have no metavariable as head are taken apart.
ghost use Rattle.std.specs.Prelude.{◌≡◌, ◌↔◌, ℕ, IfErr, IfOk, IsTrue, map};
ghost use Rattle.std.specs.List.{slice_get};
ghost use Rattle.std.specs.Option.{option_map};
ghost use Rattle.clf_syntax.specs.PlainSimple.{plain_simple};
ghost use Rattle.clf_syntax.specs.TypeTree.{SimpleTelescope, base, lax};
ghost use Rattle.clf_syntax.specs.Wide.{IsWant};
ghost use Rattle.pattern_laws.specs.Equations.{Locals, scoped};
ghost use Rattle.pattern_laws.specs.Instantiations.{closed};
ghost use Rattle.clf_simple.specs.Scope.{scope};
ghost use Rattle.celf_constraints.specs.Equated.{plain_equation};
ghost use Rattle.celf_unify.specs.Gathered.{consts_in, metas_in};
ghost use Rattle.celf_unify.specs.Judged.{IsRigid, Judges};

use crate::parts::{lambda_parts, neutral_of, pair_parts};
use crate::places::want_of;
use crate::spines::argument_parts;
use crate::verdict::Verdict;
use celf_constraints::{Equation, scope_of};
use celf_reach::stuck;
use clf_syntax::{Head, Simple, Want};
use metavars::Store;

/// What comes of an equation whose sides have no metavariable as head.
#[tactic(auto, using(clf_syntax::specs::PlainSimple::plain_simple_laws))]
pub fn take_apart(store: &Store, equation: &Equation) -> Result<Verdict, Want>
    requires rigid { IsRigid store.now (plain_equation equation.now) }
    ensures judged { IfOk result (λ v. Judges store.now (plain_equation equation.now) v) }
    ensures wanting { IfErr result IsWant }
{
    let alloc = store.alloc();
    match &equation.ty {
        Simple::Fun { mode, dom, cod } => Ok(Verdict::Parts(lambda_parts(
            alloc,
            equation,
            *mode,
            dom.get(),
            cod.get(),
        )?)),
        Simple::With { left, right } => {
            Ok(Verdict::Parts(pair_parts(alloc, equation, left.get(), right.get())?))
        }
        Simple::Atom(_) => neutrals(store, equation),
        Simple::Monad { .. } => monads(store, equation),
        Simple::Top => unreachable!(),
    }
}

/// The same at a monad: where a metavariable is left, the equation is stuck.
fn monads(store: &Store, equation: &Equation) -> Result<Verdict, Want>
    requires rigid { IsRigid store.now (plain_equation equation.now) }
    requires monad { (ts : SimpleTelescope) × (plain_simple equation.now.ty ≡ lax ts) }
    ensures judged { IfOk result (λ v. Judges store.now (plain_equation equation.now) v) }
    ensures wanting { IfErr result IsWant }
{
    let alloc = store.alloc();
    match stuck(alloc, store.consts(), store.metas(), equation) {
        Ok(true) => Ok(Verdict::Left),
        Ok(false) => Ok(Verdict::Clash),
        Err(fault) => Err(want_of(alloc, fault)),
    }
}

/// The same at a family.
fn neutrals(store: &Store, equation: &Equation) -> Result<Verdict, Want>
    requires rigid { IsRigid store.now (plain_equation equation.now) }
    requires family { (f : ℕ) × (plain_simple equation.now.ty ≡ base f) }
    ensures judged { IfOk result (λ v. Judges store.now (plain_equation equation.now) v) }
    ensures wanting { IfErr result IsWant }
{
    let alloc = store.alloc();
    let locals = equation.locals.as_slice();
    let left = neutral_of(&equation.left);
    let right = neutral_of(&equation.right);
    if !is_same_head(left.head, right.head) {
        return Ok(Verdict::Clash);
    }
    let types = scope_of(alloc, locals)?;
    match head_type(store, types.as_slice(), left.head) {
        None => unreachable!(),
        Some(ty) => {
            match argument_parts(
                alloc,
                locals,
                left.spine.as_slice(),
                right.spine.as_slice(),
                ty,
            )? {
                None => Ok(Verdict::Clash),
                Some(parts) => Ok(Verdict::Parts(parts)),
            }
        }
    }
}

/// Whether the heads are the same.
fn is_same_head(head: Head, other: Head) -> bool
    ensures { IsTrue result ↔ (head ≡ other) }
{
    match head {
        Head::Const(place) => match other {
            Head::Const(second) => place == second,
            Head::Var(_) | Head::Meta(_) => false,
        },
        Head::Var(index) => match other {
            Head::Var(second) => index == second,
            Head::Const(_) | Head::Meta(_) => false,
        },
        Head::Meta(meta) => match other {
            Head::Meta(second) => meta == second,
            Head::Const(_) | Head::Var(_) => false,
        },
    }
}

/// The simple type of a head, where `types` has those of the locals, the oldest first.
fn head_type<'a>(store: &'a Store, types: &[&'a Simple], head: Head) -> Option<&'a Simple>
    ensures { (ls : Locals) → scope types.now ≡ map (λ l. l.1) ls
        → option_map (λ t. plain_simple t.now) result
        ≡ scoped ls (closed (consts_in store.now) (metas_in store.now)) head }
{
    match head {
        Head::Const(place) => type_at(store.consts(), place),
        Head::Meta(meta) => type_at(store.metas(), meta),
        Head::Var(index) => local_type(types, index),
    }
}

/// The simple type at a place of a table.
fn type_at<'a>(types: &'a [Simple], place: u32) -> Option<&'a Simple>
    ensures { option_map (λ t. plain_simple t.now) result ≡ slice_get (map plain_simple types.now) place }
{
    types.get(place as usize)
}

/// The simple type of a local: the newest one is the last.
fn local_type<'a>(types: &[&'a Simple], index: u32) -> Option<&'a Simple>
    ensures { option_map (λ t. plain_simple t.now) result ≡ slice_get (scope types.now) index }
{
    let index = index as usize;
    if index < types.len() {
        Some(types[types.len() - 1 - index])
    } else {
        None
    }
}
