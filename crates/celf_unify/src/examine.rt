//! One equation is looked at.
ghost use Rattle.std.specs.Prelude.{◌≡◌, [], ◌∷◌, IfErr, IfOk, length};
ghost use Rattle.clf_syntax.specs.Wide.{IsWant};
ghost use Rattle.celf_constraints.specs.Equated.{plain_equation};
ghost use Rattle.solver_laws.specs.Steps.{flipped};
ghost use Rattle.metavars.specs.Stored.{Stored};
ghost use Rattle.celf_unify.specs.Gathered.{IsTyped};
ghost use Rattle.celf_unify.specs.Examined.{Examines};
ghost use Rattle.celf_unify.specs.Judged.{Judges, NotReached};
ghost use Rattle.celf_unify.specs.Sided.{IsPosed};

use crate::answer::Clash;
use crate::apart::take_apart;
use crate::side::{Sided, from_side, meta_head};
use crate::step::Step;
use crate::verdict::Verdict;
use celf_constraints::Equation;
use clf_syntax::Want;
use metavars::Store;
use std::alloc::Global;
use trace_equal::equal;

/// What comes of an equation: its parts, the last one first, which are none where its sides are joined; itself, where it
/// is stuck; a clash; or a step that it allows.
#[derive(Drop)]
pub enum Examined {
    Parts(Vec<Equation>),
    Left(Equation),
    Clash(Clash),
    Step(Step, Equation),
}

/// Looks at an equation.
pub fn examine(alloc: Global, store: &Store, equation: Equation) -> Result<Examined, Want>
    requires typed { IsTyped store.now (plain_equation equation ∷ []) }
    ensures examined { IfOk result (λ x. Examines store.now (plain_equation equation) x) }
    ensures wanting { IfErr result IsWant }
{
    let verdict = judge(alloc, store, &equation)?;
    Ok(after(verdict, equation))
}

/// What comes of the equation after the verdict.
fn after(verdict: Verdict, equation: Equation) -> Examined
    ensures { (s : Stored) → Judges s (plain_equation equation) verdict
        → Examines s (plain_equation equation) result }
{
    match verdict {
        Verdict::Parts(parts) => {
            drop(equation);
            Examined::Parts(parts)
        }
        Verdict::Left => Examined::Left(equation),
        Verdict::Clash => Examined::Clash(clash_of(equation)),
        Verdict::Step(step) => Examined::Step(step, equation),
    }
}

/// The sides, and how many locals are around them.
fn clash_of(equation: Equation) -> Clash
    ensures under { result.under ≡ length equation.locals.items }
    ensures left { result.left ≡ equation.left }
    ensures right { result.right ≡ equation.right }
{
    let Equation {
        locals,
        left,
        right,
        ty: _,
    } = equation;
    let under = locals.len();
    Clash { under, left, right }
}

/// Judges an equation. One whose sides are joined is done with.
fn judge(alloc: Global, store: &Store, equation: &Equation) -> Result<Verdict, Want>
    requires typed { IsTyped store.now (plain_equation equation.now ∷ []) }
    ensures judged { IfOk result (λ v. Judges store.now (plain_equation equation.now) v) }
    ensures wanting { IfErr result IsWant }
{
    if equal(alloc, &equation.left, &equation.right)? {
        return Ok(Verdict::Parts(Vec::new(alloc)));
    }
    look(store, equation)
}

/// Looks at the equation from its left side.
fn look(store: &Store, equation: &Equation) -> Result<Verdict, Want>
    requires posed { IsPosed store.now (plain_equation equation.now) }
    ensures judged { IfOk result (λ v. Judges store.now (plain_equation equation.now) v) }
    ensures wanting { IfErr result IsWant }
{
    let locals = equation.locals.as_slice();
    match from_side(store, locals, &equation.ty, &equation.left, &equation.right)? {
        Sided::Nothing => look_back(store, equation),
        Sided::Clash => Ok(Verdict::Clash),
        Sided::Step(step) => Ok(Verdict::Step(step)),
    }
}

/// Looks at the equation from its right side.
fn look_back(store: &Store, equation: &Equation) -> Result<Verdict, Want>
    requires posed { IsPosed store.now (plain_equation equation.now) }
    requires left { NotReached store.now (plain_equation equation.now) }
    ensures judged { IfOk result (λ v. Judges store.now (plain_equation equation.now) v) }
    ensures wanting { IfErr result IsWant }
{
    let locals = equation.locals.as_slice();
    match from_side(store, locals, &equation.ty, &equation.right, &equation.left)? {
        Sided::Nothing => look_inside(store, equation),
        Sided::Clash => Ok(Verdict::Clash),
        Sided::Step(step) => Ok(Verdict::Step(step)),
    }
}

/// Looks at the equation, whose sides do not reach each other.
fn look_inside(store: &Store, equation: &Equation) -> Result<Verdict, Want>
    requires posed { IsPosed store.now (plain_equation equation.now) }
    requires left { NotReached store.now (plain_equation equation.now) }
    requires right { NotReached store.now (flipped (plain_equation equation.now)) }
    ensures judged { IfOk result (λ v. Judges store.now (plain_equation equation.now) v) }
    ensures wanting { IfErr result IsWant }
{
    match meta_head(&equation.left) {
        Some(_) => Ok(Verdict::Left),
        None => match meta_head(&equation.right) {
            Some(_) => Ok(Verdict::Left),
            None => take_apart(store, equation),
        },
    }
}
