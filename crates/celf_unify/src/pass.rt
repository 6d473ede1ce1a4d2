//! A pass over equations.
ghost use Rattle.std.specs.Prelude.{◌≡◌, map, reverse, IfErr, IfOk};
ghost use Rattle.clf_syntax.specs.Wide.{IsWant};
ghost use Rattle.celf_constraints.specs.Equated.{equations_in, plain_equation};
ghost use Rattle.metavars.specs.Stored.{IsPart, constants, additions};
ghost use Rattle.celf_unify.specs.Passes.{Advances, IsReady, MayAdvance, MayRun, PassEnds, Runs, Works};

use crate::answer::Clash;
use crate::gather::{Gathered, turned};
use crate::put_in::{copy_locals, with_equation};
use crate::search::search;
use crate::step::{Step, take};
use celf_constraints::{Equation, Equations};
use clf_syntax::Want;
use metavars::Store;
use std::alloc::{AllocError, Global};

/// What comes of a pass: something was solved, or nothing was and these equations are left, or a clash.
#[derive(Drop)]
pub enum Pass {
    Again,
    Left(Equations),
    Clash(Clash),
}

/// Takes a step, and goes on with what is still to be looked at.
fn advance(
    alloc: Global,
    store: &mut Store,
    step: Step,
    rest: Vec<Equation>,
) -> Result<Gathered, Want>
    requires may { MayAdvance (constants store.old) (additions store.old) step (map plain_equation rest.items) }
    ensures advanced { IfOk result (λ g. Advances store.old step (map plain_equation rest.items) store.new g) }
    ensures part { IsPart store.old store.new }
    ensures wanting { IfErr result IsWant }
{
    take(store, step)?;
    search(alloc, store, rest)
}

/// Takes steps until the pass is at its end.
fn run(alloc: Global, store: &mut Store, first: Gathered) -> Result<Option<Clash>, Want>
    requires may { MayRun (constants store.old) (additions store.old) first }
    ensures runs { IfOk result (λ end. Runs store.old first store.new end) }
    ensures part { IsPart store.old store.new }
    ensures wanting { IfErr result IsWant }
{
    let mut state = first;
    loop {
        match state {
            Gathered::Left(_left) => return Ok(None),
            Gathered::Clash(clash) => return Ok(Some(clash)),
            Gathered::Step(step, rest) => state = advance(alloc, store, step, rest)?,
        }
    }
}

/// A pass over all equations, in their order.
pub fn one_pass(alloc: Global, store: &mut Store, equations: &Equations) -> Result<Pass, Want>
    requires ready { IsReady store.old (equations_in equations.now) }
    ensures ends { IfOk result (λ pass. PassEnds store.old (equations_in equations.now) store.new pass) }
    ensures part { IsPart store.old store.new }
    ensures wanting { IfErr result IsWant }
{
    let stack = stack_of(alloc, equations.as_slice())?;
    match search(alloc, store, stack)? {
        Gathered::Left(left) => Ok(Pass::Left(left)),
        Gathered::Clash(clash) => Ok(Pass::Clash(clash)),
        Gathered::Step(step, rest) => after(alloc, store, step, rest),
    }
}

/// The equations as a stack, whose last one is the first of them.
fn stack_of(alloc: Global, equations: &[Equation]) -> Result<Vec<Equation>, AllocError>
    ensures { IfOk result (λ stack. map plain_equation stack.items ≡ reverse (map plain_equation equations.now)) }
{
    let mut copies = Vec::new(alloc);
    for equation in equations {
        copies = with_equation(copies, copy(alloc, equation)?)?;
    }
    turned(alloc, copies)
}

/// An equation once more.
fn copy(alloc: Global, equation: &Equation) -> Result<Equation, AllocError>
    ensures { IfOk result (λ copied. plain_equation copied ≡ plain_equation equation.now) }
{
    Ok(Equation {
        locals: copy_locals(alloc, equation.locals.as_slice())?,
        left: equation.left.copy(alloc)?,
        right: equation.right.copy(alloc)?,
        ty: equation.ty.copy(alloc)?,
    })
}

/// The rest of a pass in which something is solved.
fn after(alloc: Global, store: &mut Store, step: Step, rest: Vec<Equation>) -> Result<Pass, Want>
    requires may { MayAdvance (constants store.old) (additions store.old) step (map plain_equation rest.items) }
    ensures works { IfOk result (λ pass. Works store.old step (map plain_equation rest.items) store.new pass) }
    ensures part { IsPart store.old store.new }
    ensures wanting { IfErr result IsWant }
{
    let first = advance(alloc, store, step, rest)?;
    match run(alloc, store, first)? {
        None => Ok(Pass::Again),
        Some(clash) => Ok(Pass::Clash(clash)),
    }
}
