//! Equations are looked at one after another while the store stays, each with all solutions put in.
ghost use Rattle.std.specs.Prelude.{◌≡◌, [], ◌∷◌, ◌++◌, map, IfErr, IfOk};
ghost use Rattle.clf_syntax.specs.Wide.{IsWant};
ghost use Rattle.celf_constraints.specs.Equated.{equations_in, plain_equation};
ghost use Rattle.metavars.specs.Stored.{constants, additions};
ghost use Rattle.celf_unify.specs.Searched.{FlatSearches, GathersOnce, Searches};
ghost use Rattle.celf_unify.specs.Passes.{IsReady, MayRun};

use crate::gather::{Gathered, gather, with_each, with_left};
use crate::put_in::{put_in, with_equation};
use celf_constraints::{Equation, Equations};
use clf_syntax::Want;
use metavars::Store;
use std::alloc::{AllocError, Global};

/// Looks at the equations of a stack, the last one first, until a step can be taken. Solutions are put into an equation
/// when it is taken from the stack, so a step costs nothing for those that lie below.
pub fn search(alloc: Global, store: &Store, stack: Vec<Equation>) -> Result<Gathered, Want>
    requires ready { IsReady store.now (map plain_equation stack.items) }
    ensures searched { IfOk result (λ g. Searches store.now (map plain_equation stack.items) g) }
    ensures may { IfOk result (λ g. MayRun (constants store.now) (additions store.now) g) }
    ensures flat { IfOk result (λ g. FlatSearches store.now (map plain_equation stack.items) g) }
    ensures wanting { IfErr result IsWant }
{
    let mut work = stack;
    let mut left = Equations::new(alloc);
    while let Some(equation) = work.pop() {
        match gather_one(alloc, store, equation)? {
            Gathered::Left(more) => left = with_all(left, more)?,
            Gathered::Clash(clash) => return Ok(Gathered::Clash(clash)),
            Gathered::Step(step, rest) => return Ok(Gathered::Step(step, with_each(work, rest)?)),
        }
    }
    Ok(Gathered::Left(left))
}

/// Takes one equation apart, with all solutions put in.
fn gather_one(alloc: Global, store: &Store, equation: Equation) -> Result<Gathered, Want>
    requires ready { IsReady store.now (plain_equation equation ∷ []) }
    ensures once { IfOk result (λ g. GathersOnce store.now (plain_equation equation) g) }
    ensures wanting { IfErr result IsWant }
{
    let put = put_in(alloc, store, &equation)?;
    drop(equation);
    let work = with_equation(Vec::new(alloc), put)?;
    gather(alloc, store, work)
}

/// More equations that are left.
fn with_all(left: Equations, more: Equations) -> Result<Equations, AllocError>
    ensures { IfOk result (λ all. equations_in all ≡ equations_in left ++ equations_in more) }
{
    let mut all = left;
    for equation in more.into_vec() {
        all = with_left(all, equation)?;
    }
    Ok(all)
}
