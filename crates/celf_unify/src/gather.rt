//! Equations are taken apart while the store stays.
ghost use Rattle.std.specs.Prelude.{◌≡◌, [], ◌∷◌, ◌++◌, map, reverse, IfErr, IfOk};
ghost use Rattle.clf_syntax.specs.Wide.{IsWant};
ghost use Rattle.celf_constraints.specs.Equated.{equations_in, plain_equation};
ghost use Rattle.celf_unify.specs.Gathered.{IsTyped, Gathers};

use crate::answer::Clash;
use crate::examine::{Examined, examine};
use crate::put_in::with_equation;
use crate::step::Step;
use celf_constraints::{Equation, Equations};
use clf_syntax::Want;
use metavars::Store;
use std::alloc::{AllocError, Global};

/// What comes of equations: those that are left, a clash, or a step with the stack of those that are still to be looked at.
#[derive(Drop)]
pub enum Gathered {
    Left(Equations),
    Clash(Clash),
    Step(Step, Vec<Equation>),
}

/// Takes the equations of a stack apart, the last one first and the parts of one from left to right, until a step can be
/// taken. No solution is put in.
pub fn gather(alloc: Global, store: &Store, work: Vec<Equation>) -> Result<Gathered, Want>
    requires typed { IsTyped store.now (map plain_equation work.items) }
    ensures gathered { IfOk result (λ g. Gathers store.now (map plain_equation work.items) g) }
    ensures wanting { IfErr result IsWant }
{
    let mut work = work;
    let mut left = Equations::new(alloc);
    while let Some(equation) = work.pop() {
        match examine(alloc, store, equation)? {
            Examined::Parts(parts) => work = with_each(work, parts)?,
            Examined::Left(equation) => left = with_left(left, equation)?,
            Examined::Clash(clash) => return Ok(Gathered::Clash(clash)),
            Examined::Step(step, equation) => {
                return Ok(Gathered::Step(step, with_equation(work, equation)?));
            }
        }
    }
    Ok(Gathered::Left(left))
}

/// Equations from the last one to the first.
pub fn turned(alloc: Global, equations: Vec<Equation>) -> Result<Vec<Equation>, AllocError>
    ensures { IfOk result (λ all. map plain_equation all.items ≡ reverse (map plain_equation equations.items)) }
{
    let mut rest = equations;
    let mut all = Vec::new(alloc);
    while let Some(equation) = rest.pop() {
        all = with_equation(all, equation)?;
    }
    Ok(all)
}

/// More equations.
pub fn with_each(
    equations: Vec<Equation>,
    parts: Vec<Equation>,
) -> Result<Vec<Equation>, AllocError>
    ensures { IfOk result (λ more. map plain_equation more.items
        ≡ map plain_equation equations.items ++ map plain_equation parts.items) }
{
    let mut more = equations;
    for part in parts {
        more = with_equation(more, part)?;
    }
    Ok(more)
}

/// One more equation that is left.
pub fn with_left(left: Equations, equation: Equation) -> Result<Equations, AllocError>
    ensures { IfOk result (λ more. equations_in more ≡ equations_in left ++ plain_equation equation ∷ []) }
{
    let mut more = left;
    more.push(equation)?;
    Ok(more)
}
