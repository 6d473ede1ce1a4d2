//! The sides of equations, and misfits, as they are told.
ghost use Rattle.std.specs.Prelude.{◌≡◌, map, IfOk, IfErr};
ghost use Rattle.clf_syntax.specs.Plain.{plain_obj};
ghost use Rattle.clf_syntax.specs.Wide.{IsWant};
ghost use Rattle.celf_constraints.specs.Equated.{equations_in, plain_equation};
ghost use Rattle.celf_replies.specs.Reply.{plain_mismatch, plain_sides};
ghost use Rattle.celf_reconstruct.specs.Posed.{sides_of, told};

use celf_conform::Misfit;
use celf_constraints::{Equation, Equations};
use celf_replies::{Mismatch, Sides};
use celf_unify::Clash;
use clf_syntax::{Obj, Want};
use std::alloc::Global;

/// What is told of a misfit.
pub fn mismatch(misfit: Misfit) -> Mismatch
    ensures { plain_mismatch result ≡ told misfit }
{
    match misfit {
        Misfit::NotFunction => Mismatch::NotFunction,
        Misfit::NotPair => Mismatch::NotPair,
        Misfit::NotTop => Mismatch::NotTop,
        Misfit::NotMonad => Mismatch::NotMonad,
        Misfit::NotAtomic => Mismatch::NotAtomic,
        Misfit::NotClosed => Mismatch::NotClosed,
        Misfit::ModeDiffers { .. } => Mismatch::ModeDiffers,
        Misfit::Width { .. } => Mismatch::Width,
        Misfit::FamilyDiffers { found, wanted } => Mismatch::FamilyDiffers { found, wanted },
        Misfit::UnknownHead { .. } => Mismatch::UnknownHead,
        Misfit::FamilyArity { .. } => Mismatch::FamilyArity,
    }
}

/// Two sides under so many variables.
fn sides(alloc: Global, under: usize, left: Obj, right: Obj) -> Result<Sides, Want>
    ensures sides { IfOk result
        (λ s. plain_sides s ≡ record { under = under; left = plain_obj left; right = plain_obj right }) }
    ensures wide { IfErr result IsWant }
{
    match u32::try_from(under) {
        Ok(under) => Ok(Sides { under, left, right }),
        Err(_) => {
            drop(left);
            drop(right);
            Err(Want::too_far(alloc))
        }
    }
}

/// The sides of a clash.
pub fn sides_of_clash(alloc: Global, clash: Clash) -> Result<Sides, Want>
    ensures sides { IfOk result (λ s.
        plain_sides s
        ≡ record { under = clash.under; left = plain_obj clash.left; right = plain_obj clash.right }) }
    ensures wide { IfErr result IsWant }
{
    let Clash { under, left, right } = clash;
    sides(alloc, under, left, right)
}

/// The sides of an equation.
fn sides_of_equation(alloc: Global, equation: &Equation) -> Result<Sides, Want>
    ensures sides { IfOk result (λ s. plain_sides s ≡ sides_of (plain_equation equation.now)) }
    ensures wide { IfErr result IsWant }
{
    let left = equation.left.copy(alloc)?;
    let right = equation.right.copy(alloc)?;
    sides(alloc, equation.locals.len(), left, right)
}

/// The sides of equations.
pub fn sides_of_each(alloc: Global, equations: &Equations) -> Result<Vec<Sides>, Want>
    ensures sides { IfOk result (λ ss. map plain_sides ss.items ≡ map sides_of (equations_in equations.now)) }
    ensures wide { IfErr result IsWant }
{
    let mut all = Vec::new(alloc);
    let items = equations.as_slice();
    for equation in items {
        let sides = sides_of_equation(alloc, equation)?;
        if all.push(sides).is_err() {
            return Err(Want::NoMemory);
        }
    }
    Ok(all)
}
