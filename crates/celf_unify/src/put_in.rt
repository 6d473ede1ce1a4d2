//! All solutions put into an equation.
ghost use Rattle.std.specs.Prelude.{◌≡◌, [], ◌∷◌, ◌++◌, map, IfErr, IfOk};
ghost use Rattle.clf_syntax.specs.Wide.{IsWant};
ghost use Rattle.celf_constraints.specs.Equated.{plain_equation};
ghost use Rattle.metavars.specs.Stored.{additions};
ghost use Rattle.clf_syntax.specs.Plain.{plain_obj};
ghost use Rattle.hered_subst.specs.Substitution.{Substituted};
ghost use Rattle.subst_laws.specs.Environments.{Instantiation, instant};
ghost use Rattle.store_laws.specs.Additions.{given};
ghost use Rattle.store_laws.specs.PutIn.{PutIn, IsClosed};
ghost use Rattle.celf_unify.specs.Steps.{IsPutIn, IsTypedThere};
ghost use Rattle.celf_unify.specs.Passes.{IsReady};

use celf_constraints::Equation;
use clf_syntax::{Obj, OrWide, SimpleEntry, Want};
use metavars::Store;
use std::alloc::{AllocError, Global};

/// One equation more.
pub fn with_equation(
    equations: Vec<Equation>,
    equation: Equation,
) -> Result<Vec<Equation>, AllocError>
    ensures { IfOk result (λ more.
        map plain_equation more.items ≡ map plain_equation equations.items ++ plain_equation equation ∷ []) }
{
    let mut more = equations;
    more.push(equation)?;
    Ok(more)
}

/// An equation with all solutions put in.
pub fn put_in(alloc: Global, store: &Store, equation: &Equation) -> Result<Equation, Want>
    requires ready { IsReady store.now (plain_equation equation.now ∷ []) }
    ensures put_in { IfOk result
        (λ e. IsPutIn (additions store.now) (plain_equation equation.now) (plain_equation e)) }
    ensures wanting { IfErr result IsWant }
{
    Ok(Equation {
        locals: copy_locals(alloc, equation.locals.as_slice())?,
        left: with_solutions(store, &equation.left)?,
        right: with_solutions(store, &equation.right)?,
        ty: equation.ty.copy(alloc)?,
    })
}

/// An object with all solutions put in.
fn with_solutions(store: &Store, obj: &Obj) -> Result<Obj, Want>
    requires typed { IsTypedThere store.now (plain_obj obj.now) }
    ensures put_in { IfOk result (λ x.
        (s : Instantiation) → PutIn (given (additions store.now)) s →
        IsClosed s → Substituted (instant s) (plain_obj obj.now) (plain_obj x)) }
    ensures wanting { IfErr result IsWant }
{
    match store.instantiate(obj) {
        Ok(instance) => Ok(instance),
        Err(OrWide::Fault(_)) => unreachable!(),
        Err(OrWide::NoMemory) => Err(Want::NoMemory),
        Err(OrWide::TooFar(wide)) => Err(Want::TooFar(wide)),
    }
}

/// Locals are copied.
pub fn copy_locals(alloc: Global, locals: &[SimpleEntry]) -> Result<Vec<SimpleEntry>, AllocError>
    ensures { IfOk result (λ copied. copied.items ≡ locals.now) }
{
    let mut copied = Vec::new(alloc);
    for local in locals {
        copied.push(local.copy(alloc)?)?;
    }
    Ok(copied)
}
