//! Whether an equation is stuck.
ghost use Rattle.std.specs.Prelude.{◌≡◌, ◌↔◌, ◌⊎◌, IfErr, IfOk, IsTrue, true};
ghost use Rattle.clf_syntax.specs.Plain.{plain_obj};
ghost use Rattle.clf_syntax.specs.PlainSimple.{plain_simple};
ghost use Rattle.celf_constraints.specs.Equated.{plain_equation, plain_locals};
ghost use Rattle.pattern_laws.specs.Equations.{TypedEquation};
ghost use Rattle.reach_laws.specs.Reach.{Stuck};
ghost use Rattle.celf_reach.specs.Answered.{heads_of, types_in};
ghost use Rattle.celf_reach.specs.Limits.{EitherTooFar};
ghost use Rattle.celf_reach.specs.Mentioned as mentioned;
ghost use Rattle.celf_reach.specs.Passed.{PassesEither, PassesFor};
ghost use Rattle.celf_reach.specs.Stuckness as spec;

use crate::answer::Reach;
use crate::mentioned::{is_meta, mentions_some};
use crate::search::reach;
use crate::tables::Tables;
use celf_constraints::Equation;
use clf_syntax::{Obj, Or, Simple, TooFar};
use std::alloc::Global;

/// Whether the equation is stuck: a metavariable is the head of a side, and neither side reaches the other; or both
/// sides are monadic objects, and a metavariable is left. The tables have the simple types of constants and
/// metavariables.
pub fn stuck(
    alloc: Global,
    consts: &[Simple],
    metas: &[Simple],
    equation: &Equation,
) -> Result<bool, Or<TooFar>>
    ensures exact { IfOk result (λ b.
        TypedEquation (types_in consts.now) (types_in metas.now) (plain_equation equation.now)
        → (IsTrue b ↔ Stuck (types_in consts.now) (types_in metas.now) (plain_equation equation.now))) }
    ensures too_far { IfErr result (λ e.
        TypedEquation (types_in consts.now) (types_in metas.now) (plain_equation equation.now)
        → EitherTooFar (heads_of consts.now metas.now) (plain_equation equation.now) e) }
{
    let tables = Tables {
        consts,
        metas,
        locals: equation.locals.as_slice(),
    };
    if has_flexible(&equation.left, &equation.right) {
        are_apart(
            alloc,
            &tables,
            &equation.ty,
            &equation.left,
            &equation.right,
        )
    } else {
        Ok(are_left_monadic(&equation.left, &equation.right))
    }
}

/// Whether a metavariable is the head of one of the sides.
fn has_flexible(left: &Obj, right: &Obj) -> bool
    ensures { IsTrue result
        ↔ ((spec.is_flexible (plain_obj left.now) ≡ true) ⊎ (spec.is_flexible (plain_obj right.now) ≡ true)) }
{
    is_flexible(left) || is_flexible(right)
}

/// Whether the head is a metavariable.
#[tactic(auto, using(clf_syntax::specs::Plain::plain_laws, clf_simple::proofs::Lists::neutral_head))]
fn is_flexible(obj: &Obj) -> bool
    ensures { result ≡ spec.is_flexible (plain_obj obj.now) }
{
    match obj {
        Obj::At { neutral } => is_meta(neutral.head),
        Obj::Lam { .. } | Obj::Pair { .. } | Obj::Unit | Obj::Mon { .. } | Obj::Hole => false,
    }
}

#[tactic(auto, using(clf_syntax::specs::Plain::plain_laws))]
fn is_monadic(obj: &Obj) -> bool
    ensures { result ≡ spec.is_monadic (plain_obj obj.now) }
{
    match obj {
        Obj::Mon { expr: _ } => true,
        Obj::Lam { .. } | Obj::Pair { .. } | Obj::Unit | Obj::At { .. } | Obj::Hole => false,
    }
}

/// Whether both sides are monadic objects, and a metavariable is left.
fn are_left_monadic(left: &Obj, right: &Obj) -> bool
    ensures { IsTrue result
        ↔ ((spec.is_monadic (plain_obj left.now) ≡ true) × (spec.is_monadic (plain_obj right.now) ≡ true)
        × ((mentioned.mentions_some (plain_obj left.now) ≡ true)
        ⊎ (mentioned.mentions_some (plain_obj right.now) ≡ true))) }
{
    is_monadic(left) && is_monadic(right) && (mentions_some(left) || mentions_some(right))
}

/// Whether neither side reaches the other.
fn are_apart(
    alloc: Global,
    tables: &Tables<'_>,
    ty: &Simple,
    left: &Obj,
    right: &Obj,
) -> Result<bool, Or<TooFar>>
    ensures exact { IfOk result
        (spec.SaysApart (heads_of tables.now.consts.now tables.now.metas.now)
        (plain_locals tables.now.locals.now) (plain_simple ty.now) (plain_obj left.now) (plain_obj right.now)) }
    ensures too_far { IfErr result (PassesEither (heads_of tables.now.consts.now tables.now.metas.now)
        (plain_locals tables.now.locals.now) (plain_simple ty.now) (plain_obj left.now) (plain_obj right.now)) }
{
    if reaches(alloc, tables, ty, left, right)? {
        return Ok(false);
    }
    Ok(!reaches(alloc, tables, ty, right, left)?)
}

/// Whether the side reaches the other one.
fn reaches(
    alloc: Global,
    tables: &Tables<'_>,
    ty: &Simple,
    side: &Obj,
    other: &Obj,
) -> Result<bool, Or<TooFar>>
    ensures exact { IfOk result
        (spec.SaysReach (heads_of tables.now.consts.now tables.now.metas.now)
        (plain_locals tables.now.locals.now) (plain_simple ty.now) (plain_obj side.now) (plain_obj other.now)) }
    ensures too_far { IfErr result (PassesFor tables.now (plain_simple ty.now) (plain_obj other.now)) }
{
    let answer = reach(
        alloc,
        tables.consts,
        tables.metas,
        tables.locals,
        ty,
        side,
        other,
    )?;
    Ok(is_in_reach(answer))
}

/// Whether the answer says that the other side is in reach.
fn is_in_reach(answer: Reach<'_>) -> bool
    ensures { result ≡ spec.is_in_reach answer.entry }
{
    match answer {
        Reach::No => false,
        Reach::Clash | Reach::Same { .. } | Reach::Prune { .. } | Reach::Assign(_) => true,
    }
}
