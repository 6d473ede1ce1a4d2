//! Binders' heads in objects become their variables.
ghost use Rattle.std.specs.Prelude.{◌≡◌, IfOk, map};
ghost use Rattle.clf_syntax.specs.Plain.{plain_obj, plain_neutral, plain_elim, plain_expr, plain_step, plain_entry};
ghost use Rattle.celf_front.specs.FrontHeads.{heads_by};
ghost use Rattle.celf_front.specs.Replaced as spec;

use crate::heads::{Front, deeper, front_head};
use clf_syntax::{Elim, Expr, Neutral, Obj, Shortage, Step, TupleEntry};
use sqlite_items::{Boxed, Items};
use std::alloc::Global;

#[cycle(front)]
#[tactic(auto, using(clf_syntax::specs::Plain::plain_laws, crate::proofs::Replacing::replacing_laws))]
pub fn front_object(
    alloc: Global,
    obj: &Obj,
    front: &Front<'_>,
    depth: u64,
) -> Result<Obj, Shortage>
    ensures { IfOk result (λ x. plain_obj x
        ≡ spec.replaced (heads_by front.now) depth (plain_obj obj.now)) }
{
    match obj {
        Obj::Lam { mode, body } => {
            let body = front_object(alloc, body.get(), front, deeper(depth, 1)?)?;
            Ok(Obj::Lam {
                mode: *mode,
                body: Boxed::new(alloc, body)?,
            })
        }
        Obj::Pair { left, right } => {
            let left = front_object(alloc, left.get(), front, depth)?;
            let right = front_object(alloc, right.get(), front, depth)?;
            Ok(Obj::Pair {
                left: Boxed::new(alloc, left)?,
                right: Boxed::new(alloc, right)?,
            })
        }
        Obj::Unit => Ok(Obj::Unit),
        Obj::Mon { expr } => {
            let expr = front_expression(alloc, expr.get(), front, depth)?;
            Ok(Obj::Mon {
                expr: Boxed::new(alloc, expr)?,
            })
        }
        Obj::At { neutral } => Ok(Obj::At {
            neutral: front_neutral(alloc, neutral, front, depth)?,
        }),
        Obj::Hole => Ok(Obj::Hole),
    }
}

#[cycle(front)]
#[tactic(auto, using(clf_syntax::specs::Plain::plain_laws, crate::proofs::Replacing::replacing_laws))]
fn front_neutral(
    alloc: Global,
    neutral: &Neutral,
    front: &Front<'_>,
    depth: u64,
) -> Result<Neutral, Shortage>
    ensures { IfOk result (λ x. plain_neutral x
        ≡ spec.replaced_neutral (heads_by front.now) depth (plain_neutral neutral.now)) }
{
    let head = front_head(neutral.head, front, depth)?;
    let spine = front_spine(alloc, neutral.spine.as_slice(), front, depth)?;
    Ok(Neutral { head, spine })
}

#[cycle(front)]
#[tactic(auto, using(clf_syntax::specs::Plain::plain_laws, crate::proofs::Replacing::replacing_laws))]
fn front_spine(
    alloc: Global,
    spine: &[Elim],
    front: &Front<'_>,
    depth: u64,
) -> Result<Items<Elim>, Shortage>
    ensures { IfOk result (λ es. map plain_elim es
        ≡ map (spec.replaced_elimination (heads_by front.now) depth) (map plain_elim spine.now)) }
{
    let mut placed = Items::new(alloc);
    for act in spine {
        placed.push(front_elimination(alloc, act, front, depth)?)?;
    }
    Ok(placed)
}

#[cycle(front)]
#[tactic(auto, using(clf_syntax::specs::Plain::plain_laws, crate::proofs::Replacing::replacing_laws))]
fn front_elimination(
    alloc: Global,
    act: &Elim,
    front: &Front<'_>,
    depth: u64,
) -> Result<Elim, Shortage>
    ensures { IfOk result (λ x. plain_elim x
        ≡ spec.replaced_elimination (heads_by front.now) depth (plain_elim act.now)) }
{
    match act {
        Elim::Arg { mode, obj } => Ok(Elim::Arg {
            mode: *mode,
            obj: front_object(alloc, obj, front, depth)?,
        }),
        Elim::First => Ok(Elim::First),
        Elim::Second => Ok(Elim::Second),
    }
}

#[cycle(front)]
#[tactic(auto, using(clf_syntax::specs::Plain::plain_laws, crate::proofs::Replacing::replacing_laws))]
fn front_expression(
    alloc: Global,
    expr: &Expr,
    front: &Front<'_>,
    depth: u64,
) -> Result<Expr, Shortage>
    ensures { IfOk result (λ x. plain_expr x
        ≡ spec.replaced_expression (heads_by front.now) depth (plain_expr expr.now)) }
{
    let mut inner = depth;
    let mut steps = Items::new(alloc);
    for step in expr.steps.as_slice() {
        steps.push(front_step(alloc, step, front, inner)?)?;
        inner = deeper(inner, step.modes.len())?;
    }
    let result = front_tuple(alloc, expr.result.as_slice(), front, inner)?;
    Ok(Expr { steps, result })
}

#[cycle(front)]
#[tactic(auto, using(clf_syntax::specs::Plain::plain_laws, crate::proofs::Replacing::replacing_laws))]
fn front_step(alloc: Global, step: &Step, front: &Front<'_>, depth: u64) -> Result<Step, Shortage>
    ensures { IfOk result (λ x. plain_step x
        ≡ spec.replaced_step (heads_by front.now) depth (plain_step step.now)) }
{
    let modes = step.modes.copy(alloc)?;
    Ok(Step {
        modes,
        rhs: front_neutral(alloc, &step.rhs, front, depth)?,
    })
}

#[cycle(front)]
#[tactic(auto, using(clf_syntax::specs::Plain::plain_laws, crate::proofs::Replacing::replacing_laws))]
fn front_tuple(
    alloc: Global,
    tuple: &[TupleEntry],
    front: &Front<'_>,
    depth: u64,
) -> Result<Items<TupleEntry>, Shortage>
    ensures { IfOk result (λ es. map plain_entry es
        ≡ map (spec.replaced_entry (heads_by front.now) depth) (map plain_entry tuple.now)) }
{
    let mut placed = Items::new(alloc);
    for entry in tuple {
        placed.push(front_tuple_entry(alloc, entry, front, depth)?)?;
    }
    Ok(placed)
}

#[cycle(front)]
#[tactic(auto, using(clf_syntax::specs::Plain::plain_laws, crate::proofs::Replacing::replacing_laws))]
fn front_tuple_entry(
    alloc: Global,
    entry: &TupleEntry,
    front: &Front<'_>,
    depth: u64,
) -> Result<TupleEntry, Shortage>
    ensures { IfOk result (λ x. plain_entry x
        ≡ spec.replaced_entry (heads_by front.now) depth (plain_entry entry.now)) }
{
    Ok(TupleEntry {
        mode: entry.mode,
        obj: front_object(alloc, &entry.obj, front, depth)?,
    })
}
