//! Whether a marked local occurs.
ghost use Rattle.std.specs.Prelude.{◌≡◌, ℕ, IfOk, map, nat_eq};
ghost use Rattle.std.specs.List.{list_any};
ghost use Rattle.clf_syntax.specs.Plain.{plain_obj, plain_neutral, plain_elim, plain_expr, plain_entry};
ghost use Rattle.clf_syntax.specs.Tree.{tuple_of};
ghost use Rattle.clf_syntax.specs.Occurs.{occurs as occurs_of};
ghost use Rattle.pattern_laws.specs.Patterns.{mask_at};
ghost use Rattle.reach_walk.specs.Marks as spec;

use clf_syntax::{Elim, Expr, Head, Neutral, Obj, TupleEntry, deeper};
use std::alloc::{AllocError, Global};

/// Whether a place of the marks is marked.
pub fn mark_at(marks: &[bool], place: u64) -> bool
    ensures { result ≡ mask_at marks.now place }
{
    if place < marks.len() as u64 {
        marks[place as usize]
    } else {
        false
    }
}

/// Whether the head is a marked local, under so many binders.
pub fn is_marked(marks: &[bool], depth: u64, head: Head) -> bool
    ensures { result ≡ spec.is_marked marks.now depth head }
{
    match head {
        Head::Const(_) | Head::Meta(_) => false,
        Head::Var(index) => {
            depth <= u64::from(index) && mark_at(marks, u64::from(index) - depth)
        }
    }
}

/// Whether a marked local occurs in the object, under so many binders. It fails only where memory runs out.
#[cycle(marked)]
#[tactic(auto, using(clf_syntax::specs::Plain::plain_laws, crate::proofs::Spines::marked_laws))]
pub fn marked_in(marks: &[bool], depth: u64, obj: &Obj) -> Result<bool, AllocError>
    ensures { IfOk result (λ b. b ≡ spec.marked_in marks.now depth (plain_obj obj.now)) }
{
    match obj {
        Obj::Lam { mode: _, body } => marked_in(marks, deeper(depth, 1)?, body.get()),
        Obj::Pair { left, right } => {
            let found = marked_in(marks, depth, left.get())?;
            if found {
                return Ok(true);
            }
            marked_in(marks, depth, right.get())
        }
        Obj::Unit | Obj::Hole => Ok(false),
        Obj::Mon { expr } => marked_in_expression(marks, depth, expr.get()),
        Obj::At { neutral } => marked_in_neutral(marks, depth, neutral),
    }
}

#[cycle(marked)]
#[tactic(auto, using(clf_syntax::specs::Plain::plain_laws, crate::proofs::Spines::marked_laws))]
fn marked_in_neutral(marks: &[bool], depth: u64, neutral: &Neutral) -> Result<bool, AllocError>
    ensures { IfOk result (λ b. b ≡ spec.marked_in_neutral marks.now depth (plain_neutral neutral.now)) }
{
    if is_marked(marks, depth, neutral.head) {
        return Ok(true);
    }
    marked_in_spine(marks, depth, neutral.spine.as_slice())
}

#[cycle(marked)]
#[tactic(auto, using(clf_syntax::specs::Plain::plain_laws, crate::proofs::Spines::marked_laws))]
fn marked_in_spine(marks: &[bool], depth: u64, spine: &[Elim]) -> Result<bool, AllocError>
    ensures { IfOk result
        (λ b. b ≡ list_any (spec.marked_in_elimination marks.now depth) (map plain_elim spine.now)) }
{
    for act in spine {
        let found = marked_in_elimination(marks, depth, act)?;
        if found {
            return Ok(true);
        }
    }
    Ok(false)
}

#[cycle(marked)]
#[tactic(auto, using(clf_syntax::specs::Plain::plain_laws))]
fn marked_in_elimination(marks: &[bool], depth: u64, act: &Elim) -> Result<bool, AllocError>
    ensures { IfOk result (λ b. b ≡ spec.marked_in_elimination marks.now depth (plain_elim act.now)) }
{
    match act {
        Elim::Arg { mode: _, obj } => marked_in(marks, depth, obj),
        Elim::First | Elim::Second => Ok(false),
    }
}

#[cycle(marked)]
#[tactic(auto, using(clf_syntax::specs::Plain::plain_laws))]
fn marked_in_expression(marks: &[bool], depth: u64, expr: &Expr) -> Result<bool, AllocError>
    ensures { IfOk result (λ b. b ≡ spec.marked_in_expression marks.now depth (plain_expr expr.now)) }
{
    let mut inner = depth;
    for step in expr.steps.as_slice() {
        let found = marked_in_neutral(marks, inner, &step.rhs)?;
        if found {
            return Ok(true);
        }
        inner = deeper(inner, step.modes.len())?;
    }
    marked_in_tuple(marks, inner, expr.result.as_slice())
}

#[cycle(marked)]
#[tactic(auto, using(clf_syntax::specs::Plain::plain_laws))]
fn marked_in_tuple(marks: &[bool], depth: u64, tuple: &[TupleEntry]) -> Result<bool, AllocError>
    ensures { IfOk result (λ b. b ≡ spec.marked_in_tuple marks.now depth (tuple_of (map plain_entry tuple.now))) }
{
    for entry in tuple {
        let found = marked_in(marks, depth, &entry.obj)?;
        if found {
            return Ok(true);
        }
    }
    Ok(false)
}

/// A mark at this local alone.
fn single_mark(alloc: Global, local: u32) -> Result<Vec<bool>, AllocError>
    ensures { IfOk result (λ marks. (j : ℕ) → mask_at marks.items j ≡ nat_eq j local) }
{
    let mut marks = Vec::new(alloc);
    for _place in 0..local {
        marks.push(false)?;
    }
    marks.push(true)?;
    Ok(marks)
}

/// Whether a local occurs in the object. It fails only where memory runs out.
pub fn occurs(alloc: Global, local: u32, obj: &Obj) -> Result<bool, AllocError>
    ensures { IfOk result (λ b. b ≡ occurs_of local (plain_obj obj.now)) }
{
    let marks = single_mark(alloc, local)?;
    marked_in(marks.as_slice(), 0, obj)
}
