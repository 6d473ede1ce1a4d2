//! Whether two objects are identical.
ghost use Rattle.std.specs.Prelude.{◌≡◌, ◌↔◌, IsTrue, map};
ghost use Rattle.clf_syntax.specs.Plain.{plain_obj, plain_neutral, plain_elim, plain_expr, plain_step, plain_entry};

use crate::tree::{Elim, Expr, Mode, Neutral, Obj, Step, TupleEntry};

/// Whether two objects are the same tree. Exchanged steps make them different.
#[cycle(same)]
#[tactic(auto, using(crate::proofs::Parts::same_laws))]
pub fn same(left: &Obj, right: &Obj) -> bool
    ensures { IsTrue result ↔ (plain_obj left.now ≡ plain_obj right.now) }
{
    match left {
        Obj::Lam { mode, body } => match right {
            Obj::Lam {
                mode: other,
                body: second,
            } => *mode == *other && same(body.get(), second.get()),
            Obj::Pair { .. } | Obj::Unit | Obj::Mon { .. } | Obj::At { .. } | Obj::Hole => false,
        },
        Obj::Pair { left: a, right: b } => match right {
            Obj::Pair { left: c, right: d } => same(a.get(), c.get()) && same(b.get(), d.get()),
            Obj::Lam { .. } | Obj::Unit | Obj::Mon { .. } | Obj::At { .. } | Obj::Hole => false,
        },
        Obj::Unit => match right {
            Obj::Unit => true,
            Obj::Lam { .. } | Obj::Pair { .. } | Obj::Mon { .. } | Obj::At { .. } | Obj::Hole =>
                false,
        },
        Obj::Mon { expr } => match right {
            Obj::Mon { expr: other } => same_expression(expr.get(), other.get()),
            Obj::Lam { .. } | Obj::Pair { .. } | Obj::Unit | Obj::At { .. } | Obj::Hole => false,
        },
        Obj::At { neutral } => match right {
            Obj::At { neutral: other } => same_neutral(neutral, other),
            Obj::Lam { .. } | Obj::Pair { .. } | Obj::Unit | Obj::Mon { .. } | Obj::Hole => false,
        },
        Obj::Hole => match right {
            Obj::Hole => true,
            Obj::Lam { .. } | Obj::Pair { .. } | Obj::Unit | Obj::Mon { .. } | Obj::At { .. } =>
                false,
        },
    }
}

#[cycle(same)]
#[tactic(auto, using(crate::proofs::Parts::same_laws))]
fn same_neutral(left: &Neutral, right: &Neutral) -> bool
    ensures { IsTrue result ↔ (plain_neutral left.now ≡ plain_neutral right.now) }
{
    left.head == right.head && same_spine(left.spine.as_slice(), right.spine.as_slice())
}

#[cycle(same)]
#[tactic(auto, using(crate::proofs::Parts::same_laws))]
fn same_spine(left: &[Elim], right: &[Elim]) -> bool
    ensures { IsTrue result ↔ (map plain_elim left.now ≡ map plain_elim right.now) }
{
    if left.len() != right.len() {
        return false;
    }
    for i in 0..left.len() {
        if !same_elimination(&left[i], &right[i]) {
            return false;
        }
    }
    true
}

#[cycle(same)]
#[tactic(auto, using(crate::proofs::Parts::same_laws))]
fn same_elimination(left: &Elim, right: &Elim) -> bool
    ensures { IsTrue result ↔ (plain_elim left.now ≡ plain_elim right.now) }
{
    match left {
        Elim::Arg { mode, obj } => match right {
            Elim::Arg {
                mode: other,
                obj: second,
            } => *mode == *other && same(obj, second),
            Elim::First | Elim::Second => false,
        },
        Elim::First => match right {
            Elim::First => true,
            Elim::Arg { .. } | Elim::Second => false,
        },
        Elim::Second => match right {
            Elim::Second => true,
            Elim::Arg { .. } | Elim::First => false,
        },
    }
}

#[cycle(same)]
#[tactic(auto, using(crate::proofs::Parts::same_laws))]
fn same_expression(left: &Expr, right: &Expr) -> bool
    ensures { IsTrue result ↔ (plain_expr left.now ≡ plain_expr right.now) }
{
    same_steps(left.steps.as_slice(), right.steps.as_slice())
        && same_tuple(left.result.as_slice(), right.result.as_slice())
}

fn same_modes(left: &[Mode], right: &[Mode]) -> bool
    ensures { IsTrue result ↔ (left.now ≡ right.now) }
{
    if left.len() != right.len() {
        return false;
    }
    for i in 0..left.len() {
        if left[i] != right[i] {
            return false;
        }
    }
    true
}

#[cycle(same)]
#[tactic(auto, using(crate::proofs::Parts::same_laws))]
fn same_step(left: &Step, right: &Step) -> bool
    ensures { IsTrue result ↔ (plain_step left.now ≡ plain_step right.now) }
{
    same_modes(left.modes.as_slice(), right.modes.as_slice()) && same_neutral(&left.rhs, &right.rhs)
}

#[cycle(same)]
#[tactic(auto, using(crate::proofs::Parts::same_laws))]
fn same_steps(left: &[Step], right: &[Step]) -> bool
    ensures { IsTrue result ↔ (map plain_step left.now ≡ map plain_step right.now) }
{
    if left.len() != right.len() {
        return false;
    }
    for i in 0..left.len() {
        if !same_step(&left[i], &right[i]) {
            return false;
        }
    }
    true
}

#[cycle(same)]
#[tactic(auto, using(crate::proofs::Parts::same_laws))]
fn same_entry(left: &TupleEntry, right: &TupleEntry) -> bool
    ensures { IsTrue result ↔ (plain_entry left.now ≡ plain_entry right.now) }
{
    left.mode == right.mode && same(&left.obj, &right.obj)
}

#[cycle(same)]
#[tactic(auto, using(crate::proofs::Parts::same_laws))]
fn same_tuple(left: &[TupleEntry], right: &[TupleEntry]) -> bool
    ensures { IsTrue result ↔ (map plain_entry left.now ≡ map plain_entry right.now) }
{
    if left.len() != right.len() {
        return false;
    }
    for i in 0..left.len() {
        if !same_entry(&left[i], &right[i]) {
            return false;
        }
    }
    true
}
