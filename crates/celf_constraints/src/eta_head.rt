//! The one variable whose eta-long form an object can be.
ghost use Rattle.std.specs.Prelude.{◌≡◌};
ghost use Rattle.clf_syntax.specs.Plain.{plain_obj, plain_expr};
ghost use Rattle.celf_constraints.specs.Candidate as spec;

use clf_syntax::{Expr, Head, Obj};

fn variable_of(head: Head) -> Option<u32>
    ensures { result ≡ spec.variable_of head }
{
    match head {
        Head::Var(index) => Some(index),
        Head::Const(_) | Head::Meta(_) => None,
    }
}

/// The variable, seen from outside a binder.
fn lowered(found: Option<u32>) -> Option<u32>
    ensures { result ≡ spec.lowered found }
{
    match found {
        None => None,
        Some(index) => { if index == 0 { None } else { Some(index - 1) } }
    }
}

fn or_else(found: Option<u32>, other: Option<u32>) -> Option<u32>
    ensures { result ≡ spec.or_else found other }
{
    match found {
        Some(index) => Some(index),
        None => other,
    }
}

/// The variable, if there is one.
#[tactic(auto, using(clf_syntax::specs::Plain::plain_laws, crate::proofs::Candidates::neutral_head))]
pub fn candidate(obj: &Obj) -> Option<u32>
    ensures { result ≡ spec.candidate (plain_obj obj.now) }
{
    match obj {
        Obj::Lam { mode: _, body } => lowered(candidate(body.get())),
        Obj::Pair { left, right } => or_else(candidate(left.get()), candidate(right.get())),
        Obj::Unit | Obj::Hole => None,
        Obj::Mon { expr } => candidate_step(expr.get()),
        Obj::At { neutral } => variable_of(neutral.head),
    }
}

/// The variable of the first step.
fn candidate_step(expr: &Expr) -> Option<u32>
    ensures { result ≡ spec.candidate_step (plain_expr expr.now) }
{
    let steps = expr.steps.as_slice();
    if steps.len() == 0 {
        return None;
    }
    variable_of(steps[0].rhs.head)
}
