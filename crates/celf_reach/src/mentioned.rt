//! Whether a tree mentions a metavariable.
ghost use Rattle.std.specs.Prelude.{◌≡◌, map};
ghost use Rattle.std.specs.List.{list_any};
ghost use Rattle.clf_syntax.specs.Plain.{plain_obj, plain_neutral, plain_elim, plain_expr, plain_entry};
ghost use Rattle.clf_syntax.specs.Tree.{tuple_of};
ghost use Rattle.hered_subst.specs.TypedEnvironments.{is_metavariable};
ghost use Rattle.celf_reach.specs.Mentioned as spec;

use clf_syntax::{Elim, Expr, Head, Neutral, Obj, TupleEntry};

/// Whether the head is a metavariable.
pub fn is_meta(head: Head) -> bool
    ensures { result ≡ is_metavariable head }
{
    match head {
        Head::Const(_) | Head::Var(_) => false,
        Head::Meta(_) => true,
    }
}

/// Whether an object mentions a metavariable.
#[cycle(mentioned)]
#[tactic(auto, using(clf_syntax::specs::Plain::plain_laws, crate::proofs::Mentioning::mentioning_laws))]
pub fn mentions_some(obj: &Obj) -> bool
    ensures { result ≡ spec.mentions_some (plain_obj obj.now) }
{
    match obj {
        Obj::Lam { mode: _, body } => mentions_some(body.get()),
        Obj::Pair { left, right } => mentions_some(left.get()) || mentions_some(right.get()),
        Obj::Unit | Obj::Hole => false,
        Obj::Mon { expr } => mentioned_in_expression(expr.get()),
        Obj::At { neutral } => mentioned_in_neutral(neutral),
    }
}

#[cycle(mentioned)]
#[tactic(auto, using(clf_syntax::specs::Plain::plain_laws, crate::proofs::Mentioning::mentioning_laws))]
fn mentioned_in_neutral(neutral: &Neutral) -> bool
    ensures { result ≡ spec.mentions_some_neutral (plain_neutral neutral.now) }
{
    is_meta(neutral.head) || mentioned_in_spine(neutral.spine.as_slice())
}

#[cycle(mentioned)]
#[tactic(auto, using(clf_syntax::specs::Plain::plain_laws, crate::proofs::Mentioning::mentioning_laws))]
fn mentioned_in_spine(spine: &[Elim]) -> bool
    ensures { result ≡ list_any spec.mentions_some_elimination (map plain_elim spine.now) }
{
    for act in spine {
        if mentioned_in_elimination(act) {
            return true;
        }
    }
    false
}

#[cycle(mentioned)]
#[tactic(auto, using(clf_syntax::specs::Plain::plain_laws))]
fn mentioned_in_elimination(act: &Elim) -> bool
    ensures { result ≡ spec.mentions_some_elimination (plain_elim act.now) }
{
    match act {
        Elim::Arg { mode: _, obj } => mentions_some(obj),
        Elim::First | Elim::Second => false,
    }
}

#[cycle(mentioned)]
#[tactic(auto, using(clf_syntax::specs::Plain::plain_laws))]
fn mentioned_in_expression(expr: &Expr) -> bool
    ensures { result ≡ spec.mentions_some_expression (plain_expr expr.now) }
{
    for step in expr.steps.as_slice() {
        if mentioned_in_neutral(&step.rhs) {
            return true;
        }
    }
    mentioned_in_tuple(expr.result.as_slice())
}

#[cycle(mentioned)]
#[tactic(auto, using(clf_syntax::specs::Plain::plain_laws))]
fn mentioned_in_tuple(tuple: &[TupleEntry]) -> bool
    ensures { result ≡ spec.mentions_some_tuple (tuple_of (map plain_entry tuple.now)) }
{
    for entry in tuple {
        if mentions_some(&entry.obj) {
            return true;
        }
    }
    false
}
