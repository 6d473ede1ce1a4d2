//! Which metavariables a tree mentions.
ghost use Rattle.std.specs.Prelude.{◌≡◌, ◌||◌, map};
ghost use Rattle.std.specs.List.{list_any};
ghost use Rattle.clf_syntax.specs.Plain.{plain_obj, plain_neutral, plain_elim, plain_expr, plain_entry};
ghost use Rattle.clf_syntax.specs.Tree.{tuple_of};
ghost use Rattle.store_laws.specs.Mentions as spec;
ghost use Rattle.celf_constraints.specs.Equated.{plain_equation};
ghost use Rattle.celf_constraints.specs.Parts.{mentions_elimination as mentions_elimination_of};
ghost use Rattle.celf_constraints.specs.Woken.{mentioned_in};

use crate::equation::Equation;
use clf_syntax::{Elim, Expr, Head, Neutral, Obj, TupleEntry};

/// Whether an equation mentions one of the metavariables.
pub fn mentions_one(metas: &[u32], equation: &Equation) -> bool
    ensures { result ≡ list_any (mentioned_in (plain_equation equation.now)) metas.now }
{
    for meta in metas {
        if is_mentioned(*meta, equation) {
            return true;
        }
    }
    false
}

fn is_mentioned(meta: u32, equation: &Equation) -> bool
    ensures { result ≡ mentioned_in (plain_equation equation.now) meta }
{
    mentions(meta, &equation.left) || mentions(meta, &equation.right)
}

fn is_meta(meta: u32, head: Head) -> bool
    ensures { result ≡ spec.is_meta meta head }
{
    match head {
        Head::Const(_) | Head::Var(_) => false,
        Head::Meta(number) => number == meta,
    }
}

/// Whether an object mentions the metavariable.
#[cycle(mentions)]
#[tactic(auto, using(clf_syntax::specs::Plain::plain_laws, crate::proofs::Spines::mentions_laws))]
pub fn mentions(meta: u32, obj: &Obj) -> bool
    ensures { result ≡ spec.mentions meta (plain_obj obj.now) }
{
    match obj {
        Obj::Lam { mode: _, body } => mentions(meta, body.get()),
        Obj::Pair { left, right } => mentions(meta, left.get()) || mentions(meta, right.get()),
        Obj::Unit | Obj::Hole => false,
        Obj::Mon { expr } => mentions_expression(meta, expr.get()),
        Obj::At { neutral } => mentions_neutral(meta, neutral),
    }
}

#[cycle(mentions)]
#[tactic(auto, using(clf_syntax::specs::Plain::plain_laws, crate::proofs::Spines::mentions_laws))]
fn mentions_neutral(meta: u32, neutral: &Neutral) -> bool
    ensures { result ≡ spec.mentions_neutral meta (plain_neutral neutral.now) }
{
    is_meta(meta, neutral.head) || mentions_spine(meta, neutral.spine.as_slice())
}

#[cycle(mentions)]
#[tactic(auto, using(clf_syntax::specs::Plain::plain_laws, crate::proofs::Spines::mentions_laws))]
fn mentions_spine(meta: u32, spine: &[Elim]) -> bool
    ensures { result ≡ list_any (mentions_elimination_of meta) (map plain_elim spine.now) }
{
    for act in spine {
        if mentions_elimination(meta, act) {
            return true;
        }
    }
    false
}

#[cycle(mentions)]
#[tactic(auto, using(clf_syntax::specs::Plain::plain_laws))]
fn mentions_elimination(meta: u32, act: &Elim) -> bool
    ensures { result ≡ mentions_elimination_of meta (plain_elim act.now) }
{
    match act {
        Elim::Arg { mode: _, obj } => mentions(meta, obj),
        Elim::First | Elim::Second => false,
    }
}

#[cycle(mentions)]
#[tactic(auto, using(clf_syntax::specs::Plain::plain_laws))]
fn mentions_expression(meta: u32, expr: &Expr) -> bool
    ensures { result ≡ spec.mentions_expression meta (plain_expr expr.now) }
{
    for step in expr.steps.as_slice() {
        if mentions_neutral(meta, &step.rhs) {
            return true;
        }
    }
    mentions_tuple(meta, expr.result.as_slice())
}

#[cycle(mentions)]
#[tactic(auto, using(clf_syntax::specs::Plain::plain_laws))]
fn mentions_tuple(meta: u32, tuple: &[TupleEntry]) -> bool
    ensures { result ≡ spec.mentions_tuple meta (tuple_of (map plain_entry tuple.now)) }
{
    for entry in tuple {
        if mentions(meta, &entry.obj) {
            return true;
        }
    }
    false
}
