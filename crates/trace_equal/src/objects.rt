//! The comparison of two objects up to exchange, under tables of ids.
ghost use Rattle.std.specs.Prelude.{◌≡◌, IfOk, OnOk, map};
ghost use Rattle.clf_syntax.specs.Plain.{plain_obj, plain_neutral, plain_elim, plain_expr, plain_entry};
ghost use Rattle.clf_syntax.specs.Tree.{lam, monadic, tuple_of};
ghost use Rattle.trace_equal.specs.Comparing as spec;

use crate::backtracking::first_matching;
use crate::tables::{Tables, is_same_head};
use clf_syntax::{Elim, Expr, Mode, Neutral, Obj, TupleEntry, is_same_mode};
use std::alloc::{AllocError, Global};

/// Whether two objects are joined under the tables.
#[cycle(compare)]
#[tactic(auto, using(clf_syntax::specs::Plain::plain_laws))]
pub fn joined_object(
    alloc: Global,
    left: &Obj,
    right: &Obj,
    tables: &mut Tables,
) -> Result<bool, AllocError>
    ensures answer { IfOk result
        (λ joined. joined ≡ spec.compared tables.old (plain_obj left.now) (plain_obj right.now)) }
    ensures kept { OnOk result (tables.new ≡ tables.old) }
{
    match left {
        Obj::Lam { mode, body } => joined_lambda(alloc, *mode, body.get(), right, tables),
        Obj::Pair { left: a, right: b } => match right {
            Obj::Pair { left: c, right: d } => {
                if !joined_object(alloc, a.get(), c.get(), tables)? {
                    return Ok(false);
                }
                joined_object(alloc, b.get(), d.get(), tables)
            }
            Obj::Lam { .. } | Obj::Unit | Obj::Mon { .. } | Obj::At { .. } | Obj::Hole => Ok(false),
        },
        Obj::Unit => match right {
            Obj::Unit => Ok(true),
            Obj::Lam { .. } | Obj::Pair { .. } | Obj::Mon { .. } | Obj::At { .. } | Obj::Hole => {
                Ok(false)
            }
        },
        Obj::Mon { expr } => joined_monad(alloc, expr.get(), right, tables),
        Obj::At { neutral } => match right {
            Obj::At { neutral: other } => joined_neutral(alloc, neutral, other, tables),
            Obj::Lam { .. } | Obj::Pair { .. } | Obj::Unit | Obj::Mon { .. } | Obj::Hole => {
                Ok(false)
            }
        },
        Obj::Hole => match right {
            Obj::Hole => Ok(true),
            Obj::Lam { .. } | Obj::Pair { .. } | Obj::Unit | Obj::Mon { .. } | Obj::At { .. } => {
                Ok(false)
            }
        },
    }
}

/// Whether the lambda over a body and an object are joined.
#[cycle(compare)]
#[tactic(auto, using(clf_syntax::specs::Plain::plain_laws))]
fn joined_lambda(
    alloc: Global,
    mode: Mode,
    body: &Obj,
    right: &Obj,
    tables: &mut Tables,
) -> Result<bool, AllocError>
    ensures answer { IfOk result
        (λ joined. joined ≡ spec.compared tables.old (lam mode (plain_obj body.now)) (plain_obj right.now)) }
    ensures kept { OnOk result (tables.new ≡ tables.old) }
{
    match right {
        Obj::Lam {
            mode: other,
            body: second,
        } => {
            if !is_same_mode(mode, *other) {
                return Ok(false);
            }
            joined_body(alloc, body, second.get(), tables)
        }
        Obj::Pair { .. } | Obj::Unit | Obj::Mon { .. } | Obj::At { .. } | Obj::Hole => Ok(false),
    }
}

/// Whether the monadic object of an expression and an object are joined.
#[cycle(compare)]
#[tactic(auto, using(clf_syntax::specs::Plain::plain_laws))]
fn joined_monad(
    alloc: Global,
    expr: &Expr,
    right: &Obj,
    tables: &mut Tables,
) -> Result<bool, AllocError>
    ensures answer { IfOk result
        (λ joined. joined ≡ spec.compared tables.old (monadic (plain_expr expr.now)) (plain_obj right.now)) }
    ensures kept { OnOk result (tables.new ≡ tables.old) }
{
    match right {
        Obj::Mon { expr: other } => {
            let found = first_matching(alloc, expr, other.get(), tables)?;
            Ok(found.is_some())
        }
        Obj::Lam { .. } | Obj::Pair { .. } | Obj::Unit | Obj::At { .. } | Obj::Hole => Ok(false),
    }
}

/// The bodies of two lambdas, under a variable of each.
#[cycle(compare)]
fn joined_body(
    alloc: Global,
    left: &Obj,
    right: &Obj,
    tables: &mut Tables,
) -> Result<bool, AllocError>
    ensures answer { IfOk result
        (λ joined. joined ≡ spec.compared (spec.with_both tables.old) (plain_obj left.now) (plain_obj right.now)) }
    ensures kept { OnOk result (tables.new ≡ tables.old) }
{
    tables.enter_both()?;
    let joined = joined_object(alloc, left, right, tables)?;
    tables.leave_both();
    Ok(joined)
}

/// Whether two neutrals are joined: the heads are the same variable, and the spines are joined.
#[cycle(compare)]
#[tactic(auto, using(clf_syntax::specs::Plain::plain_laws, crate::proofs::ComparingLaws::spine_laws))]
pub fn joined_neutral(
    alloc: Global,
    left: &Neutral,
    right: &Neutral,
    tables: &mut Tables,
) -> Result<bool, AllocError>
    ensures answer { IfOk result
        (λ joined. joined ≡ spec.compared_neutral tables.old (plain_neutral left.now) (plain_neutral right.now)) }
    ensures kept { OnOk result (tables.new ≡ tables.old) }
{
    if is_same_head(left.head, right.head, tables) {
        return joined_spine(alloc, left.spine.as_slice(), right.spine.as_slice(), tables);
    }
    Ok(false)
}

#[cycle(compare)]
#[tactic(auto, using(clf_syntax::specs::Plain::plain_laws, crate::proofs::ComparingLaws::spine_laws))]
fn joined_spine(
    alloc: Global,
    left: &[Elim],
    right: &[Elim],
    tables: &mut Tables,
) -> Result<bool, AllocError>
    ensures answer { IfOk result
        (λ joined. joined ≡ spec.compared_spine tables.old (map plain_elim left.now) (map plain_elim right.now)) }
    ensures kept { OnOk result (tables.new ≡ tables.old) }
{
    if left.len() != right.len() {
        return Ok(false);
    }
    for i in 0..left.len() {
        if !joined_elimination(alloc, &left[i], &right[i], tables)? {
            return Ok(false);
        }
    }
    Ok(true)
}

#[cycle(compare)]
#[tactic(auto, using(clf_syntax::specs::Plain::plain_laws))]
fn joined_elimination(
    alloc: Global,
    left: &Elim,
    right: &Elim,
    tables: &mut Tables,
) -> Result<bool, AllocError>
    ensures answer { IfOk result
        (λ joined. joined ≡ spec.compared_elimination tables.old (plain_elim left.now) (plain_elim right.now)) }
    ensures kept { OnOk result (tables.new ≡ tables.old) }
{
    match left {
        Elim::Arg { mode, obj } => match right {
            Elim::Arg {
                mode: other,
                obj: second,
            } => {
                if !is_same_mode(*mode, *other) {
                    return Ok(false);
                }
                joined_object(alloc, obj, second, tables)
            }
            Elim::First | Elim::Second => Ok(false),
        },
        Elim::First => Ok(matches!(right, Elim::First)),
        Elim::Second => Ok(matches!(right, Elim::Second)),
    }
}

#[cycle(compare)]
#[tactic(auto, using(clf_syntax::specs::Plain::plain_laws, crate::proofs::ComparingLaws::tuple_laws))]
pub fn joined_tuple(
    alloc: Global,
    left: &[TupleEntry],
    right: &[TupleEntry],
    tables: &mut Tables,
) -> Result<bool, AllocError>
    ensures answer { IfOk result (λ joined.
        joined
        ≡ spec.compared_tuple tables.old (tuple_of (map plain_entry left.now))
        (tuple_of (map plain_entry right.now))) }
    ensures kept { OnOk result (tables.new ≡ tables.old) }
{
    if left.len() != right.len() {
        return Ok(false);
    }
    for i in 0..left.len() {
        if !joined_entry(alloc, &left[i], &right[i], tables)? {
            return Ok(false);
        }
    }
    Ok(true)
}

#[cycle(compare)]
#[tactic(auto, using(clf_syntax::specs::Plain::plain_laws))]
fn joined_entry(
    alloc: Global,
    left: &TupleEntry,
    right: &TupleEntry,
    tables: &mut Tables,
) -> Result<bool, AllocError>
    ensures answer { IfOk result
        (λ joined. joined ≡ spec.compared_entry tables.old (plain_entry left.now) (plain_entry right.now)) }
    ensures kept { OnOk result (tables.new ≡ tables.old) }
{
    if !is_same_mode(left.mode, right.mode) {
        return Ok(false);
    }
    joined_object(alloc, &left.obj, &right.obj, tables)
}
