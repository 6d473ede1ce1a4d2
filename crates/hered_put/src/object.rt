//! Substitution in objects and expressions.
ghost use Rattle.std.specs.Prelude.{◌≡◌, ◌++◌, ◌∷◌, [], IfOk, map, reverse};
ghost use Rattle.clf_syntax.specs.Plain.{plain_obj, plain_neutral, plain_elim, plain_expr, plain_step, plain_entry};
ghost use Rattle.clf_syntax.specs.declared.tree.Expr.{out-Expr};
ghost use Rattle.clf_syntax.specs.Tree.{eliminated, steps_on};
ghost use Rattle.hered_put.specs.Answers.{Answers};
ghost use Rattle.hered_put.specs.Environments.{environment_of};
ghost use Rattle.hered_put.specs.Outcomes.{plain_outcome, plain_coming, plain_parts, plain_rest};
ghost use Rattle.hered_put.specs.Pieces as piece;

use crate::bound::Bound;
use crate::environment::{Environment, Outcome};
use crate::fault::PutFault;
use crate::head::head_outcome;
use crate::step::{Coming, Rest, bound_variables, in_place};
use clf_syntax::{Elim, Expr, Mode, Neutral, Obj, Step, TupleEntry};
use sqlite_items::{Boxed, Items};
use std::alloc::{AllocError, Global};

#[cycle(put)]
#[tactic(auto, using(clf_syntax::specs::Plain::plain_laws, crate::proofs::ObjectPieces::object_laws))]
pub fn put_object(
    alloc: Global,
    obj: &Obj,
    environment: &Environment<'_>,
    bound: Bound,
) -> Result<Obj, PutFault>
    ensures { Answers plain_obj (piece.object_of bound.rank (environment_of environment.now) (plain_obj obj.now))
        result }
{
    let inside = bound.inside()?;
    match obj {
        Obj::Lam { mode, body } => {
            let inner = environment.under(1)?;
            let body = put_object(alloc, body.get(), &inner, inside)?;
            Ok(Obj::Lam {
                mode: *mode,
                body: Boxed::new(alloc, body)?,
            })
        }
        Obj::Pair { left, right } => {
            let left = put_object(alloc, left.get(), environment, inside)?;
            let right = put_object(alloc, right.get(), environment, inside)?;
            Ok(Obj::Pair {
                left: Boxed::new(alloc, left)?,
                right: Boxed::new(alloc, right)?,
            })
        }
        Obj::Unit => Ok(Obj::Unit),
        Obj::Mon { expr } => {
            let expr = put_expression(alloc, expr.get(), environment, inside)?;
            Ok(Obj::Mon {
                expr: Boxed::new(alloc, expr)?,
            })
        }
        Obj::At { neutral } => match put_neutral(alloc, neutral, environment, inside)? {
            Outcome::Kept(neutral) => Ok(Obj::At { neutral }),
            Outcome::Value(obj) => Ok(obj),
        },
        Obj::Hole => Ok(Obj::Hole),
    }
}

#[cycle(put)]
#[tactic(auto, using(clf_syntax::specs::Plain::plain_laws, crate::proofs::SpinePieces::neutral_laws))]
fn put_neutral(
    alloc: Global,
    neutral: &Neutral,
    environment: &Environment<'_>,
    bound: Bound,
) -> Result<Outcome, PutFault>
    ensures { Answers plain_outcome
        (piece.neutral_of bound.rank (environment_of environment.now) (plain_neutral neutral.now)) result }
{
    let mut outcome = head_outcome(alloc, neutral.head, environment)?;
    for act in neutral.spine.as_slice() {
        outcome = eliminate(alloc, act, outcome, environment, bound)?;
    }
    Ok(outcome)
}

#[cycle(put)]
#[tactic(auto, using(clf_syntax::specs::Plain::plain_laws, crate::proofs::SpinePieces::eliminate_laws))]
fn eliminate(
    alloc: Global,
    act: &Elim,
    outcome: Outcome,
    environment: &Environment<'_>,
    bound: Bound,
) -> Result<Outcome, PutFault>
    ensures { Answers plain_outcome (piece.eliminated_of bound.rank (environment_of environment.now)
        (plain_elim act.now) (plain_outcome outcome)) result }
{
    match act {
        Elim::Arg { mode, obj } => {
            let argument = put_object(alloc, obj, environment, bound)?;
            apply(alloc, *mode, outcome, argument, bound)
        }
        Elim::First => first_part(outcome),
        Elim::Second => second_part(outcome),
    }
}

/// A neutral under one elimination more. It fails only where memory runs out.
#[tactic(auto, using(clf_syntax::specs::Plain::plain_laws, crate::proofs::SpinePieces::spine_laws))]
pub fn with_elimination(neutral: Neutral, act: Elim) -> Result<Neutral, AllocError>
    ensures { IfOk result (λ n. plain_neutral n ≡ eliminated (plain_elim act) (plain_neutral neutral)) }
{
    let Neutral { head, mut spine } = neutral;
    spine.push(act)?;
    Ok(Neutral { head, spine })
}

/// What a neutral becomes under an argument.
#[cycle(put)]
#[tactic(auto, using(clf_syntax::specs::Plain::plain_laws, crate::proofs::SpinePieces::apply_laws))]
fn apply(
    alloc: Global,
    mode: Mode,
    outcome: Outcome,
    argument: Obj,
    bound: Bound,
) -> Result<Outcome, PutFault>
    ensures { Answers plain_outcome (piece.argued_of bound.rank mode (plain_outcome outcome) (plain_obj argument))
        result }
{
    match outcome {
        Outcome::Kept(neutral) => {
            let act = Elim::Arg {
                mode,
                obj: argument,
            };
            Ok(Outcome::Kept(with_elimination(neutral, act)?))
        }
        Outcome::Value(value) => {
            let value = apply_value(alloc, mode, &value, &argument, bound)?;
            Ok(Outcome::Value(value))
        }
    }
}

/// A value under an argument, which is put for the variable of a lambda.
#[cycle(put)]
#[tactic(auto, using(clf_syntax::specs::Plain::plain_laws, crate::proofs::ObjectPieces::value_laws))]
fn apply_value(
    alloc: Global,
    mode: Mode,
    value: &Obj,
    argument: &Obj,
    bound: Bound,
) -> Result<Obj, PutFault>
    ensures { Answers plain_obj (piece.applied_of bound.rank mode (plain_obj value.now) (plain_obj argument.now))
        result }
{
    match value {
        Obj::Lam { mode: wanted, body } => {
            if mode != *wanted {
                return Err(PutFault::Untyped);
            }
            let nested = bound.nested()?;
            put_object(alloc, body.get(), &Environment::object(argument, 0), nested)
        }
        Obj::Pair { .. } | Obj::Unit | Obj::Mon { .. } | Obj::At { .. } | Obj::Hole => {
            Err(PutFault::Untyped)
        }
    }
}

/// The first part of what a neutral becomes.
#[tactic(auto, using(clf_syntax::specs::Plain::plain_laws, crate::proofs::SpinePieces::parts_laws))]
fn first_part(outcome: Outcome) -> Result<Outcome, PutFault>
    ensures { Answers plain_outcome (piece.first_of (plain_outcome outcome)) result }
{
    match outcome {
        Outcome::Kept(neutral) => Ok(Outcome::Kept(with_elimination(neutral, Elim::First)?)),
        Outcome::Value(value) => Ok(Outcome::Value(parts(value)?.left)),
    }
}

/// The second part of what a neutral becomes.
#[tactic(auto, using(clf_syntax::specs::Plain::plain_laws, crate::proofs::SpinePieces::parts_laws))]
fn second_part(outcome: Outcome) -> Result<Outcome, PutFault>
    ensures { Answers plain_outcome (piece.second_of (plain_outcome outcome)) result }
{
    match outcome {
        Outcome::Kept(neutral) => Ok(Outcome::Kept(with_elimination(neutral, Elim::Second)?)),
        Outcome::Value(value) => Ok(Outcome::Value(parts(value)?.right)),
    }
}

/// The parts of a pair.
#[derive(Drop)]
pub struct PairParts {
    pub left: Obj,
    pub right: Obj,
}

/// The parts of a value that is a pair.
#[tactic(auto, using(clf_syntax::specs::Plain::plain_laws))]
fn parts(value: Obj) -> Result<PairParts, PutFault>
    ensures { Answers plain_parts (piece.parts_of (plain_obj value)) result }
{
    match value {
        Obj::Pair { left, right } => Ok(PairParts {
            left: left.into_inner(),
            right: right.into_inner(),
        }),
        Obj::Lam { .. } | Obj::Unit | Obj::Mon { .. } | Obj::At { .. } | Obj::Hole => {
            Err(PutFault::Untyped)
        }
    }
}

#[cycle(put)]
#[tactic(auto, using(clf_syntax::specs::Plain::plain_laws, crate::proofs::ExpressionPieces::expression_laws))]
pub fn put_expression(
    alloc: Global,
    expr: &Expr,
    environment: &Environment<'_>,
    bound: Bound,
) -> Result<Expr, PutFault>
    ensures { Answers plain_expr (piece.expression_of bound.rank (environment_of environment.now) (plain_expr expr.now))
        result }
{
    let mut inner = *environment;
    let mut steps = Items::new(alloc);
    for step in expr.steps.as_slice() {
        steps.push(put_step(alloc, step, &inner, bound)?)?;
        inner = inner.under(step.modes.len())?;
    }
    let result = put_tuple(alloc, expr.result.as_slice(), &inner, bound)?;
    joined(alloc, steps, Rest::of_tuple(alloc, result), bound)
}

#[cycle(put)]
#[tactic(auto, using(clf_syntax::specs::Plain::plain_laws, crate::proofs::StepPieces::step_laws))]
fn put_step(
    alloc: Global,
    step: &Step,
    environment: &Environment<'_>,
    bound: Bound,
) -> Result<Coming, PutFault>
    ensures { Answers plain_coming (piece.step_of bound.rank (environment_of environment.now) (plain_step step.now))
        result }
{
    let outcome = put_neutral(alloc, &step.rhs, environment, bound)?;
    in_place(alloc, &step.modes, outcome)
}

#[cycle(put)]
#[tactic(auto, using(clf_syntax::specs::Plain::plain_laws, crate::proofs::TuplePieces::tuple_laws))]
fn put_tuple(
    alloc: Global,
    tuple: &[TupleEntry],
    environment: &Environment<'_>,
    bound: Bound,
) -> Result<Items<TupleEntry>, PutFault>
    ensures { Answers (λ es. map plain_entry es)
        (piece.entries_of bound.rank (environment_of environment.now) (map plain_entry tuple.now)) result }
{
    let mut entries = Items::new(alloc);
    for entry in tuple {
        entries.push(put_entry(alloc, entry, environment, bound)?)?;
    }
    Ok(entries)
}

#[cycle(put)]
#[tactic(auto, using(clf_syntax::specs::Plain::plain_laws, crate::proofs::TuplePieces::entry_laws))]
fn put_entry(
    alloc: Global,
    entry: &TupleEntry,
    environment: &Environment<'_>,
    bound: Bound,
) -> Result<TupleEntry, PutFault>
    ensures { Answers plain_entry (piece.entry_of bound.rank (environment_of environment.now) (plain_entry entry.now))
        result }
{
    Ok(TupleEntry {
        mode: entry.mode,
        obj: put_object(alloc, &entry.obj, environment, bound)?,
    })
}

/// The steps that come, in front of the rest.
#[cycle(put)]
#[tactic(auto, using(crate::proofs::StepPieces::join_laws))]
fn joined(
    alloc: Global,
    mut steps: Items<Coming>,
    mut rest: Rest,
    bound: Bound,
) -> Result<Expr, PutFault>
    ensures { Answers plain_expr (piece.joined_of bound.rank (map plain_coming steps) (plain_rest rest)) result }
{
    while let Some(step) = steps.pop() {
        rest = join(alloc, step, rest, bound)?;
    }
    Ok(rest.into_expression(alloc)?)
}

/// One step in front of the rest.
#[cycle(put)]
#[tactic(auto, using(crate::proofs::StepPieces::join_laws))]
fn join(alloc: Global, step: Coming, rest: Rest, bound: Bound) -> Result<Rest, PutFault>
    ensures { Answers plain_rest (piece.join_of bound.rank (plain_coming step) (plain_rest rest)) result }
{
    match step {
        Coming::Stays(step) => Ok(rest.behind(step)?),
        Coming::Gives { binders, expr } => {
            let rest = rest.into_expression(alloc)?;
            let whole = flatten(alloc, binders, expr, &rest, bound)?;
            Ok(Rest::of_expression(alloc, whole)?)
        }
    }
}

/// The steps of a value, and then the rest with its tuple put for the variables of a step.
#[cycle(put)]
#[tactic(auto, using(clf_syntax::specs::Plain::plain_laws, crate::proofs::FlatPieces::flat_laws))]
pub fn flatten(
    alloc: Global,
    binders: usize,
    value: Expr,
    rest: &Expr,
    bound: Bound,
) -> Result<Expr, PutFault>
    ensures { Answers plain_expr (piece.flattened_of bound.rank binders (plain_expr value) (plain_expr rest.now))
        result }
{
    if value.result.len() != binders {
        return Err(PutFault::Untyped);
    }
    let nested = bound.nested()?;
    let raised = bound_variables(value.steps.as_slice())?;
    let tuple = Environment::tuple(value.result.as_slice(), raised);
    let rest = put_expression(alloc, rest, &tuple, nested)?;
    Ok(behind_steps(value, rest)?)
}

/// The steps of an expression, and then another.
fn behind_steps(front: Expr, rest: Expr) -> Result<Expr, AllocError>
    ensures { IfOk result (λ e. plain_expr e ≡ steps_on (map plain_step (out-Expr front).steps) (plain_expr rest)) }
{
    let Expr {
        mut steps,
        result: _,
    } = front;
    let Expr {
        steps: more,
        result,
    } = rest;
    steps.append(more)?;
    Ok(Expr { steps, result })
}
