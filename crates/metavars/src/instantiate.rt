//! Solutions, put in as they are looked at.
//!
//! A solution has no free variable, so the walk counts no binders. Where a neutral's head is solved, the solution is
//! walked through in its place, so a solution is written out once for each place where it is looked at, and no tree is
//! gone over again.
ghost use Rattle.std.specs.Prelude.{◌≡◌, [], ◌∷◌, None, Some, IfOk, length, map};
ghost use Rattle.std.specs.List.{slice_get};
ghost use Rattle.clf_syntax.specs.declared.tree.Head.TheVariants.{Meta};
ghost use Rattle.clf_syntax.specs.Tree.{PlainNeutral, PlainExpression, head_alone, eliminated, step, steps_on};
ghost use Rattle.clf_syntax.specs.Plain.{plain_obj, plain_neutral, plain_elim, plain_expr, plain_step, plain_entry};
ghost use Rattle.hered_put.specs.Outcomes.{plain_rest};
ghost use Rattle.store_laws.specs.Additions.{meta_types};
ghost use Rattle.metavars.specs.Becoming as becoming;
ghost use Rattle.metavars.specs.Inside.{IsInside};
ghost use Rattle.metavars.specs.Outcomes.{Gives, BecomesOutcome, IsKept, IsSolvedAt, UnderArgument, NotUnderArgument, UnderFirst, UnderSecond, NotProjected, MetaInFront, NoMeta, Front, NotFront, Flat, NotFlat, InFront, NotInFront, plain_value};
ghost use Rattle.metavars.specs.Stored.{additions};
ghost use Rattle.clf_syntax.specs.PlainSimple.{plain_simple};

use crate::store::Store;
use crate::value::{Outcome, Value, apply, bare, parts};
use clf_syntax::{Elim, Expr, Head, Mode, Modes, Neutral, Obj, Simple, Step, TupleEntry};
use hered_put::{PutFault, Rest, flatten_let, with_elimination};
use sqlite_items::{Boxed, Items};
use std::alloc::{AllocError, Global};

/// A store whose solutions are put in, and how many parts may still stand one in the other.
#[derive(Clone, Copy)]
pub struct Looking<'a> {
    pub alloc: Global,
    pub store: &'a Store,
    pub room: u64,
}

impl<'a> Looking<'a> {
    /// Trees of any size.
    pub fn at(alloc: Global, store: &'a Store) -> Looking<'a>
        ensures { result.store.now ≡ store.now }
    {
        Looking {
            alloc,
            store,
            room: u64::MAX,
        }
    }

    /// Inside a part. No tree in which 2^64 parts stand one in the other fits memory.
    fn inside(&self) -> Result<Looking<'a>, AllocError>
        ensures { IfOk result (λ inner. IsInside self.now inner) }
    {
        match self.room.checked_sub(1) {
            Some(room) => Ok(Looking {
                alloc: self.alloc,
                store: self.store,
                room,
            }),
            None => Err(AllocError),
        }
    }
}

#[cycle(put)]
#[tactic(auto, using(clf_syntax::specs::Plain::plain_laws, crate::proofs::Becomings::becoming_laws))]
pub fn put_object(looking: &Looking<'_>, obj: &Obj) -> Result<Obj, PutFault>
    ensures { Gives (becoming.NoObject looking.now.store.now (plain_obj obj.now))
        (λ x. becoming.Object looking.now.store.now (plain_obj obj.now) (plain_obj x)) result }
{
    let alloc = looking.alloc;
    let inside = looking.inside()?;
    match obj {
        Obj::Lam { mode, body } => {
            let body = put_object(&inside, body.get())?;
            Ok(Obj::Lam {
                mode: *mode,
                body: Boxed::new(alloc, body)?,
            })
        }
        Obj::Pair { left, right } => {
            let left = put_object(&inside, left.get())?;
            let right = put_object(&inside, right.get())?;
            Ok(Obj::Pair {
                left: Boxed::new(alloc, left)?,
                right: Boxed::new(alloc, right)?,
            })
        }
        Obj::Unit => Ok(Obj::Unit),
        Obj::Mon { expr } => {
            let expr = put_expression(&inside, expr.get())?;
            Ok(Obj::Mon {
                expr: Boxed::new(alloc, expr)?,
            })
        }
        Obj::At { neutral } => match put_neutral(&inside, neutral)? {
            Outcome::Kept(neutral) => Ok(Obj::At { neutral }),
            Outcome::Solved(value) => {
                let Value { obj, ty: _ } = value;
                Ok(obj)
            }
        },
        Obj::Hole => Ok(Obj::Hole),
    }
}

#[cycle(put)]
#[tactic(auto, using(clf_syntax::specs::Plain::plain_laws, crate::proofs::Becomings::becoming_laws))]
fn put_neutral<'a>(looking: &Looking<'a>, neutral: &Neutral) -> Result<Outcome<'a>, PutFault>
    ensures { Gives (becoming.NoNeutral looking.now.store.now (plain_neutral neutral.now))
        (λ o. BecomesOutcome looking.now.store.now (plain_neutral neutral.now) o) result }
{
    let mut outcome = put_head(looking, neutral.head)?;
    for act in neutral.spine.as_slice() {
        outcome = eliminate(looking, act, outcome)?;
    }
    Ok(outcome)
}

/// What a head becomes.
#[cycle(put)]
fn put_head<'a>(looking: &Looking<'a>, head: Head) -> Result<Outcome<'a>, PutFault>
    ensures { Gives (becoming.NoNeutral looking.now.store.now (head_alone head))
        (λ o. BecomesOutcome looking.now.store.now (head_alone head) o) result }
{
    match head {
        Head::Const(_) | Head::Var(_) => Ok(kept_head(looking.alloc, head)),
        Head::Meta(meta) => put_meta(looking, meta),
    }
}

/// A head that is kept.
fn kept_head<'a>(alloc: Global, head: Head) -> Outcome<'a>
    ensures { IsKept (head_alone head) result }
{
    Outcome::Kept(bare(alloc, head))
}

/// What a metavariable becomes.
#[cycle(put)]
fn put_meta<'a>(looking: &Looking<'a>, meta: u32) -> Result<Outcome<'a>, PutFault>
    ensures { Gives (becoming.NoNeutral looking.now.store.now (head_alone (Meta meta)))
        (λ o. BecomesOutcome looking.now.store.now (head_alone (Meta meta)) o) result }
{
    let store = looking.store;
    match store.solution(meta) {
        None => Ok(kept_head(looking.alloc, Head::Meta(meta))),
        Some(solution) => {
            let obj = put_object(looking, solution)?;
            solved_head(store, meta, obj)
        }
    }
}

/// The value of a metavariable, at its simple type.
fn solved_head<'a>(store: &'a Store, meta: u32, obj: Obj) -> Result<Outcome<'a>, PutFault>
    ensures { Gives (slice_get (meta_types (additions store.now)) meta ≡ None)
        (λ o. IsSolvedAt (plain_obj obj) (slice_get (meta_types (additions store.now)) meta) o) result }
{
    match store.metas().get(meta as usize) {
        Some(ty) => Ok(Outcome::Solved(Value { obj, ty })),
        None => {
            drop(obj);
            Err(PutFault::Untyped)
        }
    }
}

#[cycle(put)]
#[tactic(auto, using(clf_syntax::specs::Plain::plain_laws, crate::proofs::Becomings::becoming_laws))]
fn eliminate<'a>(
    looking: &Looking<'a>,
    act: &Elim,
    outcome: Outcome<'a>,
) -> Result<Outcome<'a>, PutFault>
    ensures { Gives ((n : PlainNeutral) → BecomesOutcome looking.now.store.now n outcome.entry →
        becoming.NoNeutral looking.now.store.now (eliminated (plain_elim act.now) n)) (λ o.
        (n : PlainNeutral) → BecomesOutcome looking.now.store.now n outcome.entry →
        BecomesOutcome looking.now.store.now (eliminated (plain_elim act.now) n) o) result }
{
    match act {
        Elim::Arg { mode, obj } => {
            let argument = put_object(looking, obj)?;
            under_argument(looking.alloc, *mode, outcome, argument)
        }
        Elim::First => under_first(outcome),
        Elim::Second => under_second(outcome),
    }
}

/// What a neutral becomes under an argument.
fn under_argument<'a>(
    alloc: Global,
    mode: Mode,
    outcome: Outcome<'a>,
    argument: Obj,
) -> Result<Outcome<'a>, PutFault>
    ensures { Gives (NotUnderArgument mode (plain_obj argument) outcome.entry)
        (λ o. UnderArgument mode (plain_obj argument) outcome.entry o) result }
{
    match outcome {
        Outcome::Kept(neutral) => {
            let act = Elim::Arg {
                mode,
                obj: argument,
            };
            Ok(Outcome::Kept(with_elimination(neutral, act)?))
        }
        Outcome::Solved(value) => Ok(Outcome::Solved(apply(alloc, mode, value, &argument)?)),
    }
}

/// What a neutral becomes under the first projection.
fn under_first<'a>(outcome: Outcome<'a>) -> Result<Outcome<'a>, PutFault>
    ensures { Gives (NotProjected outcome.entry) (λ o. UnderFirst outcome.entry o) result }
{
    match outcome {
        Outcome::Kept(neutral) => Ok(Outcome::Kept(with_elimination(neutral, Elim::First)?)),
        Outcome::Solved(value) => Ok(Outcome::Solved(parts(value)?.first)),
    }
}

/// What a neutral becomes under the second projection.
fn under_second<'a>(outcome: Outcome<'a>) -> Result<Outcome<'a>, PutFault>
    ensures { Gives (NotProjected outcome.entry) (λ o. UnderSecond outcome.entry o) result }
{
    match outcome {
        Outcome::Kept(neutral) => Ok(Outcome::Kept(with_elimination(neutral, Elim::Second)?)),
        Outcome::Solved(value) => Ok(Outcome::Solved(parts(value)?.second)),
    }
}

/// An expression, from its tuple on, since what comes in the place of a step stands in front of the rest.
#[cycle(put)]
#[tactic(auto, using(clf_syntax::specs::Plain::plain_laws, crate::proofs::Becomings::becoming_laws))]
fn put_expression(looking: &Looking<'_>, expr: &Expr) -> Result<Expr, PutFault>
    ensures { Gives (becoming.NoExpression looking.now.store.now (plain_expr expr.now))
        (λ x. becoming.Expression looking.now.store.now (plain_expr expr.now) (plain_expr x)) result }
{
    let tuple = put_tuple(looking, expr.result.as_slice())?;
    let mut rest = Rest::of_tuple(looking.alloc, tuple);
    let steps = expr.steps.as_slice();
    let mut left = steps.len();
    while left > 0 {
        left -= 1;
        rest = put_step(looking, &steps[left], rest)?;
    }
    Ok(rest.into_expression(looking.alloc)?)
}

/// A step in front of the rest.
#[cycle(put)]
#[tactic(auto, using(clf_syntax::specs::Plain::plain_laws, crate::proofs::Becomings::becoming_laws))]
fn put_step(looking: &Looking<'_>, step: &Step, rest: Rest) -> Result<Rest, PutFault>
    ensures { Gives ((e : PlainExpression) → becoming.Expression looking.now.store.now e (plain_rest rest) →
        becoming.NoExpression looking.now.store.now (steps_on (plain_step step.now ∷ []) e)) (λ r.
        (e : PlainExpression) → becoming.Expression looking.now.store.now e (plain_rest rest) →
        becoming.Expression looking.now.store.now (steps_on (plain_step step.now ∷ []) e) (plain_rest r)) result }
{
    let outcome = put_neutral(looking, &step.rhs)?;
    in_front(looking.alloc, &step.modes, outcome, rest)
}

/// What comes in the place of a step, in front of the rest.
fn in_front(
    alloc: Global,
    modes: &Modes,
    outcome: Outcome<'_>,
    rest: Rest,
) -> Result<Rest, PutFault>
    ensures { Gives (NotInFront modes.now outcome.entry (plain_rest rest))
        (λ r. InFront modes.now outcome.entry (plain_rest rest) (plain_rest r)) result }
{
    match outcome {
        Outcome::Kept(rhs) => Ok(step_in_front(alloc, modes, rhs, rest)?),
        Outcome::Solved(value) => value_in_front(alloc, modes, value, rest),
    }
}

/// The same, where the right side has a value.
#[tactic(auto, using(clf_syntax::specs::Plain::plain_laws, crate::proofs::Values::front_laws))]
fn value_in_front(
    alloc: Global,
    modes: &Modes,
    value: Value<'_>,
    rest: Rest,
) -> Result<Rest, PutFault>
    ensures { Gives (NotFront modes.now (plain_value value.entry) (plain_rest rest))
        (λ r. Front modes.now (plain_value value.entry) (plain_rest rest) (plain_rest r)) result }
{
    let Value { obj, ty } = value;
    match obj {
        Obj::Mon { expr } => flat_in_front(alloc, modes, expr.get(), ty, rest),
        Obj::At { neutral } => meta_in_front(alloc, modes, neutral, rest),
        Obj::Lam { .. } | Obj::Pair { .. } | Obj::Unit | Obj::Hole => Err(PutFault::Untyped),
    }
}

/// The steps of a value, and then the rest with its tuple put for the variables of the step.
#[tactic(auto, using(clf_syntax::specs::PlainSimple::plain_simple_laws, crate::proofs::Values::flat_laws))]
fn flat_in_front(
    alloc: Global,
    modes: &Modes,
    value: &Expr,
    ty: &Simple,
    rest: Rest,
) -> Result<Rest, PutFault>
    ensures { Gives (NotFlat modes.now (plain_expr value.now) (plain_simple ty.now) (plain_rest rest)) (λ r.
        Flat modes.now (plain_expr value.now) (plain_simple ty.now) (plain_rest rest) (plain_rest r)) result }
{
    match ty {
        Simple::Monad { entries } => {
            if entries.len() != modes.len() {
                return Err(PutFault::Untyped);
            }
            let rest = rest.into_expression(alloc)?;
            let whole = flatten_let(alloc, entries.as_slice(), value, &rest)?;
            Ok(Rest::of_expression(alloc, whole)?)
        }
        Simple::Atom(_) | Simple::Fun { .. } | Simple::With { .. } | Simple::Top => {
            Err(PutFault::Untyped)
        }
    }
}

/// A step in front of the rest.
#[tactic(auto, using(clf_syntax::specs::Plain::plain_laws))]
fn step_in_front(alloc: Global, modes: &Modes, rhs: Neutral, rest: Rest) -> Result<Rest, AllocError>
    ensures { IfOk result (λ r. plain_rest r ≡ step modes.now (plain_neutral rhs) (plain_rest rest)) }
{
    let modes = modes.copy(alloc)?;
    Ok(rest.behind(Step { modes, rhs })?)
}

/// A step whose right side becomes a metavariable stays.
#[tactic(auto, using(clf_syntax::specs::Plain::plain_laws))]
fn meta_in_front(alloc: Global, modes: &Modes, rhs: Neutral, rest: Rest) -> Result<Rest, PutFault>
    ensures { Gives (NoMeta (plain_neutral rhs))
        (λ r. MetaInFront modes.now (plain_neutral rhs) (plain_rest rest) (plain_rest r)) result }
{
    match rhs.head {
        Head::Meta(_) => Ok(step_in_front(alloc, modes, rhs, rest)?),
        Head::Const(_) | Head::Var(_) => Err(PutFault::Untyped),
    }
}

#[cycle(put)]
#[tactic(auto, using(clf_syntax::specs::Plain::plain_laws, crate::proofs::Becomings::becoming_laws))]
fn put_tuple(looking: &Looking<'_>, tuple: &[TupleEntry]) -> Result<Items<TupleEntry>, PutFault>
    ensures { Gives (becoming.NoTuple looking.now.store.now (map plain_entry tuple.now)) (λ es.
        becoming.Each (becoming.Entry looking.now.store.now) (map plain_entry tuple.now) (map plain_entry es)) result }
{
    let mut entries = Items::new(looking.alloc);
    for entry in tuple {
        entries.push(put_entry(looking, entry)?)?;
    }
    Ok(entries)
}

#[cycle(put)]
#[tactic(auto, using(clf_syntax::specs::Plain::plain_laws, crate::proofs::Becomings::becoming_laws))]
fn put_entry(looking: &Looking<'_>, entry: &TupleEntry) -> Result<TupleEntry, PutFault>
    ensures { Gives (becoming.NoEntry looking.now.store.now (plain_entry entry.now))
        (λ x. becoming.Entry looking.now.store.now (plain_entry entry.now) (plain_entry x)) result }
{
    Ok(TupleEntry {
        mode: entry.mode,
        obj: put_object(looking, &entry.obj)?,
    })
}
