//! What comes in the place of a step, and in front of what it stands.
ghost use Rattle.std.specs.Prelude.{◌≡◌, [], ◌∷◌, IfOk, map, reverse};
ghost use Rattle.clf_syntax.specs.declared.tree.Expr.{out-Expr};
ghost use Rattle.clf_syntax.specs.Tree.{steps_on, done, tuple_of};
ghost use Rattle.clf_syntax.specs.Plain.{plain_obj, plain_expr, plain_step, plain_entry, plain_neutral};
ghost use Rattle.hered_put.specs.Answers.{Answers};
ghost use Rattle.hered_put.specs.Outcomes.{plain_outcome, plain_coming, plain_rest};
ghost use Rattle.hered_put.specs.Pieces.{staying, binders_of, coming_answer, value_answer, neutral_answer};

use crate::environment::Outcome;
use crate::fault::PutFault;
use clf_syntax::{Expr, Head, Modes, Neutral, Obj, Step, TupleEntry, deeper};
use sqlite_items::Items;
use std::alloc::{AllocError, Global};

/// What comes in the place of a step.
#[derive(Drop)]
pub enum Coming {
    /// The step stays.
    Stays(Step),
    /// The steps of a value come, whose tuple is put for so many variables.
    Gives { binders: usize, expr: Expr },
}

/// An expression that grows in front: its steps, the last one first, and its tuple.
#[derive(Drop)]
pub struct Rest {
    pub reversed: Items<Step>,
    pub tuple: Items<TupleEntry>,
}

/// What comes in the place of a step of these modes, by what its right side becomes.
#[tactic(auto, using(crate::proofs::StepPieces::coming_laws))]
pub fn in_place(alloc: Global, modes: &Modes, outcome: Outcome) -> Result<Coming, PutFault>
    ensures { Answers plain_coming (coming_answer modes.now (plain_outcome outcome)) result }
{
    match outcome {
        Outcome::Kept(neutral) => Ok(stays(alloc, modes, neutral)?),
        Outcome::Value(value) => value_in_place(alloc, modes, value),
    }
}

/// The same, where the right side has a value.
#[tactic(auto, using(clf_syntax::specs::Plain::plain_laws, crate::proofs::StepPieces::coming_laws))]
fn value_in_place(alloc: Global, modes: &Modes, value: Obj) -> Result<Coming, PutFault>
    ensures { Answers plain_coming (value_answer modes.now (plain_obj value)) result }
{
    match value {
        Obj::Mon { expr } => Ok(Coming::Gives {
            binders: modes.len(),
            expr: expr.into_inner(),
        }),
        Obj::At { neutral } => neutral_in_place(alloc, modes, neutral),
        Obj::Lam { .. } | Obj::Pair { .. } | Obj::Unit | Obj::Hole => Err(PutFault::Untyped),
    }
}

/// The same, where the value is a neutral: a metavariable may stand at a monad.
#[tactic(auto, using(clf_syntax::specs::Plain::plain_laws, crate::proofs::StepPieces::coming_laws))]
fn neutral_in_place(alloc: Global, modes: &Modes, rhs: Neutral) -> Result<Coming, PutFault>
    ensures { Answers plain_coming (neutral_answer modes.now (plain_neutral rhs)) result }
{
    match rhs.head {
        Head::Meta(_) => Ok(stays(alloc, modes, rhs)?),
        Head::Const(_) | Head::Var(_) => Err(PutFault::Untyped),
    }
}

/// A step that stays, with what its right side becomes.
#[tactic(auto, using(clf_syntax::specs::Plain::plain_laws))]
fn stays(alloc: Global, modes: &Modes, rhs: Neutral) -> Result<Coming, AllocError>
    ensures { IfOk result (λ c. plain_coming c ≡ staying modes.now (plain_neutral rhs)) }
{
    Ok(Coming::Stays(Step {
        modes: modes.copy(alloc)?,
        rhs,
    }))
}

/// How many variables the steps bind. No 2^64 of them fit memory.
#[tactic(auto, using(clf_syntax::specs::Plain::plain_laws, crate::proofs::StepPieces::binders_laws))]
pub fn bound_variables(steps: &[Step]) -> Result<u64, AllocError>
    ensures { IfOk result (λ n. n ≡ binders_of (map plain_step steps.now)) }
{
    let mut bound = 0u64;
    for step in steps {
        bound = deeper(bound, step.modes.len())?;
    }
    Ok(bound)
}

/// The same steps, the last one first.
fn reversed_steps(alloc: Global, mut steps: Items<Step>) -> Result<Items<Step>, AllocError>
    ensures { IfOk result (λ r. r ≡ reverse steps) }
{
    let mut reversed = Items::new(alloc);
    while let Some(step) = steps.pop() {
        reversed.push(step)?;
    }
    Ok(reversed)
}

impl Rest {
    /// No steps, and a tuple.
    pub fn of_tuple(alloc: Global, tuple: Items<TupleEntry>) -> Rest
        ensures { plain_rest result ≡ done (tuple_of (map plain_entry tuple)) }
    {
        Rest {
            reversed: Items::new(alloc),
            tuple,
        }
    }

    /// An expression that may grow in front.
    #[tactic(auto, using(clf_syntax::specs::Plain::plain_laws, crate::proofs::ExpressionPieces::rest_laws))]
    pub fn of_expression(alloc: Global, expr: Expr) -> Result<Rest, AllocError>
        ensures { IfOk result (λ r. plain_rest r ≡ plain_expr expr) }
    {
        let Expr { steps, result } = expr;
        Ok(Rest {
            reversed: reversed_steps(alloc, steps)?,
            tuple: result,
        })
    }

    /// The whole expression.
    #[tactic(auto, using(clf_syntax::specs::Plain::plain_laws, crate::proofs::ExpressionPieces::rest_laws))]
    pub fn into_expression(self, alloc: Global) -> Result<Expr, AllocError>
        ensures { IfOk result (λ e. plain_expr e ≡ plain_rest self) }
    {
        let Rest { reversed, tuple } = self;
        Ok(Expr {
            steps: reversed_steps(alloc, reversed)?,
            result: tuple,
        })
    }

    /// The same after one step more.
    #[tactic(auto, using(clf_syntax::specs::Plain::plain_laws, crate::proofs::ExpressionPieces::rest_laws))]
    pub fn behind(self, step: Step) -> Result<Rest, AllocError>
        ensures { IfOk result (λ r. plain_rest r ≡ steps_on (plain_step step ∷ []) (plain_rest self)) }
    {
        let Rest {
            mut reversed,
            tuple,
        } = self;
        reversed.push(step)?;
        Ok(Rest { reversed, tuple })
    }
}
