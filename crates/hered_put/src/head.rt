//! What stands for a head.
ghost use Rattle.std.specs.Prelude.{◌≡◌, ◌+◌, ◌<◌, ◌^◌, map};
ghost use Rattle.clf_syntax.specs.declared.tree.Head.TheVariants.{Var};
ghost use Rattle.clf_syntax.specs.Tree.{head_alone, tuple_of};
ghost use Rattle.clf_syntax.specs.Renaming.{up};
ghost use Rattle.clf_syntax.specs.Plain.{plain_obj, plain_entry};
ghost use Rattle.hered_subst.specs.Substitution.{keep, put, ren_image, single, objects};
ghost use Rattle.hered_put.specs.Function.{kept};
ghost use Rattle.hered_put.specs.Tupled.{tupled};
ghost use Rattle.hered_put.specs.Answers.{Answers};
ghost use Rattle.hered_put.specs.Environments.{environment_of};
ghost use Rattle.hered_put.specs.Outcomes.{plain_outcome};
ghost use Rattle.hered_put.specs.Pieces.{image_of, head_of_environment};

use crate::environment::{Environment, Images, Outcome};
use crate::fault::PutFault;
use clf_syntax::{Head, Neutral, Obj, Or, TupleEntry};
use sqlite_items::Items;
use std::alloc::Global;

/// What stands for a head.
pub fn head_outcome(
    alloc: Global,
    head: Head,
    environment: &Environment<'_>,
) -> Result<Outcome, PutFault>
    ensures { Answers plain_outcome (head_of_environment (environment_of environment.now) head) result }
{
    match head {
        Head::Const(place) => Ok(kept_head(alloc, Head::Const(place))),
        Head::Meta(meta) => Ok(kept_head(alloc, Head::Meta(meta))),
        Head::Var(index) => variable_outcome(alloc, index, environment),
    }
}

/// A head that is kept.
#[tactic(auto, using(clf_syntax::specs::Plain::plain_laws))]
fn kept_head(alloc: Global, head: Head) -> Outcome
    ensures { plain_outcome result ≡ kept (head_alone head) }
{
    Outcome::Kept(Neutral {
        head,
        spine: Items::new(alloc),
    })
}

fn variable_outcome(
    alloc: Global,
    index: u32,
    environment: &Environment<'_>,
) -> Result<Outcome, PutFault>
    ensures { Answers plain_outcome (head_of_environment (environment_of environment.now) (Var index)) result }
{
    if u64::from(index) < environment.binders {
        return Ok(kept_head(alloc, Head::Var(index)));
    }
    let binders = environment.binders as u32;
    let outer = index - binders;
    match environment.images {
        Images::Object { obj, var } => object_outcome(alloc, outer, obj, var, binders),
        Images::Tuple { tuple, raised } => tuple_outcome(alloc, outer, tuple, raised, binders),
    }
}

/// What stands for a variable under binders, where one object is put.
fn object_outcome(
    alloc: Global,
    index: u32,
    obj: &Obj,
    var: u32,
    binders: u32,
) -> Result<Outcome, PutFault>
    requires { index + binders < 2 ^ 32 }
    ensures { Answers plain_outcome (image_of (ren_image (up binders) (single (plain_obj obj.now) var (Var index))))
        result }
{
    if index < var {
        Ok(kept_head(alloc, Head::Var(index + binders)))
    } else if index > var {
        Ok(kept_head(alloc, Head::Var(index - 1 + binders)))
    } else {
        shifted(alloc, obj, binders)
    }
}

/// What stands for a variable under binders, where a tuple is put.
fn tuple_outcome(
    alloc: Global,
    index: u32,
    tuple: &[TupleEntry],
    raised: u64,
    binders: u32,
) -> Result<Outcome, PutFault>
    ensures { Answers plain_outcome (image_of (ren_image (up binders)
        (tupled (objects (tuple_of (map plain_entry tuple.now))) raised (Var index)))) result }
{
    let place = index as usize;
    if place < tuple.len() {
        return shifted(alloc, &tuple[tuple.len() - 1 - place].obj, binders);
    }
    let lowered = (place - tuple.len()) as u64 + u64::from(binders);
    match lowered.checked_add(raised) {
        Some(number) => kept_variable(alloc, number),
        None => Err(PutFault::TooFar),
    }
}

/// A variable that is kept, where its number can be written.
fn kept_variable(alloc: Global, number: u64) -> Result<Outcome, PutFault>
    ensures { Answers plain_outcome (image_of (keep (Var number))) result }
{
    if number < 0x1_0000_0000 {
        Ok(kept_head(alloc, Head::Var(number as u32)))
    } else {
        Err(PutFault::TooFar)
    }
}

/// The object that is put, past binders.
fn shifted(alloc: Global, obj: &Obj, binders: u32) -> Result<Outcome, PutFault>
    ensures { Answers plain_outcome (image_of (ren_image (up binders) (put (plain_obj obj.now)))) result }
{
    match obj.shift(alloc, binders, 0) {
        Ok(obj) => Ok(Outcome::Value(obj)),
        Err(Or::Fault(_)) => Err(PutFault::TooFar),
        Err(Or::NoMemory) => Err(PutFault::NoMemory),
    }
}
