//! Values of neutrals whose head has a solution, under eliminations.
ghost use Rattle.std.specs.Prelude.{◌≡◌};
ghost use Rattle.clf_syntax.specs.Plain.{plain_obj, plain_neutral};
ghost use Rattle.clf_syntax.specs.PlainSimple.{plain_simple};
ghost use Rattle.clf_syntax.specs.Tree.{head_alone, pair};
ghost use Rattle.metavars.specs.Outcomes.{Gives, plain_value, Applied, NotApplied, AppliedAt, NotAppliedAt, IsPair, NoPair, IsNoPair};

use clf_syntax::{Head, Mode, Neutral, Obj, Simple};
use hered_put::{PutFault, put_obj};
use sqlite_items::Items;
use std::alloc::Global;

/// An object with its simple type.
#[derive(Drop)]
pub struct Value<'a> {
    pub obj: Obj,
    pub ty: &'a Simple,
}

/// The parts of a value.
#[derive(Drop)]
pub struct ValueParts<'a> {
    pub first: Value<'a>,
    pub second: Value<'a>,
}

/// What a neutral becomes: its head is kept, or it has a value.
#[derive(Drop)]
pub enum Outcome<'a> {
    Kept(Neutral),
    Solved(Value<'a>),
}

/// A head alone.
#[tactic(auto, using(clf_syntax::specs::Plain::plain_laws))]
pub fn bare(alloc: Global, head: Head) -> Neutral
    ensures { plain_neutral result ≡ head_alone head }
{
    Neutral {
        head,
        spine: Items::new(alloc),
    }
}

/// A value under an argument, which is put for the variable of a lambda.
#[tactic(auto, using(clf_syntax::specs::PlainSimple::plain_simple_laws, crate::proofs::Values::applied_laws))]
pub fn apply<'a>(
    alloc: Global,
    mode: Mode,
    value: Value<'a>,
    argument: &Obj,
) -> Result<Value<'a>, PutFault>
    ensures { Gives (NotApplied mode (plain_value value.entry) (plain_obj argument.now))
        (λ v. Applied mode (plain_value value.entry) (plain_obj argument.now) (plain_value v)) result }
{
    let Value { obj, ty } = value;
    match ty {
        Simple::Fun { mode: _, dom, cod } => Ok(Value {
            obj: apply_object(alloc, mode, dom.get(), &obj, argument)?,
            ty: cod.get(),
        }),
        Simple::Atom(_) | Simple::With { .. } | Simple::Top | Simple::Monad { .. } => {
            Err(PutFault::Untyped)
        }
    }
}

/// A lambda under an argument of a simple type.
#[tactic(auto, using(clf_syntax::specs::Plain::plain_laws, crate::proofs::Values::applied_laws))]
fn apply_object(
    alloc: Global,
    mode: Mode,
    dom: &Simple,
    obj: &Obj,
    argument: &Obj,
) -> Result<Obj, PutFault>
    ensures { Gives (NotAppliedAt mode (plain_simple dom.now) (plain_obj obj.now) (plain_obj argument.now))
        (λ x. AppliedAt mode (plain_simple dom.now) (plain_obj obj.now) (plain_obj argument.now) (plain_obj x))
        result }
{
    match obj {
        Obj::Lam { mode: wanted, body } => {
            if mode != *wanted {
                return Err(PutFault::Untyped);
            }
            put_obj(alloc, dom, argument, 0, body.get())
        }
        Obj::Pair { .. } | Obj::Unit | Obj::Mon { .. } | Obj::At { .. } | Obj::Hole => {
            Err(PutFault::Untyped)
        }
    }
}

/// The parts of a value that is a pair.
#[tactic(auto, using(clf_syntax::specs::PlainSimple::plain_simple_laws, crate::proofs::Values::pair_laws))]
pub fn parts<'a>(value: Value<'a>) -> Result<ValueParts<'a>, PutFault>
    ensures { Gives (NoPair (plain_value value.entry))
        (λ p. IsPair (plain_value value.entry) (plain_value p.first) (plain_value p.second)) result }
{
    let Value { obj, ty } = value;
    match ty {
        Simple::With { left, right } => {
            let parts = pair_parts(obj)?;
            Ok(ValueParts {
                first: Value {
                    obj: parts.left,
                    ty: left.get(),
                },
                second: Value {
                    obj: parts.right,
                    ty: right.get(),
                },
            })
        }
        Simple::Atom(_) | Simple::Fun { .. } | Simple::Top | Simple::Monad { .. } => {
            Err(PutFault::Untyped)
        }
    }
}

/// The parts of a pair.
#[derive(Drop)]
struct PairParts {
    left: Obj,
    right: Obj,
}

#[tactic(auto, using(clf_syntax::specs::Plain::plain_laws, crate::proofs::Values::pair_laws))]
fn pair_parts(obj: Obj) -> Result<PairParts, PutFault>
    ensures { Gives (IsNoPair (plain_obj obj)) (λ p. plain_obj obj ≡ pair (plain_obj p.left) (plain_obj p.right))
        result }
{
    match obj {
        Obj::Pair { left, right } => Ok(PairParts {
            left: left.into_inner(),
            right: right.into_inner(),
        }),
        Obj::Lam { .. } | Obj::Unit | Obj::Mon { .. } | Obj::At { .. } | Obj::Hole => {
            Err(PutFault::Untyped)
        }
    }
}
