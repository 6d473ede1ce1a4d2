//! An equation, looked at from one of its sides.
ghost use Rattle.std.specs.Prelude.{◌≡◌, ◌<◌, ℕ, true, IfErr, IfOk, MatchOption};
ghost use Rattle.clf_syntax.specs.Occurs.{occurs};
ghost use Rattle.clf_syntax.specs.Plain.{plain_obj};
ghost use Rattle.clf_syntax.specs.PlainSimple.{plain_simple};
ghost use Rattle.clf_syntax.specs.Wide.{IsWant};
ghost use Rattle.celf_reach.specs.declared.answer.Reach.TheVariants.{Assign};
ghost use Rattle.celf_unify.specs.Gathered.{consts_in, metas_in};
ghost use Rattle.celf_unify.specs.Sided.{HasMetaHead, IsPosed, IsSaid, LacksMetaHead, SaysLeft, posed};

use crate::invert::inverted;
use crate::places::want_of;
use crate::step::Step;
use celf_constraints::Places;
use celf_reach::{Reach, reach};
use clf_syntax::{Head, Obj, Simple, SimpleEntry, Want};
use metavars::Store;
use std::alloc::Global;

/// What one side says: nothing, that the equation clashes, or a step that it allows.
#[derive(Drop)]
pub enum Sided {
    Nothing,
    Clash,
    Step(Step),
}

/// The equation of these sides, looked at from the first one. The sides are not joined.
pub fn from_side(
    store: &Store,
    locals: &[SimpleEntry],
    ty: &Simple,
    side: &Obj,
    other: &Obj,
) -> Result<Sided, Want>
    requires posed { IsPosed store.now
        (posed locals.now (plain_simple ty.now) (plain_obj side.now) (plain_obj other.now)) }
    ensures says { IfOk result (λ s. SaysLeft (consts_in store.now) (metas_in store.now)
        (posed locals.now (plain_simple ty.now) (plain_obj side.now) (plain_obj other.now)) s) }
    ensures wanting { IfErr result IsWant }
{
    let alloc = store.alloc();
    match meta_head(side) {
        None => Ok(Sided::Nothing),
        Some(meta) => match reach(
            alloc,
            store.consts(),
            store.metas(),
            locals,
            ty,
            side,
            other,
        ) {
            Ok(found) => said(alloc, meta, locals.len(), other, found),
            Err(fault) => Err(want_of(alloc, fault)),
        },
    }
}

/// The metavariable that is the head of the object.
#[tactic(auto, using(clf_syntax::specs::Plain::plain_laws, clf_simple::proofs::Lists::neutral_head))]
pub fn meta_head(obj: &Obj) -> Option<u32>
    ensures { MatchOption result (LacksMetaHead (plain_obj obj.now)) (λ m. HasMetaHead (plain_obj obj.now) m) }
{
    match obj {
        Obj::At { neutral } => match neutral.head {
            Head::Meta(meta) => Some(meta),
            Head::Const(_) | Head::Var(_) => None,
        },
        Obj::Lam { .. } | Obj::Pair { .. } | Obj::Unit | Obj::Mon { .. } | Obj::Hole => None,
    }
}

/// What is made of an answer, where the side is this metavariable and so many locals are around the equation.
fn said(
    alloc: Global,
    meta: u32,
    count: usize,
    other: &Obj,
    found: Reach<'_>,
) -> Result<Sided, Want>
    requires within { (v : ℕ) → occurs v (plain_obj other.now) ≡ true → v < count }
    ensures said { IfOk result (λ s. IsSaid meta count (plain_obj other.now) found.entry s) }
    ensures wanting { IfErr result IsWant }
{
    match found {
        Reach::No => Ok(Sided::Nothing),
        Reach::Clash => Ok(Sided::Clash),
        Reach::Same { mask } => Ok(Sided::Step(Step::Narrow { meta, mask })),
        Reach::Prune { meta, mask } => Ok(Sided::Step(Step::Narrow { meta, mask })),
        Reach::Assign(places) => assigned(alloc, count, places, other),
    }
}

/// The step that gives the other side to the metavariable at these places.
fn assigned(alloc: Global, count: usize, places: Places<'_>, other: &Obj) -> Result<Sided, Want>
    requires within { (v : ℕ) → occurs v (plain_obj other.now) ≡ true → v < count }
    ensures assigned { IfOk result
        (λ s. IsSaid places.entry.meta count (plain_obj other.now) (Assign places.entry) s) }
    ensures wanting { IfErr result IsWant }
{
    let solution = inverted(alloc, count, places.places.as_slice(), other)?;
    Ok(Sided::Step(Step::Assign {
        meta: places.meta,
        solution,
    }))
}
