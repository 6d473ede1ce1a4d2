//! What an equation allows, looked at from one of its sides.
ghost use Rattle.std.specs.Prelude.{◌≡◌, ◌↔◌, IfOk, IfErr, IsTrue, MatchOption, map};
ghost use Rattle.clf_syntax.specs.Plain.{plain_obj, plain_neutral};
ghost use Rattle.clf_syntax.specs.PlainSimple.{plain_simple};
ghost use Rattle.clf_syntax.specs.Simple.{SimplyTyped};
ghost use Rattle.clf_syntax.specs.Tree.{PlainNeutral, PlainObject, atomic, head_of};
ghost use Rattle.clf_syntax.specs.TypeTree.{SimpleType};
ghost use Rattle.clf_syntax.specs.declared.tree.Head.TheVariants.{Meta};
ghost use Rattle.pattern_laws.specs.Equations.{scoped};
ghost use Rattle.pattern_laws.specs.Patterns.{LacksMisfits};
ghost use Rattle.celf_constraints.specs.Reading.{FormTooFar, own_places, plain_places};
ghost use Rattle.celf_constraints.specs.Equated.{plain_locals};
ghost use Rattle.celf_reach.specs.Answered.{Answers, heads_of};
ghost use Rattle.celf_reach.specs.Asked.{AnswersAt, AnswersFor, Told};
ghost use Rattle.celf_reach.specs.Limits.{ReachTooFar};
ghost use Rattle.celf_reach.specs.Passed.{PassesFor};
ghost use Rattle.celf_reach.specs.Scanned.{plain_found};

use crate::answer::Reach;
use crate::fits::misfit_occurs;
use crate::found::Found;
use crate::masks::foreign_marks;
use crate::same::agreeing;
use crate::scan::scan;
use crate::tables::{Sought, Tables};
use celf_constraints::{Places, read_places, scope_of};
use clf_syntax::{Head, Neutral, Obj, Or, Simple, SimpleEntry, TooFar};
use std::alloc::Global;

/// What the equation allows, looked at from this side: `No` exactly where it does not reach the other side, and else
/// what its step may rest on. The tables have the simple types of constants and metavariables, and `locals` those of
/// the locals, the oldest first; `ty` is the type of both sides.
pub fn reach<'a>(
    alloc: Global,
    consts: &'a [Simple],
    metas: &'a [Simple],
    locals: &'a [SimpleEntry],
    ty: &'a Simple,
    side: &Obj,
    other: &Obj,
) -> Result<Reach<'a>, Or<TooFar>>
    ensures answer { IfOk result (λ r.
        SimplyTyped (scoped (plain_locals locals.now) (heads_of consts.now metas.now))
        (plain_obj side.now) (plain_simple ty.now)
        → SimplyTyped (scoped (plain_locals locals.now) (heads_of consts.now metas.now))
        (plain_obj other.now) (plain_simple ty.now)
        →
        Answers (heads_of consts.now metas.now) (plain_locals locals.now) (plain_simple ty.now) (plain_obj side.now)
        (plain_obj other.now) r) }
    ensures too_far { IfErr result (λ e.
        SimplyTyped (scoped (plain_locals locals.now) (heads_of consts.now metas.now))
        (plain_obj other.now) (plain_simple ty.now)
        →
        ReachTooFar (heads_of consts.now metas.now) (plain_locals locals.now) (plain_simple ty.now)
        (plain_obj other.now) e) }
{
    let tables = Tables {
        consts,
        metas,
        locals,
    };
    match as_neutral(side) {
        Some(neutral) => reach_neutral(alloc, &tables, ty, side, neutral, other),
        None => Ok(Reach::No),
    }
}

/// The neutral, if the object is an atomic one.
#[tactic(auto, using(clf_syntax::specs::Plain::plain_laws))]
fn as_neutral<'o>(obj: &'o Obj) -> Option<&'o Neutral>
    ensures { MatchOption result ((n : PlainNeutral) → plain_obj obj.now ≡ atomic n → ⊥)
        (λ n. plain_obj obj.now ≡ atomic (plain_neutral n.now)) }
{
    match obj {
        Obj::At { neutral } => Some(neutral),
        Obj::Lam { .. } | Obj::Pair { .. } | Obj::Unit | Obj::Mon { .. } | Obj::Hole => None,
    }
}

/// The same, where the side is this neutral.
fn reach_neutral<'a>(
    alloc: Global,
    tables: &Tables<'a>,
    ty: &'a Simple,
    side: &Obj,
    neutral: &Neutral,
    other: &Obj,
) -> Result<Reach<'a>, Or<TooFar>>
    ensures answer { IfOk result (λ r. plain_obj side.now ≡ atomic (plain_neutral neutral.now)
        → AnswersFor tables.now (plain_simple ty.now) (plain_obj side.now) (plain_obj other.now) r) }
    ensures too_far { IfErr result (PassesFor tables.now (plain_simple ty.now) (plain_obj other.now)) }
{
    match read_places(alloc, tables.metas, tables.locals, neutral)? {
        None => Ok(Reach::No),
        Some(places) => reach_places(alloc, tables, ty, side, places, other),
    }
}

/// The same, where the side is a metavariable at these places.
fn reach_places<'a>(
    alloc: Global,
    tables: &Tables<'a>,
    ty: &'a Simple,
    side: &Obj,
    places: Places<'a>,
    other: &Obj,
) -> Result<Reach<'a>, Or<TooFar>>
    ensures answer { IfOk result (λ r. (n : PlainNeutral) →
        AnswersAt tables.now (plain_simple ty.now) (plain_obj side.now) n places.entry (plain_obj other.now) r) }
    ensures too_far { IfErr result (PassesFor tables.now (plain_simple ty.now) (plain_obj other.now)) }
{
    if misfit_occurs(alloc, &places, other)? {
        return Ok(Reach::No);
    }
    match same_head(places.meta, other) {
        Some(neutral) => reach_same(alloc, tables, side, places, neutral),
        None => reach_other(alloc, tables, ty, places, other),
    }
}

/// Whether the head is the metavariable.
fn is_meta(meta: u32, head: Head) -> bool
    ensures { IsTrue result ↔ (head ≡ Meta meta) }
{
    match head {
        Head::Meta(other) => other == meta,
        Head::Const(_) | Head::Var(_) => false,
    }
}

/// The neutral, if the object is one whose head is the metavariable.
#[tactic(auto, using(clf_syntax::specs::Plain::plain_laws))]
fn same_head<'o>(meta: u32, obj: &'o Obj) -> Option<&'o Neutral>
    ensures { MatchOption result ((n : PlainNeutral) → plain_obj obj.now ≡ atomic n → head_of n ≡ Meta meta → ⊥)
        (λ n. (plain_obj obj.now ≡ atomic (plain_neutral n.now)) × (head_of (plain_neutral n.now) ≡ Meta meta)) }
{
    match obj {
        Obj::At { neutral } => {
            if is_meta(meta, neutral.head) {
                Some(neutral)
            } else {
                None
            }
        }
        Obj::Lam { .. } | Obj::Pair { .. } | Obj::Unit | Obj::Mon { .. } | Obj::Hole => None,
    }
}

/// The same metavariable on the other side.
fn reach_same<'a>(
    alloc: Global,
    tables: &Tables<'a>,
    side: &Obj,
    places: Places<'a>,
    neutral: &Neutral,
) -> Result<Reach<'a>, Or<TooFar>>
    ensures answer { IfOk result (λ r. (n : PlainNeutral) (a : SimpleType)
        → head_of (plain_neutral neutral.now) ≡ Meta places.entry.meta
        → LacksMisfits (plain_places places.entry) (own_places places.entry) (atomic (plain_neutral neutral.now))
        → AnswersAt tables.now a (plain_obj side.now) n places.entry (atomic (plain_neutral neutral.now)) r) }
    ensures too_far { IfErr result (FormTooFar (map (λ l. l.1) (plain_locals tables.now.locals.now))) }
{
    match read_places(alloc, tables.metas, tables.locals, neutral)? {
        None => Ok(Reach::No),
        Some(others) => {
            if misfit_occurs(alloc, &others, side)? {
                return Ok(Reach::No);
            }
            match agreeing(alloc, &places, &others)? {
                None => Ok(Reach::No),
                Some(mask) => Ok(Reach::Same { mask }),
            }
        }
    }
}

/// Another head on the other side.
fn reach_other<'a>(
    alloc: Global,
    tables: &Tables<'a>,
    ty: &'a Simple,
    places: Places<'a>,
    other: &Obj,
) -> Result<Reach<'a>, Or<TooFar>>
    ensures answer { IfOk result (λ r. (side : PlainObject) (n : PlainNeutral)
        → ((k : PlainNeutral) → plain_obj other.now ≡ atomic k → head_of k ≡ Meta places.entry.meta → ⊥)
        → LacksMisfits (plain_places places.entry) (own_places places.entry) (plain_obj other.now)
        → AnswersAt tables.now (plain_simple ty.now) side n places.entry (plain_obj other.now) r) }
    ensures too_far { IfErr result (PassesFor tables.now (plain_simple ty.now) (plain_obj other.now)) }
{
    let marks = foreign_marks(alloc, tables.locals.len(), &places)?;
    let types = scope_of(alloc, tables.locals)?;
    let found = {
        let sought = Sought {
            consts: tables.consts,
            metas: tables.metas,
            meta: places.meta,
            count: tables.locals.len(),
            marks: marks.as_slice(),
        };
        scan(alloc, &sought, types.as_slice(), other, ty)?
    };
    Ok(told(found, places))
}

/// The answer to what was found.
fn told<'a>(found: Found, places: Places<'a>) -> Reach<'a>
    ensures { Told (plain_found found) places.entry result }
{
    let Found { clash, free, prune } = found;
    if clash {
        return Reach::Clash;
    }
    if !free {
        return Reach::No;
    }
    match prune {
        Some(taken) => Reach::Prune {
            meta: taken.meta,
            mask: taken.mask,
        },
        None => Reach::Assign(places),
    }
}
