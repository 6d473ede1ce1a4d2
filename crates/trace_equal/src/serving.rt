//! Which right step may stand for a left one, under tables of ids.
ghost use Rattle.std.specs.Prelude.{◌≡◌, ℕ, List, Some, IfOk, OnOk, map};
ghost use Rattle.clf_syntax.specs.Plain.{plain_step};
ghost use Rattle.trace_equal.specs.Comparing as spec;
ghost use Rattle.trace_equal.specs.Seeking.{IsNext, Marks, served_at};

use crate::choice::{Choice, Taken};
use crate::modes::are_same_modes;
use crate::objects::joined_neutral;
use crate::rights::Rights;
use crate::tables::{Run, Tables};
use clf_syntax::{Step, deeper};
use sqlite_items::at;
use std::alloc::{AllocError, Global};

/// Whether a right step may stand for a left one. The right step comes after those that bind the variables of `before`.
#[cycle(compare)]
#[tactic(auto, using(clf_syntax::specs::Plain::plain_laws))]
fn serves(
    alloc: Global,
    left: &Step,
    right: &Step,
    before: Run,
    tables: &mut Tables,
) -> Result<bool, AllocError>
    ensures answer { IfOk result
        (λ joined. joined ≡ spec.step_serves tables.old (plain_step left.now) (before, plain_step right.now)) }
    ensures kept { OnOk result (tables.new ≡ tables.old) }
{
    if !are_same_modes(left.modes.as_slice(), right.modes.as_slice()) {
        return Ok(false);
    }
    tables.enter_right(before)?;
    let joined = joined_neutral(alloc, &left.rhs, &right.rhs, tables)?;
    tables.leave_right();
    Ok(joined)
}

/// The ids of the variables of the right step at a place, where it is free and may stand for the left one.
#[cycle(compare)]
fn served(
    alloc: Global,
    left: &Step,
    place: usize,
    right: &[Step],
    rights: &Rights,
    choice: &Choice,
    tables: &mut Tables,
) -> Result<Option<Run>, AllocError>
    ensures answer { IfOk result (λ run.
        run
        ≡ served_at tables.old choice.now.used (plain_step left.now)
        (spec.zipped rights.now.before (map plain_step right.now)) place) }
    ensures kept { OnOk result (tables.new ≡ tables.old) }
{
    if !choice.is_free(place) {
        return Ok(None);
    }
    match rights.before.get(place) {
        Some(before) => match at(right, place) {
            Some(step) => step_served(alloc, left, step, *before, tables),
            None => Ok(None),
        },
        None => Ok(None),
    }
}

/// The ids of the variables of a right step, where it may stand for the left one.
#[cycle(compare)]
#[tactic(auto, using(clf_syntax::specs::Plain::plain_laws))]
fn step_served(
    alloc: Global,
    left: &Step,
    right: &Step,
    before: Run,
    tables: &mut Tables,
) -> Result<Option<Run>, AllocError>
    ensures answer { IfOk result
        (λ run. run ≡ spec.step_served tables.old (plain_step left.now) (Some (before, plain_step right.now))) }
    ensures kept { OnOk result (tables.new ≡ tables.old) }
{
    if !serves(alloc, left, right, before, tables)? {
        return Ok(None);
    }
    let first = deeper(before.first, before.count)?;
    Ok(Some(Run {
        first,
        count: right.modes.len(),
    }))
}

/// The first of the candidates from a number on that is free and serves.
#[cycle(compare)]
pub fn next_taken(
    alloc: Global,
    left: &Step,
    right: &[Step],
    rights: &Rights,
    places: &[usize],
    from: usize,
    choice: &Choice,
    tables: &mut Tables,
) -> Result<Option<Taken>, AllocError>
    ensures next { IfOk result (λ taken.
        (used : List ℕ) → Marks used choice.now.used →
        IsNext (spec.zipped rights.now.before (map plain_step right.now)) tables.old used (plain_step left.now)
        places.now from taken) }
    ensures kept { OnOk result (tables.new ≡ tables.old) }
{
    for number in from..places.len() {
        let place = places[number];
        if let Some(run) = served(alloc, left, place, right, rights, choice, tables)? {
            return Ok(Some(Taken {
                next: number + 1,
                place,
                run,
            }));
        }
    }
    Ok(None)
}
