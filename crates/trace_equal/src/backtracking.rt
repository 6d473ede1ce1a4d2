//! The search for the first matching of two expressions, with backtracking.
ghost use Rattle.std.specs.Prelude.{◌≡◌, ℕ, List, [], IfOk, OnOk, map, length};
ghost use Rattle.clf_syntax.specs.Plain.{plain_expr};
ghost use Rattle.trace_equal.specs.Comparing as spec;
ghost use Rattle.trace_equal.specs.Seeking.{Advances, Marks, problem, sought_at};

use crate::choice::{Choice, Taken};
use crate::objects::joined_tuple;
use crate::rights::{Rights, all_places, each_with, right_ids};
use crate::serving::next_taken;
use crate::tables::{Run, Tables};
use clf_syntax::{Expr, deeper};
use sqlite_items::{Items, at};
use std::alloc::{AllocError, Global};

/// What the search does next.
#[derive(Clone, Copy, Debug)]
pub enum Turn {
    /// Each left step has its right step, and the tuples are joined.
    Complete,
    /// The next left step takes a candidate.
    Take(Taken),
    /// What is taken leads to no matching.
    Back,
}

/// The tuples at the end, where the right one stands under all variables of the right steps.
#[cycle(compare)]
fn joined_results(
    alloc: Global,
    left: &Expr,
    right: &Expr,
    all: Run,
    tables: &mut Tables,
) -> Result<bool, AllocError>
    ensures answer { IfOk result (λ joined.
        joined
        ≡ spec.compared_tuple (spec.with_right tables.old all) (spec.tuple_at left.now)
        (spec.tuple_at right.now)) }
    ensures kept { OnOk result (tables.new ≡ tables.old) }
{
    tables.enter_right(all)?;
    let joined = joined_tuple(
        alloc,
        left.result.as_slice(),
        right.result.as_slice(),
        tables,
    )?;
    tables.leave_right();
    Ok(joined)
}

/// One turn of the search: what comes of the steps that are taken and of the candidates from a number on.
#[cycle(compare)]
fn advance(
    alloc: Global,
    left: &Expr,
    right: &Expr,
    rights: &Rights,
    candidates: &[&[usize]],
    from: usize,
    choice: &Choice,
    tables: &mut Tables,
) -> Result<Turn, AllocError>
    ensures advances { IfOk result (λ turn.
        (used : List ℕ) → Marks used choice.now.used →
        Advances (problem left.now right.now rights.now.before rights.now.all (map (λ c. c.now) candidates.now))
        (length choice.now.taken) tables.old used from turn) }
    ensures kept { OnOk result (tables.new ≡ tables.old) }
{
    let count = choice.taken.len();
    match left.steps.get(count) {
        Some(step) => match at(candidates, count) {
            Some(places) => {
                let steps = right.steps.as_slice();
                match next_taken(alloc, step, steps, rights, places, from, choice, tables)? {
                    Some(taken) => Ok(Turn::Take(taken)),
                    None => Ok(Turn::Back),
                }
            }
            None => Ok(Turn::Back),
        },
        None => {
            if joined_results(alloc, left, right, rights.all, tables)? {
                return Ok(Turn::Complete);
            }
            Ok(Turn::Back)
        }
    }
}

/// The first matching where the steps of each left step's candidates are tried in turn.
///
/// It goes forward while a candidate serves, and back to the step before where none is left.
#[cycle(compare)]
fn search(
    alloc: Global,
    left: &Expr,
    right: &Expr,
    rights: &Rights,
    candidates: &[&[usize]],
    tables: &mut Tables,
) -> Result<Option<Items<usize>>, AllocError>
    ensures found { IfOk result (λ places.
        places
        ≡ sought_at
        (problem left.now right.now rights.now.before rights.now.all (map (λ c. c.now) candidates.now)) 0
        tables.old []) }
    ensures kept { OnOk result (tables.new ≡ tables.old) }
{
    let mut choice = Choice::new(alloc, right.steps.len())?;
    let mut from = 0;
    loop {
        match advance(
            alloc, left, right, rights, candidates, from, &choice, tables,
        )? {
            Turn::Complete => {
                let places = choice.places(alloc)?;
                tables.leave_steps(choice.taken.len());
                return Ok(Some(places));
            }
            Turn::Take(taken) => {
                choice.take(taken)?;
                tables.enter_left(taken.run)?;
                from = 0;
            }
            Turn::Back => match choice.give_back() {
                Some(last) => {
                    tables.leave_left();
                    from = last.next;
                }
                None => return Ok(None),
            },
        }
    }
}

/// The first matching of two expressions under the tables, where all right steps are candidates for each left one.
#[cycle(compare)]
pub fn first_matching(
    alloc: Global,
    left: &Expr,
    right: &Expr,
    tables: &mut Tables,
) -> Result<Option<Items<usize>>, AllocError>
    ensures found { IfOk result
        (λ places. places ≡ spec.first_under tables.old (plain_expr left.now) (plain_expr right.now)) }
    ensures kept { OnOk result (tables.new ≡ tables.old) }
{
    let count = right.steps.len();
    if left.steps.len() != count {
        return Ok(None);
    }
    let fresh = tables.fresh;
    let rights = right_ids(alloc, right.steps.as_slice(), fresh)?;
    let places = all_places(alloc, count)?;
    let candidates = each_with(alloc, places.as_slice(), count)?;
    tables.fresh = deeper(fresh, rights.all.count)?;
    let found = search(alloc, left, right, &rights, candidates.as_slice(), tables)?;
    tables.fresh = fresh;
    Ok(found)
}
