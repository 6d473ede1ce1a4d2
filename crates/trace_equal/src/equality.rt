//! Equality up to exchange of independent steps, and the first matching of two expressions.
ghost use Rattle.std.specs.Prelude.{◌↔◌, IfOk, IsTrue, map};
ghost use Rattle.clf_syntax.specs.Plain.{plain_expr, plain_obj, plain_step};
ghost use Rattle.trace_equal.specs.Bijection.{IsFirstMatching};
ghost use Rattle.trace_equal.specs.Difference.{IsFirstDifference};
ghost use Rattle.trace_equal.specs.Exchange.{IsIndependent, Joined};

use crate::backtracking::first_matching;
use crate::objects::joined_object;
use crate::tables::Tables;
use clf_syntax::{Expr, Obj, Step};
use sqlite_items::Items;
use std::alloc::{AllocError, Global};

/// Whether exchanges of independent steps lead from one object to the other. It fails only where memory runs out.
pub fn equal(alloc: Global, one: &Obj, other: &Obj) -> Result<bool, AllocError>
    ensures { IfOk result (λ joined. IsTrue joined ↔ Joined (plain_obj one.now) (plain_obj other.now)) }
{
    let mut tables = Tables::empty(alloc);
    let joined = joined_object(alloc, one, other, &mut tables)?;
    Ok(joined)
}

/// The first matching in the order of its numbers: for each step of `left`, in order, the place of its step in `right`.
/// There is none exactly where the expressions are not joined. It fails only where memory runs out.
pub fn matching(
    alloc: Global,
    left: &Expr,
    right: &Expr,
) -> Result<Option<Items<usize>>, AllocError>
    ensures { IfOk result (λ places. IsFirstMatching (plain_expr left.now) (plain_expr right.now) places) }
{
    let mut tables = Tables::empty(alloc);
    let places = first_matching(alloc, left, right, &mut tables)?;
    Ok(places)
}

/// The first place at which two lists of objects differ, up to exchange. It fails only where memory runs out.
pub fn first_difference(
    alloc: Global,
    found: &[Obj],
    wanted: &[Obj],
) -> Result<Option<usize>, AllocError>
    ensures { IfOk result (λ place. IsFirstDifference (map plain_obj found.now) (map plain_obj wanted.now) place) }
{
    let shorter = found.len().min(wanted.len());
    for place in 0..shorter {
        if !equal(alloc, &found[place], &wanted[place])? {
            return Ok(Some(place));
        }
    }
    if found.len() == wanted.len() {
        return Ok(None);
    }
    Ok(Some(shorter))
}

/// Whether the right side of the second step mentions no variable of the first one, so that the two may change places.
pub fn independent(first: &Step, second: &Step) -> bool
    ensures { IsTrue result ↔ IsIndependent (plain_step first.now) (plain_step second.now) }
{
    second.rhs.lacks_newest(first.modes.len())
}
