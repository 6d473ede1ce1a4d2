//! Which binder's type mentions which.
ghost use Rattle.std.specs.Prelude.{◌≡◌, ◌<◌, ℕ, length, map, slice_index, IfOk, IfSome};
ghost use Rattle.clf_syntax.specs.PlainTypes.{plain_ty};
ghost use Rattle.celf_front.specs.Mentions.{AreNeeds, binder_in};
ghost use Rattle.celf_front.specs.Marking.{marked_at, IsRow};

use crate::heads::{Front, binder_of};
use crate::needs::Needs;
use crate::occurring_types::note_type;
use clf_syntax::{Head, Ty};
use sqlite_items::Items;
use std::alloc::{AllocError, Global};

/// Which binder's type mentions which. The first numbers of constants are those of the signature; past these the binder
/// at place `i` of the list has the constant `first + binders[i]` and the type `types[binders[i]]`.
pub fn needs_of(
    alloc: Global,
    first: u32,
    binders: &[u32],
    types: &[Ty],
) -> Result<Needs, AllocError>
    requires { (k : ℕ) → k < length binders.now → slice_index binders.now k < length types.now }
    ensures { IfOk result (AreNeeds first (map plain_ty types.now) binders.now) }
{
    let front = Front { first, binders };
    let mut rows = Items::new(alloc);
    for binder in binders {
        rows.push(row_of(alloc, &front, &types[*binder as usize])?)?;
    }
    Ok(Needs { rows })
}

/// The row of a binder of this type.
fn row_of(alloc: Global, front: &Front<'_>, ty: &Ty) -> Result<Items<bool>, AllocError>
    ensures { IfOk result (IsRow front.now.first front.now.binders.now (plain_ty ty.now)) }
{
    let mut heads = Items::new(alloc);
    note_type(ty, &mut heads)?;
    let mut row = vec![in alloc; false; front.binders.len()]?;
    for head in heads.as_slice() {
        mark(front, *head, &mut row);
    }
    Ok(Items::from_vec(row))
}

/// Sets the flag of the binder that the head stands for, if it stands for one.
fn mark(front: &Front<'_>, head: Head, row: &mut Vec<bool>)
    requires { length row.old.items ≡ length front.now.binders.now }
    ensures { row.new.items ≡ marked_at (binder_in front.now.first front.now.binders.now head) row.old.items }
{
    if let Head::Const(place) = head {
        mark_binder(binder_of(place, front), row);
    }
}

fn mark_binder(binder: Option<usize>, row: &mut Vec<bool>)
    requires { IfSome binder (λ j. j < length row.old.items) }
    ensures { row.new.items ≡ marked_at binder row.old.items }
{
    if let Some(binder) = binder {
        row[binder] = true;
    }
}
