//! How far a substitution may go.
ghost use Rattle.std.specs.Prelude.{◌≡◌, ◌+◌, IfOk, map};
ghost use Rattle.clf_syntax.specs.PlainSimple.{plain_simple, plain_simple_entry, simple_telescope_of};
ghost use Rattle.hered_subst.proofs.SimpleTyping.{rank, ranks};
ghost use Rattle.hered_put.specs.Bounds.{IsInside, Nests};

use crate::fault::PutFault;
use clf_syntax::{Simple, SimpleEntry, deeper};
use std::alloc::AllocError;

/// How far a substitution may still go.
#[derive(Clone, Copy)]
pub struct Bound {
    /// How deep what is put may nest.
    pub rank: u64,
    /// How many parts of a tree may stand one in the other.
    pub room: u64,
}

impl Bound {
    /// Trees of any size, where what is put may nest so deep.
    pub fn of_rank(rank: u64) -> Bound
        ensures { result.rank ≡ rank }
    {
        Bound {
            rank,
            room: u64::MAX,
        }
    }

    /// Inside a part of a tree. No tree in which 2^64 parts stand one in the other fits memory.
    pub fn inside(self) -> Result<Bound, AllocError>
        ensures { IfOk result (IsInside self) }
    {
        match self.room.checked_sub(1) {
            Some(room) => Ok(Bound {
                rank: self.rank,
                room,
            }),
            None => Err(AllocError),
        }
    }

    /// For what is put into a value.
    pub fn nested(self) -> Result<Bound, PutFault>
        ensures { Nests self result }
    {
        match self.rank.checked_sub(1) {
            Some(rank) => Ok(Bound::of_rank(rank)),
            None => Err(PutFault::Untyped),
        }
    }
}

/// The rank of a simple type, which bounds how deep an object of it nests where it is put. No type of 2^64 parts fits
/// memory.
#[cycle(rank)]
#[tactic(auto, using(clf_syntax::specs::PlainSimple::plain_simple_laws))]
pub fn type_rank(simple: &Simple) -> Result<u64, AllocError>
    ensures { IfOk result (λ r. r ≡ rank (plain_simple simple.now)) }
{
    match simple {
        Simple::Atom(_) => Ok(1),
        Simple::Fun { mode: _, dom, cod } => larger(type_rank(dom.get())?, type_rank(cod.get())?),
        Simple::With { left, right } => larger(type_rank(left.get())?, type_rank(right.get())?),
        Simple::Top => Ok(1),
        Simple::Monad { entries } => deeper(entries_rank(entries.as_slice())?, 1),
    }
}

/// One more than two ranks together.
fn larger(left: u64, right: u64) -> Result<u64, AllocError>
    ensures { IfOk result (λ r. r ≡ 1 + (left + right)) }
{
    deeper(together(left, right)?, 1)
}

/// Two ranks together.
fn together(left: u64, right: u64) -> Result<u64, AllocError>
    ensures { IfOk result (λ r. r ≡ left + right) }
{
    match left.checked_add(right) {
        Some(both) => Ok(both),
        None => Err(AllocError),
    }
}

/// The ranks of a monad's entries together.
#[cycle(rank)]
#[tactic(auto, using(clf_syntax::specs::PlainSimple::plain_simple_laws))]
pub fn entries_rank(entries: &[SimpleEntry]) -> Result<u64, AllocError>
    ensures { IfOk result (λ r. r ≡ ranks (simple_telescope_of (map plain_simple_entry entries.now))) }
{
    let mut all = 0u64;
    for entry in entries {
        all = together(all, type_rank(&entry.ty)?)?;
    }
    Ok(all)
}
