//! The faults that every layer shares.

ghost use Rattle.std.specs.Prelude.{IfOk};
ghost use Rattle.clf_syntax.specs.Wide.{IsWide, IsWant};

use crate::tree::{Mode, Tele, TeleEntry, Ty};
use sqlite_items::Items;
use std::alloc::{AllocError, Global};

/// A variable's number would pass 4,294,967,295.
#[derive(Debug, Drop)]
pub struct TooFar;

/// A number that counts binders or parts would pass 4,294,967,295.
///
/// `counted` has at least 4,294,967,295 entries, one for each binder or part counted.
#[derive(Drop)]
pub struct Wide {
    pub counted: Tele,
}

/// A fault of the call's own, or lack of memory.
#[derive(Debug, Drop)]
pub enum Or<E> {
    Fault(E),
    NoMemory,
}

/// A fault of the call's own, lack of memory, or a number past its range.
#[derive(Drop)]
pub enum OrWide<E> {
    Fault(E),
    NoMemory,
    TooFar(Wide),
}

/// Lack of memory, or a number past its range.
#[derive(Drop)]
pub enum Want {
    NoMemory,
    TooFar(Wide),
}

/// What a part of a call wants: memory, or a number past its range. The call itself makes a `Want` of it, with the list
/// that is kept.
#[derive(Clone, Copy, Debug)]
pub enum Shortage {
    Memory,
    Numbers,
}

impl Shortage {
    /// The want of a call; lack of memory where there is none for the list.
    pub fn want(self, alloc: Global) -> Want
        ensures { IsWant result }
    {
        match self {
            Shortage::Memory => Want::NoMemory,
            Shortage::Numbers => Want::too_far(alloc),
        }
    }
}

impl From<AllocError> for Shortage {
    ghost use Rattle.std.specs.Prelude.{◌≡◌};
    ghost use Rattle.clf_syntax.specs.declared.fault.Shortage.TheVariants.{Memory};

    ghost from_gives = { λ _ e. e ≡ Memory };

    fn from(_error: AllocError) -> Shortage {
        Shortage::Memory
    }
}

impl Wide {
    /// A list of 4,294,967,295 entries. It fails only where memory runs out.
    pub fn full(alloc: Global) -> Result<Wide, AllocError>
        ensures { IfOk result (λ wide. IsWide wide) }
    {
        let mut entries = Items::new(alloc);
        for _number in 0..u32::MAX {
            entries.push(TeleEntry {
                mode: Mode::Persistent,
                ty: Ty::Top,
            })?;
        }
        Ok(Wide {
            counted: Tele { entries },
        })
    }
}

impl Want {
    /// That a number passes its range; lack of memory where there is none for the list.
    pub fn too_far(alloc: Global) -> Want
        ensures { IsWant result }
    {
        match Wide::full(alloc) {
            Ok(wide) => Want::TooFar(wide),
            Err(_) => Want::NoMemory,
        }
    }
}

impl From<AllocError> for Want {
    ghost use Rattle.std.specs.Prelude.{◌≡◌};
    ghost use Rattle.clf_syntax.specs.declared.fault.Want.TheVariants.{NoMemory};

    ghost from_gives = { λ _ e. e ≡ NoMemory };

    fn from(_error: AllocError) -> Want {
        Want::NoMemory
    }
}

impl<E> From<Want> for OrWide<E> {
    ghost use Rattle.std.specs.Prelude.{◌≡◌};
    ghost use Rattle.clf_syntax.specs.Wide.{wanting};

    ghost from_gives = { λ want e. e ≡ wanting want };

    fn from(want: Want) -> OrWide<E> {
        match want {
            Want::NoMemory => OrWide::NoMemory,
            Want::TooFar(wide) => OrWide::TooFar(wide),
        }
    }
}

impl<E> From<AllocError> for OrWide<E> {
    ghost use Rattle.std.specs.Prelude.{◌≡◌};
    ghost use Rattle.clf_syntax.specs.declared.fault.OrWide.TheVariants.{NoMemory};

    ghost from_gives = { λ _ e. e ≡ NoMemory };

    fn from(_error: AllocError) -> OrWide<E> {
        OrWide::NoMemory
    }
}

impl<E> From<AllocError> for Or<E> {
    ghost use Rattle.std.specs.Prelude.{◌≡◌};
    ghost use Rattle.clf_syntax.specs.declared.fault.Or.TheVariants.{NoMemory};

    ghost from_gives = { λ _ e. e ≡ NoMemory };

    fn from(_error: AllocError) -> Or<E> {
        Or::NoMemory
    }
}
