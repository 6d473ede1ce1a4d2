//! Reading a whole file.
ghost use Rattle.std.specs.Prelude.{◌≡◌, ◌<◌, ◌≤◌, ◌+◌, ℕ, length, IfOk, IsErrOf};
ghost use Rattle.celf_source.specs.Count.{Rose};
ghost use Rattle.celf_source.specs.Shelf.{CountsLack, IsWhole, IsLonger, StandsBehind};

use crate::shelf::{Failed, Shelf};
use std::alloc::{AllocError, Global};

/// Why a file was not read whole.
#[derive(Clone, Copy, Debug, PartialEq, Eq)]
pub enum ReadAllFault {
    /// The shelf failed, and has counted it.
    ReadFault,
    /// The file has more bytes than the limit.
    TooLarge,
    /// Memory ran out.
    NoMemory,
}

impl From<Failed> for ReadAllFault {
    ghost use Rattle.std.specs.Prelude.{◌≡◌};
    ghost use Rattle.celf_source.specs.declared.read.ReadAllFault.TheVariants.{ReadFault};

    ghost from_gives = { λ _ e. e ≡ ReadFault };

    fn from(_failed: Failed) -> ReadAllFault {
        ReadAllFault::ReadFault
    }
}

impl From<AllocError> for ReadAllFault {
    ghost use Rattle.std.specs.Prelude.{◌≡◌};
    ghost use Rattle.celf_source.specs.declared.read.ReadAllFault.TheVariants.{NoMemory};

    ghost from_gives = { λ _ e. e ≡ NoMemory };

    fn from(_error: AllocError) -> ReadAllFault {
        ReadAllFault::NoMemory
    }
}

/// The most bytes that one call of a shelf is asked for.
const PIECE: usize = 4096;

/// All bytes of the file of a name, where there are at most `limit` of them.
///
/// It takes at most one byte past the limit. After `TooLarge` and `NoMemory` the shelf stands after the bytes
/// that were taken. Of what is left after `ReadFault` nothing is said.
pub fn read_all<F: Shelf>(
    alloc: Global,
    shelf: &mut F,
    name: &str,
    limit: u32,
) -> Result<Vec<u8>, ReadAllFault>
    ensures whole { IfOk result (λ file. IsWhole (F.told shelf.old name.now) file.items) }
    ensures within { IfOk result (λ file. length file.items ≤ limit) }
    ensures behind { IfOk result (λ file.
        StandsBehind (F.told shelf.old name.now) (length file.items) (F.left shelf.new)) }

    // It does not give up by itself: a fault has its cause.
    ensures read_fault { IsErrOf result ReadAllFault.ReadFault
        → Rose (F.faults shelf.old) (F.faults shelf.new) }
    ensures too_large { IsErrOf result ReadAllFault.TooLarge
        → IsLonger (F.told shelf.old name.now) limit }

    // One byte past the limit is taken at most.
    ensures one_past { IsErrOf result ReadAllFault.TooLarge
        → StandsBehind (F.told shelf.old name.now) (limit + 1) (F.left shelf.new) }
    ensures no_memory { IsErrOf result ReadAllFault.NoMemory
        → (taken : ℕ) × (taken ≤ limit + 1)
        × StandsBehind (F.told shelf.old name.now) taken (F.left shelf.new) }

    // No other name is opened.
    ensures lacks { CountsLack (F.told shelf.old name.now) (F.lacks shelf.old) (F.lacks shelf.new) }
    ensures told { F.told shelf.new ≡ F.told shelf.old }
    ensures faults { F.faults shelf.old ≤ F.faults shelf.new }
{
    shelf.open_file(name)?;
    let most = limit as usize;
    let mut file = Vec::new(alloc);
    let mut piece = [0; PIECE];
    while file.len() <= most {
        let room = PIECE.min(most + 1 - file.len());
        let count = shelf.read(&mut piece[..room])?;
        if count == 0 {
            return Ok(file);
        }
        file.extend_from_slice(&piece[..count])?;
    }
    Err(ReadAllFault::TooLarge)
}
