//! Contexts.
ghost use Rattle.std.specs.Prelude.{◌≡◌, ◌<◌, [], IfOk, length, slice_get, Some};
ghost use Rattle.clf_syntax.specs.PlainTypes.{plain_tele_entry};
ghost use Rattle.use_contexts.specs.Context.{modes};
ghost use Rattle.use_contexts.specs.Marks.{context};

use clf_syntax::{Mode, TeleEntry};
use sqlite_items::Items;
use std::alloc::{AllocError, Global};

/// The variables in scope, the newest last. A variable's number counts from the newest.
#[derive(Drop)]
pub struct Ctx {
    pub entries: Items<TeleEntry>,
}

impl Ctx {
    /// A context without entries.
    pub fn empty(alloc: Global) -> Ctx
        ensures { context result ≡ [] }
    {
        Ctx {
            entries: Items::new(alloc),
        }
    }

    /// How many variables there are.
    pub fn len(&self) -> usize
        ensures { result ≡ length (context self.now) }
    {
        self.entries.len()
    }

    /// The entry of a variable.
    pub fn entry(&self, var: usize) -> &TeleEntry
        requires { var < length (context self.now) }
        ensures { slice_get (context self.now) var ≡ Some (plain_tele_entry result.now) }
    {
        let entries = self.entries.as_slice();
        &entries[entries.len() - 1 - var]
    }

    /// The mode of a variable.
    pub fn mode(&self, var: usize) -> Mode
        requires { var < length (context self.now) }
        ensures { slice_get (modes (context self.now)) var ≡ Some result }
    {
        self.entry(var).mode
    }

    /// An equal context. It fails only where memory runs out.
    pub fn copy(&self, alloc: Global) -> Result<Ctx, AllocError>
        ensures { IfOk result (λ ctx. ctx ≡ self.now) }
    {
        let mut entries = Items::new(alloc);
        for entry in self.entries.as_slice() {
            entries.push(entry.copy(alloc)?)?;
        }
        Ok(Ctx { entries })
    }
}
