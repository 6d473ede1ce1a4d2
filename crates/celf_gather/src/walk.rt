//! Where a walk is, and what it has found.
ghost use Rattle.std.specs.Prelude.{◌≡◌, ◌∷◌, ◌++◌, OnOk, IfErr, take};
ghost use Rattle.clf_syntax.specs.PlainTypes.{plain_ty};
ghost use Rattle.celf_gather.specs.Stops.{IsShort};
ghost use Rattle.celf_gather.specs.Walks.{IsGrown, context_of, entries_of};

use crate::stop::Stop;
use celf_constraints::Equations;
use clf_syntax::{Mode, TeleEntry, Ty};
use sqlite_items::Items;
use std::alloc::Global;
use std::mem;
use use_contexts::Ctx;

/// The variables in scope, and the equations so far.
#[derive(Drop)]
pub struct Walk {
    pub ctx: Ctx,
    pub found: Equations,
}

impl Walk {
    /// Adds a variable.
    #[tactic(auto, using(crate::proofs::Stopping::stop_laws))]
    pub fn enter(&mut self, alloc: Global, mode: Mode, ty: &Ty) -> Result<(), Stop>
        ensures context { OnOk result (context_of self.new ≡ (mode, plain_ty ty.now) ∷ context_of self.old) }
        ensures grown { OnOk result (IsGrown self.old self.new) }
        ensures found { OnOk result (self.new.found ≡ self.old.found) }
        ensures short { IfErr result IsShort }
    {
        let ty = ty.copy(alloc)?;
        self.ctx.entries.push(TeleEntry { mode, ty })?;
        Ok(())
    }

    /// Adds variables, the newest last.
    pub fn enter_entries(&mut self, alloc: Global, entries: Items<TeleEntry>) -> Result<(), Stop>
        ensures entries { OnOk result (entries_of self.new ≡ entries_of self.old ++ entries) }
        ensures found { OnOk result (self.new.found ≡ self.old.found) }
        ensures short { IfErr result IsShort }
    {
        let mut all = mem::replace(&mut self.ctx.entries, Items::new(alloc));
        all.append(entries)?;
        self.ctx.entries = all;
        Ok(())
    }

    /// Takes the newest variables away, down to so many.
    pub fn leave_to(&mut self, len: usize)
        ensures entries { entries_of self.new ≡ take len (entries_of self.old) }
        ensures found { self.new.found ≡ self.old.found }
    {
        while self.ctx.entries.len() > len {
            self.ctx.entries.pop();
        }
    }
}
