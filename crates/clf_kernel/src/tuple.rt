//! The check of tuples.
ghost use Rattle.std.specs.Prelude.{◌≡◌, ◌+◌, ◌<◌, ◌^◌, [], map, IfOk, IfErr, OnOk, length};
ghost use Rattle.clf_syntax.specs.Plain.{plain_entry};
ghost use Rattle.clf_syntax.specs.PlainTypes.{plain_tele_entry};
ghost use Rattle.clf_syntax.specs.Tree.{tuple_of};
ghost use Rattle.clf_syntax.specs.TypeTree.{telescope_of};
ghost use Rattle.use_contexts.specs.Marks.{marks};
ghost use Rattle.clf_rules.specs.Refusal.{width};
ghost use Rattle.clf_decision.specs.Checking.{checked_tuple};
ghost use Rattle.clf_decision.specs.Hereditary.{hereditary};
ghost use Rattle.clf_kernel.specs.Answers.{plain_left};
ghost use Rattle.clf_kernel.specs.Judge.{IsRowOf, signature_of, context_of};
ghost use Rattle.clf_kernel.specs.Stops.{Ends, Gives, IsShort};
ghost use Rattle.clf_kernel.specs.TupleEntries.{plain_rest, entry_behind};

use crate::judge::Judge;
use crate::putting::put_in_entries;
use crate::refusal::{Cause, Stop, count, refuse, refuse_at, too_far};
use clf_syntax::{TeleEntry, TupleEntry, is_same_mode};
use sqlite_items::Items;
use std::alloc::Global;
use use_contexts::{Holding, Left};

/// The types of the entries that are left, and what those before left.
#[derive(Drop)]
pub struct Rest {
    pub types: Items<TeleEntry>,
    pub left: Left,
}

impl Judge<'_> {
    /// What the entries of a tuple leave of a row, after so many steps.
    #[cycle(check)]
    #[tactic(auto, using(crate::proofs::Stops::stop_laws))]
    pub fn check_tuple(
        &mut self,
        steps: usize,
        entries: &[TupleEntry],
        types: Items<TeleEntry>,
        row: Holding,
    ) -> Result<Left, Stop>
        requires room { steps + length entries.now < 2 ^ 64 }
        requires marked { IsRowOf self.old row }
        ensures outcome { Gives plain_left (checked_tuple hereditary (signature_of self.old) (context_of self.old)
            (marks row) steps 0 (tuple_of (map plain_entry entries.now))
            (telescope_of (map plain_tele_entry types))) result }
        ensures marked { IfOk result (λ left. IsRowOf self.old left.row) }
        ensures kept { OnOk result (self.new ≡ self.old) }
    {
        let mut rest = Rest {
            types,
            left: Left { row, slack: false },
        };
        let mut before = 0;
        for entry in entries {
            if rest.types.is_empty() {
                return Err(too_long(self.alloc, before, entries.len()));
            }
            rest = self.check_tuple_entry(steps + before, entry, rest)?;
            before += 1;
        }
        if !rest.types.is_empty() {
            return Err(too_short(self.alloc, before, rest.types.len()));
        }
        Ok(rest.left)
    }

    /// What one entry of a tuple leaves, and the later types with its object put for its variable.
    #[cycle(check)]
    #[tactic(auto, using(clf_syntax::specs::Plain::plain_laws, crate::proofs::Stops::stop_laws))]
    fn check_tuple_entry(
        &mut self,
        place: usize,
        entry: &TupleEntry,
        rest: Rest,
    ) -> Result<Rest, Stop>
        requires there { 0 < length rest.types }
        requires marked { IsRowOf self.old rest.left.row }
        ensures outcome { Gives plain_rest (entry_behind hereditary (signature_of self.old) (context_of self.old) place
            (plain_entry entry.now) (plain_rest rest)) result }
        ensures marked { IfOk result (λ rest. IsRowOf self.old rest.left.row) }
        ensures kept { OnOk result (self.new ≡ self.old) }
    {
        let Rest { types, left } = rest;
        let first = &types.as_slice()[0];
        if !is_same_mode(entry.mode, first.mode) {
            let (wanted, found) = (first.mode, entry.mode);
            return Err(refuse_at(self.alloc, place, Cause::ModeDiffers { wanted, found }));
        }
        let left = self.check_argument(entry.mode, &entry.obj, &first.ty, place, left)?;
        let types = put_in_entries(self.alloc, &entry.obj, &first.ty, &types.as_slice()[1..])?;
        Ok(Rest { types, left })
    }
}

/// A refusal of a tuple that has more entries than its telescope.
#[tactic(auto, using(crate::proofs::Stops::stop_laws))]
pub fn too_long(alloc: Global, wanted: usize, found: usize) -> Stop
    ensures { Ends [] (width wanted found) result }
{
    match counts(alloc, wanted, found) {
        Ok((wanted, found)) => refuse(alloc, Cause::Width { wanted, found }),
        Err(stop) => stop,
    }
}

/// A refusal of a tuple that ends where so many entries of its telescope are left.
#[tactic(auto, using(crate::proofs::Stops::stop_laws))]
pub fn too_short(alloc: Global, found: usize, left: usize) -> Stop
    ensures { Ends [] (width (found + left) found) result }
{
    match counts(alloc, found, left) {
        Ok((found, left)) => match found.checked_add(left) {
            Some(wanted) => refuse(alloc, Cause::Width { wanted, found }),
            None => too_far(alloc),
        },
        Err(stop) => stop,
    }
}

/// Two counts of parts as numbers of 32 bits.
fn counts(alloc: Global, one: usize, other: usize) -> Result<(u32, u32), Stop>
    ensures counts { IfOk result (λ both. (both.0 ≡ one) × (both.1 ≡ other)) }
    ensures short { IfErr result IsShort }
{
    Ok((count(alloc, one)?, count(alloc, other)?))
}
