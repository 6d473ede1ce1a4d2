//! The equations of tuples.
ghost use Rattle.std.specs.Prelude.{◌≡◌, ◌∷◌, map, OnOk};
ghost use Rattle.clf_syntax.specs.Plain.{plain_entry};
ghost use Rattle.clf_syntax.specs.PlainTypes.{plain_tele_entry};
ghost use Rattle.clf_syntax.specs.Tree.{tuple_of};
ghost use Rattle.clf_syntax.specs.TypeTree.{telescope_of};
ghost use Rattle.celf_gather.specs.Gathered.{tuple_after, tuple_entry_after};
ghost use Rattle.celf_gather.specs.Stops.{Gives};
ghost use Rattle.celf_gather.specs.Walks.{IsBack, scene_of, context_of, found_of};

use crate::known::Known;
use crate::putting::put_in_entries;
use crate::stop::Stop;
use crate::walk::Walk;
use clf_syntax::{TeleEntry, TupleEntry, is_same_mode};
use sqlite_items::Items;

impl Known<'_> {
    /// The equations of the entries of a tuple, each at the type of its place.
    #[cycle(gather)]
    #[tactic(auto, using(crate::proofs::Stopping::stop_laws))]
    pub fn gather_tuple(
        &self,
        walk: &mut Walk,
        entries: &[TupleEntry],
        types: Items<TeleEntry>,
    ) -> Result<(), Stop>
        ensures outcome { Gives (λ _. found_of walk.new) (tuple_after (scene_of self.now) (context_of walk.old)
            (tuple_of (map plain_entry entries.now)) (telescope_of (map plain_tele_entry types))
            (found_of walk.old)) result }
        ensures back { OnOk result (IsBack walk.old walk.new) }
    {
        let mut rest = types;
        for entry in entries {
            rest = self.gather_entry(walk, entry, rest)?;
        }
        if rest.is_empty() {
            Ok(())
        } else {
            Err(Stop::Misfit)
        }
    }

    /// The equations of one entry, and the later types with its object put for its variable.
    #[cycle(gather)]
    #[tactic(auto, using(clf_syntax::specs::Plain::plain_laws, crate::proofs::Stopping::stop_laws))]
    fn gather_entry(
        &self,
        walk: &mut Walk,
        entry: &TupleEntry,
        types: Items<TeleEntry>,
    ) -> Result<Items<TeleEntry>, Stop>
        ensures outcome { Gives (λ es. (telescope_of (map plain_tele_entry es), found_of walk.new)) (tuple_entry_after
            (scene_of self.now) (context_of walk.old) (plain_entry entry.now)
            (telescope_of (map plain_tele_entry types), found_of walk.old)) result }
        ensures back { OnOk result (IsBack walk.old walk.new) }
    {
        if types.is_empty() {
            return Err(Stop::Misfit);
        }
        let types = types.as_slice();
        self.gather_first(walk, entry, &types[0], &types[1..])
    }

    /// The equations of an entry at the first type, and the later ones with its object put for its variable.
    #[cycle(gather)]
    #[tactic(auto, using(clf_syntax::specs::Plain::plain_laws, clf_syntax::specs::PlainTypes::plain_type_laws, crate::proofs::Stopping::stop_laws))]
    fn gather_first(
        &self,
        walk: &mut Walk,
        entry: &TupleEntry,
        first: &TeleEntry,
        later: &[TeleEntry],
    ) -> Result<Items<TeleEntry>, Stop>
        ensures outcome { Gives (λ es. (telescope_of (map plain_tele_entry es), found_of walk.new)) (tuple_entry_after
            (scene_of self.now) (context_of walk.old) (plain_entry entry.now)
            (telescope_of (plain_tele_entry first.now ∷ map plain_tele_entry later.now), found_of walk.old)) result }
        ensures back { OnOk result (IsBack walk.old walk.new) }
    {
        if !is_same_mode(entry.mode, first.mode) {
            return Err(Stop::Misfit);
        }
        self.gather(walk, &entry.obj, &first.ty)?;
        put_in_entries(self.alloc, &entry.obj, &first.ty, later)
    }
}
