//! The equations of types and kinds, over a context that grows under their binders.
ghost use Rattle.std.specs.Prelude.{◌≡◌, ◌∷◌, map, OnOk, Some};
ghost use Rattle.clf_syntax.specs.Plain.{plain_obj};
ghost use Rattle.clf_syntax.specs.PlainTypes.{plain_ty, plain_tele_entry};
ghost use Rattle.clf_syntax.specs.TypeTree.{telescope_of};
ghost use Rattle.clf_sig.specs.Entry.{family_kind as kind_of_family};
ghost use Rattle.celf_gather.specs.Formed.{type_after, telescope_after, kind_after, bound_after, indices_after, index_after};
ghost use Rattle.celf_gather.specs.Stops.{Gives};
ghost use Rattle.celf_gather.specs.Walks.{IsBack, IsGrown, scene_of, context_of, found_of};

use crate::known::Known;
use crate::putting::put_in_arguments;
use crate::stop::Stop;
use crate::walk::Walk;
use clf_syntax::{Mode, Obj, TeleEntry, Ty};
use sqlite_items::Items;

impl Known<'_> {
    /// The equations of a kind's arguments, each of which adds a persistent variable.
    #[tactic(auto, using(crate::proofs::Stopping::stop_laws))]
    pub fn form_arguments(&self, walk: &mut Walk, args: &[Ty]) -> Result<(), Stop>
        ensures { Gives (λ _. found_of walk.new) (kind_after (scene_of self.now) (context_of walk.old)
            (map plain_ty args.now) (found_of walk.old)) result }
    {
        for arg in args {
            self.form_bound(walk, Mode::Persistent, arg)?;
        }
        Ok(())
    }

    /// The equations of a type that adds a variable of this mode.
    #[cycle(form)]
    #[tactic(auto, using(crate::proofs::Stopping::stop_laws, crate::proofs::Contexts::back_laws))]
    fn form_bound(&self, walk: &mut Walk, mode: Mode, ty: &Ty) -> Result<(), Stop>
        ensures outcome { Gives (λ _. (context_of walk.new, found_of walk.new)) (bound_after (scene_of self.now)
            (mode, plain_ty ty.now) (context_of walk.old, found_of walk.old)) result }
        ensures grown { OnOk result (IsGrown walk.old walk.new) }
    {
        self.form_type(walk, ty)?;
        walk.enter(self.alloc, mode, ty)
    }

    /// The equations of a type.
    #[cycle(form)]
    #[tactic(auto, using(clf_syntax::specs::PlainTypes::plain_type_laws, crate::proofs::Stopping::stop_laws, crate::proofs::Contexts::back_laws))]
    pub fn form_type(&self, walk: &mut Walk, ty: &Ty) -> Result<(), Stop>
        ensures outcome { Gives (λ _. found_of walk.new) (type_after (scene_of self.now) (context_of walk.old)
            (plain_ty ty.now) (found_of walk.old)) result }
        ensures back { OnOk result (IsBack walk.old walk.new) }
    {
        match ty {
            Ty::Fam { family, indices } => self.form_family(walk, *family, indices.as_slice()),
            Ty::Fun { mode, dom, cod } => {
                let older = walk.ctx.entries.len();
                self.form_bound(walk, *mode, dom.get())?;
                self.form_type(walk, cod.get())?;
                walk.leave_to(older);
                Ok(())
            }
            Ty::With { left, right } => {
                self.form_type(walk, left.get())?;
                self.form_type(walk, right.get())
            }
            Ty::Top => Ok(()),
            Ty::Monad { tele } => self.form_telescope(walk, tele.entries.as_slice()),
        }
    }

    /// The equations of a telescope's entries, each of which adds its variable.
    #[cycle(form)]
    #[tactic(auto, using(crate::proofs::Stopping::stop_laws, crate::proofs::Contexts::back_laws))]
    pub fn form_telescope(&self, walk: &mut Walk, entries: &[TeleEntry]) -> Result<(), Stop>
        ensures outcome { Gives (λ _. found_of walk.new) (telescope_after (scene_of self.now) (context_of walk.old)
            (telescope_of (map plain_tele_entry entries.now)) (found_of walk.old)) result }
        ensures back { OnOk result (IsBack walk.old walk.new) }
    {
        let older = walk.ctx.entries.len();
        for entry in entries {
            self.form_bound(walk, entry.mode, &entry.ty)?;
        }
        walk.leave_to(older);
        Ok(())
    }

    /// The equations of a family's indices.
    #[tactic(auto, using(crate::proofs::Stopping::stop_laws))]
    fn form_family(&self, walk: &mut Walk, family: u32, indices: &[Obj]) -> Result<(), Stop>
        ensures outcome { Gives (λ _. found_of walk.new) (indices_after (scene_of self.now) (context_of walk.old)
            (map plain_obj indices.now) (kind_of_family (scene_of self.now).signature family)
            (found_of walk.old)) result }
        ensures back { OnOk result (IsBack walk.old walk.new) }
    {
        match self.family_kind(family) {
            Some(kind) => self.form_indices(walk, indices, kind.copy(self.alloc)?.args),
            None => Err(Stop::Misfit),
        }
    }

    /// The equations of indices at the arguments of a kind.
    #[tactic(auto, using(crate::proofs::Stopping::stop_laws))]
    fn form_indices(&self, walk: &mut Walk, indices: &[Obj], args: Items<Ty>) -> Result<(), Stop>
        ensures outcome { Gives (λ _. found_of walk.new) (indices_after (scene_of self.now) (context_of walk.old)
            (map plain_obj indices.now) (Some (map plain_ty args)) (found_of walk.old)) result }
        ensures back { OnOk result (IsBack walk.old walk.new) }
    {
        let mut rest = args;
        for index in indices {
            rest = self.form_index(walk, index, rest)?;
        }
        if rest.is_empty() {
            Ok(())
        } else {
            Err(Stop::Misfit)
        }
    }

    /// The equations of one index, and the later arguments with it put for its argument.
    #[tactic(auto, using(crate::proofs::Stopping::stop_laws))]
    fn form_index(&self, walk: &mut Walk, index: &Obj, args: Items<Ty>) -> Result<Items<Ty>, Stop>
        ensures outcome { Gives (λ l. (map plain_ty l, found_of walk.new)) (index_after (scene_of self.now)
            (context_of walk.old) (plain_obj index.now) (map plain_ty args, found_of walk.old)) result }
        ensures back { OnOk result (IsBack walk.old walk.new) }
    {
        if args.is_empty() {
            return Err(Stop::Misfit);
        }
        let args = args.as_slice();
        self.form_first(walk, index, &args[0], &args[1..])
    }

    /// The equations of an index at the first argument, and the later ones with it put for that.
    #[tactic(auto, using(crate::proofs::Stopping::stop_laws))]
    fn form_first(
        &self,
        walk: &mut Walk,
        index: &Obj,
        first: &Ty,
        later: &[Ty],
    ) -> Result<Items<Ty>, Stop>
        ensures outcome { Gives (λ l. (map plain_ty l, found_of walk.new)) (index_after (scene_of self.now)
            (context_of walk.old) (plain_obj index.now)
            (plain_ty first.now ∷ map plain_ty later.now, found_of walk.old)) result }
        ensures back { OnOk result (IsBack walk.old walk.new) }
    {
        self.gather(walk, index, first)?;
        put_in_arguments(self.alloc, index, first, later)
    }
}
