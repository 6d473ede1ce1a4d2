//! The types of neutrals: a head, and its eliminations in order.
ghost use Rattle.std.specs.Prelude.{◌≡◌, map, OnOk};
ghost use Rattle.clf_syntax.specs.Plain.{plain_obj, plain_elim, plain_neutral};
ghost use Rattle.clf_syntax.specs.PlainTypes.{plain_ty};
ghost use Rattle.celf_gather.specs.Gathered.{gathered, inferred, each_after, elimination_after, application_after, first_after, second_after};
ghost use Rattle.celf_gather.specs.Stops.{Gives};
ghost use Rattle.celf_gather.specs.Walks.{IsBack, scene_of, context_of, found_of};

use crate::known::Known;
use crate::putting::put_in_range;
use crate::stop::Stop;
use crate::walk::Walk;
use clf_syntax::{Elim, Mode, Neutral, Obj, Ty, is_same_mode};

impl Known<'_> {
    /// The type of a neutral, with its equations.
    #[cycle(gather)]
    #[tactic(auto, using(crate::proofs::Stopping::stop_laws, crate::proofs::Along::neutral_after))]
    pub fn infer(&self, walk: &mut Walk, neutral: &Neutral) -> Result<Ty, Stop>
        ensures outcome { Gives (λ t. (plain_ty t, found_of walk.new)) (inferred (scene_of self.now)
            (context_of walk.old) (plain_neutral neutral.now) (found_of walk.old)) result }
        ensures back { OnOk result (IsBack walk.old walk.new) }
    {
        let found = self.infer_head(walk, neutral.head)?;
        self.infer_spine(walk, neutral.spine.as_slice(), found)
    }

    /// The type under the eliminations of a spine.
    #[cycle(gather)]
    #[tactic(auto, using(crate::proofs::Stopping::stop_laws))]
    fn infer_spine(&self, walk: &mut Walk, spine: &[Elim], head: Ty) -> Result<Ty, Stop>
        ensures outcome { Gives (λ t. (plain_ty t, found_of walk.new)) (each_after
            (elimination_after (scene_of self.now) (context_of walk.old)) (map plain_elim spine.now)
            (plain_ty head, found_of walk.old)) result }
        ensures back { OnOk result (IsBack walk.old walk.new) }
    {
        let mut ty = head;
        for act in spine {
            ty = self.eliminate(walk, act, ty)?;
        }
        Ok(ty)
    }

    /// The type under one elimination.
    #[cycle(gather)]
    #[tactic(auto, using(clf_syntax::specs::Plain::plain_laws, crate::proofs::Stopping::stop_laws))]
    fn eliminate(&self, walk: &mut Walk, act: &Elim, ty: Ty) -> Result<Ty, Stop>
        ensures outcome { Gives (λ t. (plain_ty t, found_of walk.new)) (elimination_after (scene_of self.now)
            (context_of walk.old) (plain_elim act.now) (plain_ty ty, found_of walk.old)) result }
        ensures back { OnOk result (IsBack walk.old walk.new) }
    {
        match act {
            Elim::Arg { mode, obj } => self.put_argument(walk, *mode, obj, ty),
            Elim::First => first_part(walk, ty),
            Elim::Second => second_part(walk, ty),
        }
    }

    /// The type of a function with an argument put to it.
    #[cycle(gather)]
    #[tactic(auto, using(clf_syntax::specs::PlainTypes::plain_type_laws, crate::proofs::Stopping::stop_laws))]
    fn put_argument(&self, walk: &mut Walk, mode: Mode, obj: &Obj, ty: Ty) -> Result<Ty, Stop>
        ensures outcome { Gives (λ t. (plain_ty t, found_of walk.new)) (application_after mode (plain_obj obj.now)
            (plain_ty ty, found_of walk.old)
            (λ a q. gathered (scene_of self.now) (context_of walk.old) (plain_obj obj.now) a q)) result }
        ensures back { OnOk result (IsBack walk.old walk.new) }
    {
        match ty {
            Ty::Fun {
                mode: wanted,
                dom,
                cod,
            } => {
                if !is_same_mode(mode, wanted) {
                    return Err(Stop::Misfit);
                }
                self.gather(walk, obj, dom.get())?;
                put_in_range(self.alloc, obj, dom.get(), cod.get())
            }
            Ty::Fam { .. } | Ty::With { .. } | Ty::Top | Ty::Monad { .. } => Err(Stop::Misfit),
        }
    }
}

#[tactic(auto, using(clf_syntax::specs::PlainTypes::plain_type_laws))]
fn first_part(walk: &Walk, ty: Ty) -> Result<Ty, Stop>
    ensures { Gives (λ t. (plain_ty t, found_of walk.now)) (first_after (plain_ty ty, found_of walk.now)) result }
{
    match ty {
        Ty::With { left, right: _ } => Ok(left.into_inner()),
        Ty::Fam { .. } | Ty::Fun { .. } | Ty::Top | Ty::Monad { .. } => Err(Stop::Misfit),
    }
}

#[tactic(auto, using(clf_syntax::specs::PlainTypes::plain_type_laws))]
fn second_part(walk: &Walk, ty: Ty) -> Result<Ty, Stop>
    ensures { Gives (λ t. (plain_ty t, found_of walk.now)) (second_after (plain_ty ty, found_of walk.now)) result }
{
    match ty {
        Ty::With { left: _, right } => Ok(right.into_inner()),
        Ty::Fam { .. } | Ty::Fun { .. } | Ty::Top | Ty::Monad { .. } => Err(Stop::Misfit),
    }
}
