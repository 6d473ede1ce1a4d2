//! The types of neutrals: a head, and its eliminations in order.
ghost use Rattle.std.specs.Prelude.{◌≡◌, map, IfOk, OnOk};
ghost use Rattle.clf_syntax.specs.Plain.{plain_obj, plain_elim, plain_neutral};
ghost use Rattle.clf_syntax.specs.PlainTypes.{plain_ty};
ghost use Rattle.use_contexts.specs.Marks.{marks};
ghost use Rattle.clf_decision.specs.Checking.{argument_left, checked, inferred};
ghost use Rattle.clf_decision.specs.Hereditary.{hereditary};
ghost use Rattle.clf_kernel.specs.Answers.{plain_left, plain_inferred};
ghost use Rattle.clf_kernel.specs.Judge.{IsRowOf, signature_of, context_of};
ghost use Rattle.clf_kernel.specs.Spine.{argument_used, elimination_left, spine_left};
ghost use Rattle.clf_kernel.specs.Stops.{Gives};

use crate::judge::Judge;
use crate::parts::{first_part, second_part};
use crate::putting::put_in_range;
use crate::refusal::{Cause, Inferred, Stop, refuse_at};
use crate::rows::slack_of;
use clf_syntax::{Elim, Mode, Neutral, Obj, Ty, is_same_mode};
use use_contexts::{Holding, Left};

impl Judge<'_> {
    /// The type of a neutral, and what it leaves of a row.
    #[cycle(check)]
    #[tactic(auto, using(clf_syntax::specs::Plain::plain_laws, crate::proofs::Stops::stop_laws, crate::proofs::Spines::spine_laws))]
    pub fn infer_neutral(&mut self, neutral: &Neutral, row: Holding) -> Result<Inferred, Stop>
        requires marked { IsRowOf self.old row }
        ensures outcome { Gives plain_inferred (inferred hereditary (signature_of self.old) (context_of self.old)
            (marks row) (plain_neutral neutral.now)) result }
        ensures marked { IfOk result (λ found. IsRowOf self.old found.left.row) }
        ensures kept { OnOk result (self.new ≡ self.old) }
    {
        let found = self.infer_head(neutral.head, row)?;
        self.infer_spine(neutral.spine.as_slice(), found)
    }

    /// The type under the eliminations of a spine, and what they leave.
    #[cycle(check)]
    #[tactic(auto, using(crate::proofs::Stops::stop_laws, crate::proofs::Spines::spine_laws))]
    fn infer_spine(&mut self, spine: &[Elim], found: Inferred) -> Result<Inferred, Stop>
        requires marked { IsRowOf self.old found.left.row }
        ensures outcome { Gives plain_inferred (spine_left hereditary (signature_of self.old) (context_of self.old) 0
            (map plain_elim spine.now) (plain_inferred found)) result }
        ensures marked { IfOk result (λ found. IsRowOf self.old found.left.row) }
        ensures kept { OnOk result (self.new ≡ self.old) }
    {
        let mut inferred = found;
        let mut place = 0;
        for act in spine {
            inferred = self.eliminate(act, place, inferred)?;
            place += 1;
        }
        Ok(inferred)
    }

    /// The type under one elimination, and what it leaves.
    #[cycle(check)]
    #[tactic(auto, using(clf_syntax::specs::Plain::plain_laws, crate::proofs::Stops::stop_laws))]
    fn eliminate(&mut self, act: &Elim, place: usize, found: Inferred) -> Result<Inferred, Stop>
        requires marked { IsRowOf self.old found.left.row }
        ensures outcome { Gives plain_inferred (elimination_left hereditary (signature_of self.old)
            (context_of self.old) place (plain_elim act.now) (plain_inferred found)) result }
        ensures marked { IfOk result (λ found. IsRowOf self.old found.left.row) }
        ensures kept { OnOk result (self.new ≡ self.old) }
    {
        match act {
            Elim::Arg { mode, obj } => self.put_argument(*mode, obj, place, found),
            Elim::First => first_part(self.alloc, place, found),
            Elim::Second => second_part(self.alloc, place, found),
        }
    }

    /// The type of a function with an argument put to it, and what both leave.
    #[cycle(check)]
    #[tactic(auto, using(clf_syntax::specs::PlainTypes::plain_type_laws, crate::proofs::Stops::stop_laws))]
    fn put_argument(
        &mut self,
        mode: Mode,
        obj: &Obj,
        place: usize,
        found: Inferred,
    ) -> Result<Inferred, Stop>
        requires marked { IsRowOf self.old found.left.row }
        ensures outcome { Gives plain_inferred (argument_left hereditary mode (context_of self.old) (plain_obj obj.now)
            place (plain_inferred found) (λ row a.
            checked hereditary (signature_of self.old) (context_of self.old) row (plain_obj obj.now) a))
            result }
        ensures marked { IfOk result (λ found. IsRowOf self.old found.left.row) }
        ensures kept { OnOk result (self.new ≡ self.old) }
    {
        let Inferred { ty, left } = found;
        match ty {
            Ty::Fun {
                mode: wanted,
                dom,
                cod,
            } => {
                if !is_same_mode(mode, wanted) {
                    return Err(refuse_at(
                        self.alloc,
                        place,
                        Cause::ModeDiffers {
                            wanted,
                            found: mode,
                        },
                    ));
                }
                let left = self.check_argument(mode, obj, dom.get(), place, left)?;
                Ok(Inferred {
                    ty: put_in_range(self.alloc, obj, dom.get(), cod.get())?,
                    left,
                })
            }
            found @ (Ty::Fam { .. } | Ty::With { .. } | Ty::Top | Ty::Monad { .. }) => {
                Err(refuse_at(self.alloc, place, Cause::NotFunction { found }))
            }
        }
    }

    /// What an argument leaves of what its function left.
    #[cycle(check)]
    #[tactic(auto, using(crate::proofs::Stops::stop_laws))]
    pub fn check_argument(
        &mut self,
        mode: Mode,
        obj: &Obj,
        ty: &Ty,
        place: usize,
        left: Left,
    ) -> Result<Left, Stop>
        requires marked { IsRowOf self.old left.row }
        ensures outcome { Gives plain_left (argument_used mode (context_of self.old) place (plain_left left) (λ row.
            checked hereditary (signature_of self.old) (context_of self.old) row (plain_obj obj.now)
            (plain_ty ty.now))) result }
        ensures marked { IfOk result (λ left. IsRowOf self.old left.row) }
        ensures kept { OnOk result (self.new ≡ self.old) }
    {
        let start = self.allowed_of(mode, &left.row)?;
        let used = self.check_part(place, obj, ty, start)?;
        Ok(Left {
            row: self.left_outside(mode, left.row, used.row)?,
            slack: left.slack || slack_of(mode, used.slack),
        })
    }
}
