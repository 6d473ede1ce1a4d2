//! The check of objects.
ghost use Rattle.std.specs.Prelude.{◌≡◌, ◌∷◌, true, IfOk, OnOk};
ghost use Rattle.clf_syntax.specs.Plain.{plain_obj, plain_neutral};
ghost use Rattle.clf_syntax.specs.PlainTypes.{plain_ty};
ghost use Rattle.use_contexts.specs.Context.{modes};
ghost use Rattle.use_contexts.specs.Marks.{marks};
ghost use Rattle.use_contexts.specs.Rows.{newest_difference};
ghost use Rattle.clf_decision.specs.Outcome.{and_then, at_part};
ghost use Rattle.clf_decision.specs.Checking.{closed_scope, lambda_left, joined_left, atomic_left, checked, inferred};
ghost use Rattle.clf_decision.specs.Hereditary.{hereditary};
ghost use Rattle.clf_kernel.specs.Answers.{plain_left};
ghost use Rattle.clf_kernel.specs.Judge.{IsRowOf, signature_of, context_of};
ghost use Rattle.clf_kernel.specs.Stops.{Gives};

use crate::judge::Judge;
use crate::parts::check_unit;
use crate::refusal::{AtType, Cause, Stop, from_part, refuse, refuse_type};
use clf_syntax::{Mode, Neutral, Obj, Ty, is_same_mode};
use use_contexts::{Holding, Left};

impl Judge<'_> {
    /// What the check of an object against a type leaves of a row.
    #[cycle(check)]
    #[tactic(auto, using(clf_syntax::specs::Plain::plain_laws, clf_syntax::specs::PlainTypes::plain_type_laws, crate::proofs::Stops::stop_laws))]
    pub fn check(&mut self, obj: &Obj, ty: &Ty, row: Holding) -> Result<Left, Stop>
        requires marked { IsRowOf self.old row }
        ensures outcome { Gives plain_left (checked hereditary (signature_of self.old) (context_of self.old) (marks row)
            (plain_obj obj.now) (plain_ty ty.now)) result }
        ensures marked { IfOk result (λ left. IsRowOf self.old left.row) }
        ensures kept { OnOk result (self.new ≡ self.old) }
    {
        match obj {
            Obj::Lam { mode, body } => { self.check_lambda(*mode, body.get(), ty, row) }
            Obj::Pair { left, right } => match ty {
                Ty::With {
                    left: first,
                    right: second,
                } => {
                    let one = self.check_left(left.get(), first.get(), &row)?;
                    self.check_right(right.get(), second.get(), row, one)
                }
                Ty::Fam { .. } | Ty::Fun { .. } | Ty::Top | Ty::Monad { .. } => {
                    Err(refuse_type(self.alloc, AtType::NotPair, ty))
                }
            },
            Obj::Unit => check_unit(self.alloc, ty, row),
            Obj::Mon { expr } => self.check_monadic(expr.get(), ty, row),
            Obj::Hole => Err(refuse(self.alloc, Cause::NotClosed)),
            Obj::At { neutral } => self.check_neutral(neutral, ty, row),
        }
    }

    /// The check of a neutral, which stands at the family that it has.
    #[cycle(check)]
    #[tactic(auto, using(crate::proofs::Stops::stop_laws))]
    fn check_neutral(&mut self, neutral: &Neutral, ty: &Ty, row: Holding) -> Result<Left, Stop>
        requires marked { IsRowOf self.old row }
        ensures outcome { Gives plain_left (and_then (inferred hereditary (signature_of self.old) (context_of self.old)
            (marks row) (plain_neutral neutral.now)) (atomic_left (context_of self.old) (plain_ty ty.now)))
            result }
        ensures marked { IfOk result (λ left. IsRowOf self.old left.row) }
        ensures kept { OnOk result (self.new ≡ self.old) }
    {
        let found = self.infer_neutral(neutral, row)?;
        self.check_atomic(ty, found)
    }

    /// What the left part of a pair leaves of a row from which the right part starts too.
    #[cycle(check)]
    #[tactic(auto, using(crate::proofs::Stops::stop_laws))]
    fn check_left(&mut self, obj: &Obj, ty: &Ty, row: &Holding) -> Result<Left, Stop>
        requires marked { IsRowOf self.old row.now }
        ensures outcome { Gives plain_left (at_part 0 (checked hereditary (signature_of self.old) (context_of self.old)
            (marks row.now) (plain_obj obj.now) (plain_ty ty.now))) result }
        ensures marked { IfOk result (λ left. IsRowOf self.old left.row) }
        ensures kept { OnOk result (self.new ≡ self.old) }
    {
        let copy = row.copy(self.alloc)?;
        self.check_part(0, obj, ty, copy)
    }

    /// What both parts of a pair leave, after what the left one leaves.
    #[cycle(check)]
    #[tactic(auto, using(crate::proofs::Stops::stop_laws))]
    fn check_right(&mut self, obj: &Obj, ty: &Ty, row: Holding, first: Left) -> Result<Left, Stop>
        requires marked { IsRowOf self.old row }
        requires first_marked { IsRowOf self.old first.row }
        ensures outcome { Gives plain_left (and_then (at_part 1 (checked hereditary (signature_of self.old)
            (context_of self.old) (marks row) (plain_obj obj.now) (plain_ty ty.now))) (λ y.
            joined_left (context_of self.old) (plain_left first) y
            (newest_difference (modes (context_of self.old)) (marks first.row) first.slack y.0 y.1)))
            result }
        ensures marked { IfOk result (λ left. IsRowOf self.old left.row) }
        ensures kept { OnOk result (self.new ≡ self.old) }
    {
        let second = self.check_part(1, obj, ty, row)?;
        self.join(first, second)
    }

    /// The check of the part with this number: a refusal is at the part.
    #[cycle(check)]
    pub fn check_part(
        &mut self,
        place: usize,
        obj: &Obj,
        ty: &Ty,
        row: Holding,
    ) -> Result<Left, Stop>
        requires marked { IsRowOf self.old row }
        ensures outcome { Gives plain_left (at_part place (checked hereditary (signature_of self.old)
            (context_of self.old) (marks row) (plain_obj obj.now) (plain_ty ty.now))) result }
        ensures marked { IfOk result (λ left. IsRowOf self.old left.row) }
        ensures kept { OnOk result (self.new ≡ self.old) }
    {
        match self.check(obj, ty, row) {
            Ok(left) => Ok(left),
            Err(stop) => Err(from_part(self.alloc, place, stop)),
        }
    }

    #[cycle(check)]
    #[tactic(auto, using(clf_syntax::specs::Plain::plain_laws, clf_syntax::specs::PlainTypes::plain_type_laws, crate::proofs::Stops::stop_laws))]
    fn check_lambda(&mut self, mode: Mode, body: &Obj, ty: &Ty, row: Holding) -> Result<Left, Stop>
        requires marked { IsRowOf self.old row }
        ensures outcome { Gives plain_left (lambda_left mode (context_of self.old) (plain_ty ty.now) (λ a c.
            checked hereditary (signature_of self.old) ((mode, a) ∷ context_of self.old) (true ∷ marks row)
            (plain_obj body.now) c)) result }
        ensures marked { IfOk result (λ left. IsRowOf self.old left.row) }
        ensures kept { OnOk result (self.new ≡ self.old) }
    {
        match ty {
            Ty::Fun {
                mode: wanted,
                dom,
                cod,
            } => {
                if !is_same_mode(mode, *wanted) {
                    return Err(refuse(
                        self.alloc,
                        Cause::ModeDiffers {
                            wanted: *wanted,
                            found: mode,
                        },
                    ));
                }
                self.check_body(mode, body, dom.get(), cod.get(), row)
            }
            Ty::Fam { .. } | Ty::With { .. } | Ty::Top | Ty::Monad { .. } => {
                Err(refuse_type(self.alloc, AtType::NotFunction, ty))
            }
        }
    }

    /// The check of a lambda's body under its variable, and the end of the variable's scope.
    #[cycle(check)]
    #[tactic(auto, using(clf_syntax::specs::Plain::plain_laws, clf_syntax::specs::PlainTypes::plain_type_laws, crate::proofs::Stops::stop_laws))]
    fn check_body(
        &mut self,
        mode: Mode,
        body: &Obj,
        dom: &Ty,
        cod: &Ty,
        row: Holding,
    ) -> Result<Left, Stop>
        requires marked { IsRowOf self.old row }
        ensures outcome { Gives plain_left (and_then (at_part 0 (checked hereditary (signature_of self.old)
            ((mode, plain_ty dom.now) ∷ context_of self.old) (true ∷ marks row) (plain_obj body.now)
            (plain_ty cod.now))) (closed_scope mode (context_of self.old))) result }
        ensures marked { IfOk result (λ left. IsRowOf self.old left.row) }
        ensures kept { OnOk result (self.new ≡ self.old) }
    {
        let inner = self.enter(mode, dom, row)?;
        let left = self.check_part(0, body, cod, inner)?;
        self.leave();
        self.close_scope(mode, left)
    }
}
