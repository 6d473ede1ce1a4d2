//! The check of expressions: forward along the steps, then the tuple, and back over the ends of the steps' scopes.
ghost use Rattle.std.specs.Prelude.{◌≡◌, map, IfOk, OnOk, length};
ghost use Rattle.clf_syntax.specs.Plain.{plain_expr, plain_step};
ghost use Rattle.clf_syntax.specs.PlainTypes.{plain_ty, plain_tele};
ghost use Rattle.use_contexts.specs.Marks.{marks};
ghost use Rattle.clf_decision.specs.Checking.{monadic_left, checked_expression};
ghost use Rattle.clf_decision.specs.Hereditary.{hereditary};
ghost use Rattle.clf_kernel.specs.Answers.{plain_left};
ghost use Rattle.clf_kernel.specs.Judge.{IsGrown, IsRowOf, IsWiderBy, signature_of, context_of};
ghost use Rattle.clf_kernel.specs.Stops.{Gives};
ghost use Rattle.clf_kernel.specs.Trail.{OpensStep, OpensSteps, opened_by, opened_width};

use crate::head::raised_telescope;
use crate::judge::Judge;
use crate::refusal::{AtType, Stop, from_part, refuse_type};
use crate::trail::{Entered, Trail, close_steps};
use clf_syntax::{Expr, Step, Tele, Ty};
use sqlite_items::Items;
use use_contexts::{Holding, Left};

impl Judge<'_> {
    /// A monadic object stands at a monad.
    #[cycle(check)]
    #[tactic(auto, using(clf_syntax::specs::PlainTypes::plain_type_laws, crate::proofs::Stops::stop_laws))]
    pub fn check_monadic(&mut self, expr: &Expr, ty: &Ty, row: Holding) -> Result<Left, Stop>
        requires marked { IsRowOf self.old row }
        ensures outcome { Gives plain_left (monadic_left (plain_ty ty.now) (λ s.
            checked_expression hereditary (signature_of self.old) (context_of self.old) (marks row) 0
            (plain_expr expr.now) s)) result }
        ensures marked { IfOk result (λ left. IsRowOf self.old left.row) }
        ensures kept { OnOk result (self.new ≡ self.old) }
    {
        match ty {
            Ty::Monad { tele } => self.check_expression(expr, tele, row),
            Ty::Fam { .. } | Ty::Fun { .. } | Ty::With { .. } | Ty::Top => {
                Err(refuse_type(self.alloc, AtType::NotMonad, ty))
            }
        }
    }

    /// What the check of an expression against a telescope leaves of a row: forward along its steps, then its tuple,
    /// and back over the ends of the steps' scopes.
    #[cycle(check)]
    #[tactic(auto, using(clf_syntax::specs::Plain::plain_laws, crate::proofs::Stops::stop_laws))]
    pub fn check_expression(&mut self, expr: &Expr, tele: &Tele, row: Holding) -> Result<Left, Stop>
        requires marked { IsRowOf self.old row }
        ensures outcome { Gives plain_left (checked_expression hereditary (signature_of self.old) (context_of self.old)
            (marks row) 0 (plain_expr expr.now) (plain_tele tele.now)) result }
        ensures marked { IfOk result (λ left. IsRowOf self.old left.row) }
        ensures kept { OnOk result (self.new ≡ self.old) }
    {
        let older = self.ctx.len();
        let trail = self.open_steps(expr.steps.as_slice(), row)?;
        let types = raised_telescope(self.alloc, tele, (self.ctx.len() - older) as u32)?;
        let steps = expr.steps.len();
        let entries = expr.result.as_slice();
        let left = self.check_tuple(steps, entries, types.entries, trail.row)?;
        self.leave_to(older);
        close_steps(self.alloc, trail.opened.as_slice(), left)
    }

    /// What the steps of an expression open.
    #[cycle(check)]
    #[tactic(auto, using(crate::proofs::Stops::stop_laws))]
    fn open_steps(&mut self, steps: &[Step], row: Holding) -> Result<Trail, Stop>
        requires marked { IsRowOf self.old row }
        ensures outcome { OpensSteps hereditary (signature_of self.old) (map plain_step steps.now) (context_of self.old)
            (marks row) (context_of self.new) result }
        ensures grown { OnOk result (IsGrown self.old self.new) }
        ensures width { IfOk result (λ trail.
            IsWiderBy (opened_width (opened_by trail.opened)) self.old self.new) }
        ensures marked { IfOk result (λ trail. IsRowOf self.new trail.row) }
    {
        let mut opened = Items::new(self.alloc);
        let mut row = row;
        let mut place = 0;
        for step in steps {
            let entered = self.open_step(place, step, row)?;
            row = entered.row;
            opened.push(entered.opened)?;
            place += 1;
        }
        Ok(Trail { row, opened })
    }

    /// What one step opens.
    #[cycle(check)]
    #[tactic(auto, using(clf_syntax::specs::Plain::plain_laws, crate::proofs::Stops::stop_laws))]
    fn open_step(&mut self, place: usize, step: &Step, row: Holding) -> Result<Entered, Stop>
        requires marked { IsRowOf self.old row }
        ensures outcome { OpensStep hereditary (signature_of self.old) place (plain_step step.now) (context_of self.old)
            (marks row) (context_of self.new) result }
        ensures grown { OnOk result (IsGrown self.old self.new) }
        ensures width { IfOk result
            (λ entered. IsWiderBy (length entered.opened.modes) self.old self.new) }
        ensures marked { IfOk result (λ entered. IsRowOf self.new entered.row) }
    {
        match self.infer_neutral(&step.rhs, row) {
            Ok(found) => self.enter_step(place, &step.modes, found),
            Err(stop) => Err(from_part(self.alloc, place, stop)),
        }
    }
}
