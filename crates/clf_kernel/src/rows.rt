//! The rows from which arguments start, and what they leave outside.
ghost use Rattle.std.specs.Prelude.{◌≡◌, ◌&&◌, not, if◌then◌else◌, IfOk};
ghost use Rattle.use_contexts.specs.Context.{modes};
ghost use Rattle.use_contexts.specs.Holding.{allowed, is_linear, is_persistent, persistent_alone as persistent_marks, without_linear as without_linear_marks};
ghost use Rattle.use_contexts.specs.Marks.{marks};
ghost use Rattle.use_contexts.specs.Rows.{linear_of as linear_marks, outside, slack_outside};
ghost use Rattle.clf_kernel.specs.Judge.{IsRowOf, context_of};

use crate::judge::Judge;
use clf_syntax::Mode;
use sqlite_items::Items;
use std::alloc::AllocError;
use use_contexts::Holding;

impl Judge<'_> {
    /// The row from which what its mode allows of a row starts.
    #[tactic(auto, using(crate::proofs::RowSteps::length_laws))]
    pub fn allowed_of(&self, mode: Mode, row: &Holding) -> Result<Holding, AllocError>
        requires { IsRowOf self.now row.now }
        ensures marks { IfOk result
            (λ start. marks start ≡ allowed mode (modes (context_of self.now)) (marks row.now)) }
        ensures marked { IfOk result (λ start. IsRowOf self.now start) }
    {
        match mode {
            Mode::Persistent => self.persistent_alone(),
            Mode::Affine => self.without_linear(row),
            Mode::Linear => row.copy(self.alloc),
        }
    }

    /// What is left outside of a row of which a part started from what its mode allows, and left this much.
    #[tactic(auto, using(crate::proofs::RowSteps::length_laws))]
    pub fn left_outside(
        &self,
        mode: Mode,
        row: Holding,
        left: Holding,
    ) -> Result<Holding, AllocError>
        requires row_length { IsRowOf self.now row }
        requires left_length { IsRowOf self.now left }
        ensures marks { IfOk result
            (λ rest. marks rest ≡ outside mode (modes (context_of self.now)) (marks row) (marks left)) }
        ensures marked { IfOk result (λ rest. IsRowOf self.now rest) }
    {
        match mode {
            Mode::Persistent => Ok(row),
            Mode::Affine => self.linear_of(&row, &left),
            Mode::Linear => Ok(left),
        }
    }

    /// The row of the persistent entries alone.
    #[tactic(auto, using(crate::proofs::RowSteps::length_laws))]
    pub fn persistent_alone(&self) -> Result<Holding, AllocError>
        ensures marks { IfOk result (λ row. marks row ≡ persistent_marks (modes (context_of self.now))) }
        ensures marked { IfOk result (λ row. IsRowOf self.now row) }
    {
        let mut held = Items::new(self.alloc);
        let mut var = self.ctx.len();
        while var > 0 {
            var -= 1;
            held.push(is_persistent(self.ctx.mode(var)))?;
        }
        Ok(Holding { held })
    }

    /// A row without its linear entries.
    #[tactic(auto, using(crate::proofs::RowSteps::length_laws))]
    fn without_linear(&self, row: &Holding) -> Result<Holding, AllocError>
        requires { IsRowOf self.now row.now }
        ensures marks { IfOk result
            (λ left. marks left ≡ without_linear_marks (modes (context_of self.now)) (marks row.now)) }
        ensures marked { IfOk result (λ left. IsRowOf self.now left) }
    {
        let mut held = Items::new(self.alloc);
        let mut var = self.ctx.len();
        while var > 0 {
            var -= 1;
            held.push(keeps(self.ctx.mode(var), row.holds(var)))?;
        }
        Ok(Holding { held })
    }

    /// The linear entries of the first row, and the others of the second.
    #[tactic(auto, using(crate::proofs::RowSteps::length_laws))]
    fn linear_of(&self, first: &Holding, second: &Holding) -> Result<Holding, AllocError>
        requires first_length { IsRowOf self.now first.now }
        requires second_length { IsRowOf self.now second.now }
        ensures marks { IfOk result
            (λ left. marks left ≡ linear_marks (modes (context_of self.now)) (marks first.now) (marks second.now)) }
        ensures marked { IfOk result (λ left. IsRowOf self.now left) }
    {
        let mut held = Items::new(self.alloc);
        let mut var = self.ctx.len();
        while var > 0 {
            var -= 1;
            held.push(chosen(self.ctx.mode(var), first.holds(var), second.holds(var)))?;
        }
        Ok(Holding { held })
    }
}

/// Whether the slack of a part of this mode counts outside of it.
pub fn slack_of(mode: Mode, slack: bool) -> bool
    ensures { result ≡ slack_outside mode slack }
{
    matches!(mode, Mode::Linear) && slack
}

fn is_persistent(mode: Mode) -> bool
    ensures { result ≡ is_persistent mode }
{
    matches!(mode, Mode::Persistent)
}

/// Whether a held entry stays beside an affine argument.
fn keeps(mode: Mode, held: bool) -> bool
    ensures { result ≡ not (is_linear mode) && held }
{
    !matches!(mode, Mode::Linear) && held
}

fn chosen(mode: Mode, linear: bool, other: bool) -> bool
    ensures { result ≡ (if is_linear mode then linear else other) }
{
    match mode {
        Mode::Linear => linear,
        Mode::Persistent | Mode::Affine => other,
    }
}
