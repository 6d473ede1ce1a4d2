//! The steps of an expression: what each one opens, and the ends of their scopes.
ghost use Rattle.std.specs.Prelude.{ℕ, List, ◌≡◌, ◌+◌, IfOk, OnOk, length};
ghost use Rattle.clf_syntax.specs.declared.tree.Mode.{Mode};
ghost use Rattle.use_contexts.specs.Holding.{all_held};
ghost use Rattle.use_contexts.specs.Marks.{marks};
ghost use Rattle.clf_decision.specs.Outcome.{passed, at_part, and_then};
ghost use Rattle.clf_decision.specs.Checking.{with_slack};
ghost use Rattle.clf_kernel.specs.Answers.{plain_left, plain_inferred};
ghost use Rattle.clf_kernel.specs.Judge.{HasMarks, IsGrown, IsRowOf, context_of};
ghost use Rattle.clf_kernel.specs.Stops.{Gives};
ghost use Rattle.clf_kernel.specs.Trail.{EntersStep, closed_modes, closed_steps, opened_by, opened_width};

use crate::judge::Judge;
use crate::pattern::same_pattern;
use crate::refusal::{Cause, Inferred, Stop, from_part, refuse_at};
use crate::scope::close_modes;
use clf_syntax::{Modes, Ty};
use sqlite_items::Items;
use std::alloc::{AllocError, Global};
use use_contexts::{Holding, Left};

/// What a step opened: the modes of its variables, and the slack of its right side.
#[derive(Drop)]
pub struct Opened {
    pub modes: Modes,
    pub slack: bool,
}

/// A step that is entered: the row from which what follows it starts, and what the step opened.
#[derive(Drop)]
pub struct Entered {
    pub row: Holding,
    pub opened: Opened,
}

/// The steps that are entered, the oldest first, and the row from which what follows them starts.
#[derive(Drop)]
pub struct Trail {
    pub row: Holding,
    pub opened: Items<Opened>,
}

impl Judge<'_> {
    /// The entries of the right side's monad become the newest variables, all of them held.
    #[tactic(auto, using(clf_syntax::specs::PlainTypes::plain_type_laws, crate::proofs::Stops::stop_laws))]
    pub fn enter_step(
        &mut self,
        place: usize,
        modes: &Modes,
        found: Inferred,
    ) -> Result<Entered, Stop>
        requires marked { IsRowOf self.old found.left.row }
        ensures outcome { EntersStep place modes.now (context_of self.old) (plain_inferred found) (context_of self.new)
            result }
        ensures grown { OnOk result (IsGrown self.old self.new) }
        ensures marked { IfOk result (λ entered. IsRowOf self.new entered.row) }
    {
        let Inferred { ty, left } = found;
        match ty {
            Ty::Monad { tele } => {
                if let Err(stop) = same_pattern(self.alloc, modes.as_slice(), &tele) {
                    return Err(from_part(self.alloc, place, stop));
                }
                let row = hold_entries(modes.len(), left.row)?;
                self.enter_entries(tele.entries)?;
                let opened = Opened {
                    modes: modes.copy(self.alloc)?,
                    slack: left.slack,
                };
                Ok(Entered { row, opened })
            }
            found @ (Ty::Fam { .. } | Ty::Fun { .. } | Ty::With { .. } | Ty::Top) => {
                Err(refuse_at(self.alloc, place, Cause::NotMonad { found }))
            }
        }
    }
}

/// A row with so many newer variables, all of them held.
fn hold_entries(entries: usize, row: Holding) -> Result<Holding, AllocError>
    ensures { IfOk result
        (λ inner. (ms : List Mode) → length ms ≡ entries → marks inner ≡ all_held ms (marks row)) }
{
    let mut row = row;
    for _entry in 0..entries {
        row.held.push(true)?;
    }
    Ok(row)
}

/// The ends of steps, the newest first.
#[tactic(auto, using(crate::proofs::Stops::stop_laws))]
pub fn close_steps(alloc: Global, opened: &[Opened], left: Left) -> Result<Left, Stop>
    ensures outcome { (n : ℕ) → HasMarks (opened_width (opened_by opened.now) + n) left.row →
        Gives plain_left (closed_steps n (opened_by opened.now) (passed (plain_left left))) result }
    ensures marked { (n : ℕ) → HasMarks (opened_width (opened_by opened.now) + n) left.row →
        IfOk result (λ outer. HasMarks n outer.row) }
{
    let mut left = left;
    let mut place = opened.len();
    while place > 0 {
        place -= 1;
        left = close_step(alloc, place, &opened[place], left)?;
    }
    Ok(left)
}

/// The end of one step: its variables' scopes end, and the slack of its right side counts.
#[tactic(auto, using(crate::proofs::Stops::stop_laws))]
fn close_step(alloc: Global, place: usize, opened: &Opened, left: Left) -> Result<Left, Stop>
    ensures outcome { (n : ℕ) → HasMarks (n + length (opened.now).modes) left.row →
        Gives plain_left (and_then (at_part place (closed_modes (opened.now).modes n (plain_left left)))
        (with_slack (opened.now).slack)) result }
    ensures marked { (n : ℕ) → HasMarks (n + length (opened.now).modes) left.row →
        IfOk result (λ outer. HasMarks n outer.row) }
{
    match close_modes(alloc, opened.modes.as_slice(), left) {
        Ok(outer) => Ok(Left {
            row: outer.row,
            slack: opened.slack || outer.slack,
        }),
        Err(stop) => Err(from_part(alloc, place, stop)),
    }
}
