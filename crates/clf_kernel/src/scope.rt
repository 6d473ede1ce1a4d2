//! The scope of a lambda's variable.
ghost use Rattle.std.specs.Prelude.{ℕ, ◌≡◌, ◌∷◌, ◌+◌, true, IfOk, OnOk, IfErr, length};
ghost use Rattle.clf_syntax.specs.PlainTypes.{plain_ty};
ghost use Rattle.use_contexts.specs.Marks.{marks};
ghost use Rattle.use_contexts.specs.Rows.{newest, older, is_unused as is_unused_linear};
ghost use Rattle.clf_decision.specs.Checking.{closed_scope};
ghost use Rattle.clf_kernel.specs.declared.judge.Judge.{Judge as DeclaredJudge};
ghost use Rattle.clf_kernel.specs.Answers.{plain_left};
ghost use Rattle.clf_kernel.specs.Judge.{HasMarks, HasNewer, IsEntered, IsGrown, IsInnerRowOf, IsRowOf, context_of};
ghost use Rattle.clf_kernel.specs.Stops.{IsShort, Gives};
ghost use Rattle.clf_kernel.specs.Trail.{closed_mode, closed_modes};

use crate::judge::Judge;
use crate::refusal::{Cause, Stop, count, refuse, too_far};
use clf_syntax::{Mode, TeleEntry, Ty};
use sqlite_items::Items;
use std::alloc::Global;
use std::mem;
use use_contexts::{Holding, Left};

impl Judge<'_> {
    /// Adds a variable that is held. It answers the row with it.
    #[tactic(auto, using(crate::proofs::Stops::stop_laws))]
    pub fn enter(&mut self, mode: Mode, ty: &Ty, row: Holding) -> Result<Holding, Stop>
        ensures context { OnOk result (context_of self.new ≡ (mode, plain_ty ty.now) ∷ context_of self.old) }
        ensures entry { OnOk result (IsEntered self.old self.new) }
        ensures row { IfOk result (λ inner. marks inner ≡ true ∷ marks row) }
        ensures short { IfErr result IsShort }
    {
        let mut row = row;
        row.held.push(true)?;
        self.enter_entry(mode, ty)?;
        Ok(row)
    }

    /// Adds a variable.
    #[tactic(auto, using(crate::proofs::Stops::stop_laws))]
    pub fn enter_entry(&mut self, mode: Mode, ty: &Ty) -> Result<(), Stop>
        ensures context { OnOk result (context_of self.new ≡ (mode, plain_ty ty.now) ∷ context_of self.old) }
        ensures entry { OnOk result (IsEntered self.old self.new) }
        ensures short { IfErr result IsShort }
    {
        if self.ctx.len() >= u32::MAX as usize {
            return Err(too_far(self.alloc));
        }
        let ty = ty.copy(self.alloc)?;
        self.ctx.entries.push(TeleEntry { mode, ty })?;
        Ok(())
    }

    /// Adds variables, the newest last.
    #[tactic(auto, using(crate::proofs::Stops::stop_laws))]
    pub fn enter_entries(&mut self, entries: Items<TeleEntry>) -> Result<(), Stop>
        ensures entries { OnOk result (HasNewer self.old entries self.new) }
        ensures short { IfErr result IsShort }
    {
        let older = self.ctx.len();
        if older > u32::MAX as usize || entries.len() > u32::MAX as usize - older {
            return Err(too_far(self.alloc));
        }
        let mut all = mem::replace(&mut self.ctx.entries, Items::new(self.alloc));
        all.append(entries)?;
        self.ctx.entries = all;
        Ok(())
    }

    /// Takes the newest variable away.
    pub fn leave(&mut self)
        ensures { (outer : DeclaredJudge) → IsEntered outer self.old → self.new ≡ outer }
    {
        self.ctx.entries.pop();
    }

    /// Takes the newest variables away, down to so many.
    pub fn leave_to(&mut self, len: usize)
        ensures { (outer : DeclaredJudge) → IsGrown outer self.old → length outer.ctx.entries ≡ len → self.new ≡ outer }
    {
        while self.ctx.len() > len {
            self.leave();
        }
    }

    /// The end of the scope of a variable that the context has no longer.
    #[tactic(auto, using(crate::proofs::Stops::stop_laws))]
    pub fn close_scope(&self, mode: Mode, left: Left) -> Result<Left, Stop>
        requires marked { IsInnerRowOf self.now left.row }
        ensures outcome { Gives plain_left (closed_scope mode (context_of self.now) (plain_left left)) result }
        ensures marked { IfOk result (λ outer. IsRowOf self.now outer.row) }
    {
        close_mode(self.alloc, mode, left)
    }
}

/// The end of the scope of the newest variable, whose level is the number of marks.
#[tactic(auto, using(crate::proofs::Stops::stop_laws))]
fn close_mode(alloc: Global, mode: Mode, left: Left) -> Result<Left, Stop>
    ensures outcome { Gives plain_left (closed_mode mode (length (marks left.row)) (plain_left left)) result }
    ensures row { IfOk result (λ outer. marks outer.row ≡ older (marks left.row)) }
{
    let Left { mut row, slack } = left;
    let entries = row.held.len();
    let is_left = take_newest(&mut row);
    if is_unused(mode, is_left, slack) {
        let level = count(alloc, entries)?;
        return Err(refuse(alloc, Cause::Unused { level }));
    }
    Ok(Left { row, slack })
}

/// The ends of the scopes of the newest variables, which have these modes; that of the newest first.
#[tactic(auto, using(crate::proofs::Stops::stop_laws))]
pub fn close_modes(alloc: Global, modes: &[Mode], left: Left) -> Result<Left, Stop>
    ensures outcome { (n : ℕ) → HasMarks (n + length modes.now) left.row →
        Gives plain_left (closed_modes modes.now n (plain_left left)) result }
    ensures marked { (n : ℕ) → HasMarks (n + length modes.now) left.row →
        IfOk result (λ outer. HasMarks n outer.row) }
{
    let mut left = left;
    let mut at = modes.len();
    while at > 0 {
        at -= 1;
        left = close_mode(alloc, modes[at], left)?;
    }
    Ok(left)
}

/// Takes the newest mark away, and answers it.
fn take_newest(row: &mut Holding) -> bool
    ensures newest { result ≡ newest (marks row.old) }
    ensures rest { marks row.new ≡ older (marks row.old) }
{
    match row.held.pop() {
        Some(held) => held,
        None => false,
    }
}

/// Whether the variable of a scope that ends is linear and left, without slack.
fn is_unused(mode: Mode, is_left: bool, slack: bool) -> bool
    ensures { result ≡ is_unused_linear mode is_left slack }
{
    matches!(mode, Mode::Linear) && is_left && !slack
}
