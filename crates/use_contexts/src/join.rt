//! What the check of a part leaves of a row, and how the leftovers of two parts go together.
ghost use Rattle.std.specs.Prelude.{◌≡◌, ◌<◌, ◌^◌, ◌&&◌, ◌||◌, if◌then◌else◌, false, None, Some, IfOk, OnOk, IfErr, length, slice_set};
ghost use Rattle.use_contexts.specs.Context.{modes};
ghost use Rattle.use_contexts.specs.Marks.{context, marks};
ghost use Rattle.use_contexts.specs.Rows.{left_in_both as both_left, newest_difference as newest, differs as differs_at};

use crate::context::Ctx;
use crate::holding::Holding;
use clf_syntax::Mode;
use std::alloc::{AllocError, Global};

/// What a part leaves: the entries that it left, and whether it may take more linear ones, as `<>` may.
#[derive(Drop)]
pub struct Left {
    pub row: Holding,
    pub slack: bool,
}

/// The variable of this number is used on one side and left on the other, which has no slack.
#[derive(Clone, Copy, Debug, PartialEq, Eq)]
pub struct Differ(pub u32);

impl Left {
    /// An equal leftover. It fails only where memory runs out.
    pub fn copy(&self, alloc: Global) -> Result<Left, AllocError>
        ensures { IfOk result (λ left. left ≡ self.now) }
    {
        Ok(Left {
            row: self.row.copy(alloc)?,
            slack: self.slack,
        })
    }
}

/// What is left after two parts in turn, where the second started from what the first left.
pub fn join_seq(first: &Left, second: Left) -> Left
    ensures row { result.row ≡ second.row }
    ensures slack { result.slack ≡ first.now.slack || second.slack }
{
    Left {
        row: second.row,
        slack: first.slack || second.slack,
    }
}

/// What is left after the two parts of a pair, which started from the same row.
pub fn join_add(ctx: &Ctx, first: Left, second: Left) -> Result<Left, Differ>
    requires first_length { length (marks first.row) ≡ length (context ctx.now) }
    requires second_length { length (marks second.row) ≡ length (context ctx.now) }
    requires numbered { length (context ctx.now) < 2 ^ 32 }
    ensures row { IfOk result (λ left. marks left.row ≡ both_left (marks first.row) (marks second.row)) }
    ensures slack { IfOk result (λ left. left.slack ≡ first.slack && second.slack) }
    ensures agree { OnOk result
        (newest (modes (context ctx.now)) (marks first.row) first.slack (marks second.row) second.slack ≡ None) }
    ensures differ { IfErr result (λ e.
        newest (modes (context ctx.now)) (marks first.row) first.slack (marks second.row) second.slack
        ≡ Some e.0) }
{
    if let Some(var) = newest_difference(ctx, &first, &second) {
        return Err(Differ(var));
    }
    Ok(Left {
        slack: first.slack && second.slack,
        row: left_in_both(first.row, &second.row),
    })
}

/// The newest variable at which the parts of a pair differ.
fn newest_difference(ctx: &Ctx, first: &Left, second: &Left) -> Option<u32>
    requires first_length { length (marks first.now.row) ≡ length (context ctx.now) }
    requires second_length { length (marks second.now.row) ≡ length (context ctx.now) }
    requires numbered { length (context ctx.now) < 2 ^ 32 }
    ensures { result
        ≡ newest (modes (context ctx.now)) (marks first.now.row) first.now.slack (marks second.now.row)
        second.now.slack }
{
    for var in 0..ctx.len() {
        let left_first = first.row.holds(var);
        let left_second = second.row.holds(var);
        if differs(
            ctx.mode(var),
            left_first,
            first.slack,
            left_second,
            second.slack,
        ) {
            return Some(var as u32);
        }
    }
    None
}

/// Whether a linear entry is used on one side and left on the other, which has no slack.
fn differs(
    mode: Mode,
    left_first: bool,
    slack_first: bool,
    left_second: bool,
    slack_second: bool,
) -> bool
    ensures { result ≡ differs_at mode left_first slack_first left_second slack_second }
{
    match mode {
        Mode::Persistent | Mode::Affine => false,
        Mode::Linear => {
            (left_first && !left_second && !slack_first)
                || (left_second && !left_first && !slack_second)
        }
    }
}

/// The row of the entries that both parts left.
fn left_in_both(first: Holding, second: &Holding) -> Holding
    requires { length (marks first) ≡ length (marks second.now) }
    ensures { marks result ≡ both_left (marks first) (marks second.now) }
{
    let mut row = first;
    for var in 0..second.held.len() {
        keep_if(&mut row, var, second.holds(var));
    }
    row
}

/// Lets a variable go, unless it is to be kept.
fn keep_if(row: &mut Holding, var: usize, kept: bool)
    requires { var < length (marks row.old) }
    ensures { marks row.new ≡ (if kept then marks row.old else slice_set (marks row.old) var false) }
{
    if !kept {
        row.let_go(var);
    }
}
