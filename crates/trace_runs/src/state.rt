//! The state after a step.
ghost use Rattle.std.specs.Prelude.{◌≡◌, IfOk, IfErr, length};
ghost use Rattle.clf_syntax.specs.PlainTypes.{plain_tele};
ghost use Rattle.clf_syntax.specs.Wide.{IsWant};
ghost use Rattle.use_contexts.specs.Marks.{context, marks};
ghost use Rattle.trace_runs.specs.Run.{plain_state, state_after};

use clf_syntax::{Tele, Want};
use std::alloc::Global;
use use_contexts::{Ctx, Holding, State};

/// The state after a step that leaves this row: the entries of the telescope are the newest variables, and all of them
/// are held.
pub fn after(alloc: Global, state: &State, row: &Holding, tele: &Tele) -> Result<State, Want>
    requires { length (marks row.now) ≡ length (context state.now.ctx) }
    ensures state { IfOk result
        (λ s. plain_state s ≡ state_after (context state.now.ctx) (marks row.now) (plain_tele tele.now)) }
    ensures want { IfErr result IsWant }
{
    let ctx = state.ctx.copy(alloc)?;
    let row = row.copy(alloc)?;
    let tele = tele.copy(alloc)?;
    entered(alloc, ctx, row, tele)
}

/// A context and a row of it, with the entries of a telescope as the newest variables, all of them held.
pub fn entered(alloc: Global, ctx: Ctx, row: Holding, tele: Tele) -> Result<State, Want>
    ensures state { IfOk result (λ s. plain_state s ≡ state_after (context ctx) (marks row) (plain_tele tele)) }
    ensures want { IfErr result IsWant }
{
    let mut ctx = ctx;
    let mut row = row;
    let count = tele.entries.len();
    if count > u32::MAX as usize || ctx.len() > u32::MAX as usize - count {
        return Err(Want::too_far(alloc));
    }
    for _entry in 0..count {
        row.held.push(true)?;
    }
    ctx.entries.append(tele.entries)?;
    Ok(State { ctx, holding: row })
}
