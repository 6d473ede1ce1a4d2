//! The replay of steps from a state.
ghost use Rattle.std.specs.Prelude.{◌≡◌, [], ◌∷◌, IfOk, IfErr, map};
ghost use Rattle.clf_syntax.specs.Plain.{plain_step};
ghost use Rattle.clf_syntax.specs.Wide.{IsWant};
ghost use Rattle.clf_sig.specs.Signature.{plain_signature};
ghost use Rattle.use_contexts.specs.Marks.{context, marks};
ghost use Rattle.clf_decision.specs.Starts.{Starts};
ghost use Rattle.clf_kernel.specs.Answers.{plain_cause};
ghost use Rattle.trace_runs.specs.Replay.{Replays};
ghost use Rattle.trace_runs.specs.Run.{plain_state};
ghost use Rattle.trace_runs.specs.Steps.{IsBehind, IsRefused, Steps, StepsAt};

use crate::state::entered;
use clf_kernel::{Cause, Inferred, Refusal, check_pattern, infer};
use clf_sig::Signature;
use clf_syntax::{OrWide, Step, Ty, Want};
use std::alloc::Global;
use use_contexts::State;

/// The state to which the steps lead from a state, each of them taken in turn.
///
/// It refuses where one of them is no step. The path begins with the number of the first such one, and there is one
/// such path with one such cause (`decided_runs`).
pub fn replay(
    alloc: Global,
    sig: &Signature,
    state: &State,
    steps: &[Step],
) -> Result<State, OrWide<Refusal>>
    requires starts { Starts (plain_signature sig.now) (context state.now.ctx) (marks state.now.holding) }
    ensures exact { Replays (plain_signature sig.now) (map plain_step steps.now) (plain_state state.now) result }
{
    let mut reached = state.copy(alloc)?;
    for place in 0..steps.len() {
        reached = step_at(alloc, place, sig, reached, &steps[place])?;
    }
    Ok(reached)
}

/// The state after the step with this number. A refusal's path begins with the number.
fn step_at(
    alloc: Global,
    place: usize,
    sig: &Signature,
    state: State,
    step: &Step,
) -> Result<State, OrWide<Refusal>>
    requires starts { Starts (plain_signature sig.now) (context state.ctx) (marks state.holding) }
    ensures exact { StepsAt place (plain_signature sig.now) (plain_step step.now) (plain_state state) result }
{
    match take_step(alloc, sig, state, step) {
        Ok(next) => Ok(next),
        Err(fault) => Err(behind(alloc, place, fault)),
    }
}

/// The state after one step.
fn take_step(
    alloc: Global,
    sig: &Signature,
    state: State,
    step: &Step,
) -> Result<State, OrWide<Refusal>>
    requires starts { Starts (plain_signature sig.now) (context state.ctx) (marks state.holding) }
    ensures exact { Steps (plain_signature sig.now) (plain_step step.now) (plain_state state) result }
{
    let Inferred { ty, left } = infer(alloc, sig, &state.ctx, &state.holding, &step.rhs)?;
    match ty {
        Ty::Monad { tele } => {
            check_pattern(alloc, step.modes.as_slice(), &tele)?;
            Ok(entered(alloc, state.ctx, left.row, tele)?)
        }
        found @ (Ty::Fam { .. } | Ty::Fun { .. } | Ty::With { .. } | Ty::Top) => {
            Err(refuse(alloc, Cause::NotMonad { found }))
        }
    }
}

/// A count of parts as a number of 32 bits.
fn count(alloc: Global, parts: usize) -> Result<u32, Want>
    ensures count { IfOk result (λ n. n ≡ parts) }
    ensures want { IfErr result IsWant }
{
    if parts > u32::MAX as usize {
        return Err(Want::too_far(alloc));
    }
    Ok(parts as u32)
}

/// A refusal of the step itself.
fn refuse(alloc: Global, cause: Cause) -> OrWide<Refusal>
    ensures { IsRefused [] (plain_cause cause) result }
{
    OrWide::Fault(Refusal {
        path: Vec::new(alloc),
        cause,
    })
}

/// What a step answers, as what the replay of all steps answers.
fn behind(alloc: Global, place: usize, fault: OrWide<Refusal>) -> OrWide<Refusal>
    ensures { IsBehind place fault result }
{
    match fault {
        OrWide::Fault(Refusal { path, cause }) => match longer(alloc, place, path) {
            Ok(path) => OrWide::Fault(Refusal { path, cause }),
            Err(want) => {
                // By a call: dropped here, each form of the cause and of its type would be a case of this function.
                drop(cause);
                OrWide::from(want)
            }
        },
        OrWide::NoMemory => OrWide::NoMemory,
        OrWide::TooFar(wide) => OrWide::TooFar(wide),
    }
}

/// A path with one more number in front.
fn longer(alloc: Global, place: usize, path: Vec<u32>) -> Result<Vec<u32>, Want>
    ensures path { IfOk result (λ longer. longer.items ≡ place ∷ path.items) }
    ensures want { IfErr result IsWant }
{
    let place = count(alloc, place)?;
    let mut path = path;
    match path.insert(0, place) {
        Ok(_) => Ok(path),
        Err(_) => Err(Want::NoMemory),
    }
}
