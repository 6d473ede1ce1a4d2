//! Runs: `after` and `replay`, which the program does not call yet. Their states have one place, `{<T>}`.
ghost use Rattle.std.specs.Prelude.{◌≡◌, [], ◌∷◌, true, IfOk};
ghost use Rattle.clf_syntax.specs.declared.tree.Mode.TheVariants.{Linear, Persistent};
ghost use Rattle.clf_syntax.specs.PlainTypes.{plain_tele, plain_ty};
ghost use Rattle.clf_syntax.specs.TypeTree.{binding, end, monad, top};
ghost use Rattle.use_contexts.specs.Marks.{context, marks};

use clf_kernel::{Cause, Refusal};
use clf_sig::Signature;
use clf_syntax::{Head, Mode, Modes, Neutral, OrWide, Step, Tele, TeleEntry, Ty};
use sqlite_items::Items;
use std::alloc::{AllocError, Global};
use std::process::Abort;
use std::test::Fail;
use trace_runs::{after, replay};
use use_contexts::{Ctx, Holding, State};

/// One linear entry of the type `<T>`.
#[tactic(auto, using(clf_syntax::specs::PlainTypes::plain_type_laws))]
fn token(alloc: Global) -> Result<Tele, AllocError>
    ensures { IfOk result (λ tele. plain_tele tele ≡ binding Linear top end) }
{
    let mut entries = Items::new(alloc);
    let (mode, ty) = (Mode::Linear, Ty::Top);
    entries.push(TeleEntry { mode, ty })?;
    Ok(Tele { entries })
}

/// The place `{<T>}`.
#[tactic(auto, using(clf_syntax::specs::PlainTypes::plain_type_laws))]
fn place(alloc: Global) -> Result<Ty, AllocError>
    ensures { IfOk result (λ ty. plain_ty ty ≡ monad (binding Linear top end)) }
{
    let tele = token(alloc)?;
    Ok(Ty::Monad { tele })
}

/// A persistent and a linear entry of that place.
#[tactic(auto, using(clf_syntax::specs::PlainTypes::plain_type_laws))]
fn start(alloc: Global) -> Result<State, AllocError>
    ensures context { IfOk result (λ s.
        context s.ctx
        ≡ (Linear, monad (binding Linear top end)) ∷ (Persistent, monad (binding Linear top end)) ∷ []) }
    ensures marks { IfOk result (λ s. marks s.holding ≡ true ∷ true ∷ []) }
{
    let mut ctx = Ctx::empty(alloc);
    let (mode, ty) = (Mode::Persistent, place(alloc)?);
    ctx.entries.push(TeleEntry { mode, ty })?;
    let (mode, ty) = (Mode::Linear, place(alloc)?);
    ctx.entries.push(TeleEntry { mode, ty })?;
    let mut held = Items::new(alloc);
    held.push(true)?;
    held.push(true)?;
    let holding = Holding { held };
    Ok(State { ctx, holding })
}

/// `let {y} = x in`, of the variable with this number.
fn step(alloc: Global, var: u32, mode: Mode) -> Result<Step, AllocError> {
    let mut modes = Modes::empty(alloc);
    modes.push(mode)?;
    let head = Head::Var(var);
    let spine = Items::new(alloc);
    let rhs = Neutral { head, spine };
    Ok(Step { modes, rhs })
}

/// The modes of a state, a letter each and the oldest first: a small one where the entry is not held.
fn shown(alloc: Global, state: &State) -> Result<String, Fail> {
    let mut text = String::new(alloc);
    for entry in state.ctx.entries.as_slice() {
        text.push_str(letter(entry.mode))?;
    }
    for held in state.holding.held.as_slice() {
        text.push_str(if *held { "+" } else { "-" })?;
    }
    Ok(text)
}

fn letter(mode: Mode) -> &'static str {
    match mode {
        Mode::Persistent => "P",
        Mode::Affine => "A",
        Mode::Linear => "L",
    }
}

/// What a replay answers: the state, or the path of the refusal and a letter for its cause.
fn answer(alloc: Global, found: Result<State, OrWide<Refusal>>) -> Result<String, Fail> {
    match found {
        Ok(state) => shown(alloc, &state),
        Err(OrWide::Fault(Refusal { path, cause })) => refusal(alloc, path.as_slice(), &cause),
        Err(OrWide::NoMemory | OrWide::TooFar(_)) => Err("no memory".into()),
    }
}

fn refusal(alloc: Global, path: &[u32], cause: &Cause) -> Result<String, Fail> {
    let mut text = String::new(alloc);
    for number in path {
        write!(text, "{number} ")?;
    }
    match cause {
        Cause::NotHeld { level } => write!(text, "not held: {level}")?,
        Cause::ModeDiffers { .. } => write!(text, "other mode")?,
        _ => write!(text, "other cause")?,
    }
    Ok(text)
}

/// What the replay of the steps from the start answers.
#[tactic(auto, using(crate::proofs::Starting::from_start))]
fn replayed(alloc: Global, steps: &[Step]) -> Result<String, Fail> {
    let sig = Signature::new(alloc);
    let state = start(alloc)?;
    answer(alloc, replay(alloc, &sig, &state, steps))
}

#[test]
fn steps_are_replayed(rt: HostRuntime) -> Result<(), Fail> {
    let alloc = rt.alloc();
    let mut steps = Items::new(alloc);
    assert_eq!(rt; replayed(alloc, steps.as_slice())?.as_str(), "PL++");
    // the linear entry, which is taken
    steps.push(step(alloc, 0, Mode::Linear)?)?;
    assert_eq!(rt; replayed(alloc, steps.as_slice())?.as_str(), "PLL+-+");
    // the persistent one, which stays
    steps.push(step(alloc, 2, Mode::Linear)?)?;
    assert_eq!(rt; replayed(alloc, steps.as_slice())?.as_str(), "PLLL+-++");
    // the linear one again
    steps.push(step(alloc, 2, Mode::Linear)?)?;
    assert_eq!(rt;
        replayed(alloc, steps.as_slice())?.as_str(),
        "2 not held: 2"
    );
    Ok(())
}

#[test]
fn what_is_behind_a_step(rt: HostRuntime) -> Result<(), Fail> {
    let alloc = rt.alloc();
    let state = start(alloc)?;
    let tele = token(alloc)?;
    match after(alloc, &state, &state.holding, &tele) {
        Ok(next) => assert_eq!(rt; shown(alloc, &next)?.as_str(), "PLL+++"),
        Err(_want) => panic!(rt; "no memory"),
    }
    Ok(())
}

#[test]
fn another_mode_is_no_step(rt: HostRuntime) -> Result<(), Fail> {
    let alloc = rt.alloc();
    let mut steps = Items::new(alloc);
    steps.push(step(alloc, 1, Mode::Affine)?)?;
    assert_eq!(rt; replayed(alloc, steps.as_slice())?.as_str(), "0 other mode");
    Ok(())
}
