//! The calls of contexts that the program does not make. Those that it makes are tried by checks, as files in tests/.
ghost use Rattle.std.specs.Prelude.{◌≡◌, ◌↔◌, IsTrue, length};
ghost use Rattle.use_contexts.specs.Marks.{context, marks};

use clf_syntax::{Mode, TeleEntry, Ty};
use sqlite_items::Items;
use std::alloc::Global;
use std::process::Abort;
use std::test::Fail;
use use_contexts::{Ctx, Holding, Left, State, join_seq, weak};

/// The context of one linear entry.
fn linear(alloc: Global) -> Result<Ctx, Fail> {
    let mut ctx = Ctx::empty(alloc);
    ctx.entries.push(TeleEntry {
        mode: Mode::Linear,
        ty: Ty::Top,
    })?;
    Ok(ctx)
}

fn left(alloc: Global, held: bool, slack: bool) -> Result<Left, Fail> {
    let held = Items::from_slice(alloc, &[held])?;
    let row = Holding { held };
    Ok(Left { row, slack })
}

fn fits(state: &State) -> bool
    ensures { IsTrue result ↔ (length (marks state.now.holding) ≡ length (context state.now.ctx)) }
{
    state.holding.held.len() == state.ctx.len()
}

/// Asserts that the state has something that must be used.
fn assert_not_weak(rt: &impl Abort, state: &State) {
    assert!(rt; fits(state));
    assert!(rt; !weak(&state.ctx, &state.holding));
}

#[test]
fn a_copied_state_has_something_to_use(rt: HostRuntime) -> Result<(), Fail> {
    let alloc = rt.alloc();
    let holding = left(alloc, true, false)?.copy(alloc)?.row;
    let ctx = linear(alloc)?;
    let state = State { ctx, holding };
    let copy = state.copy(alloc);
    drop(state);
    let copy = copy?;
    assert_not_weak(&rt, &copy);
    drop(copy);
    Ok(())
}

#[test]
fn parts_in_turn_leave_the_second_row(rt: HostRuntime) -> Result<(), Fail> {
    let alloc = rt.alloc();
    let second = left(alloc, false, false)?;
    let first = left(alloc, true, true)?;
    let joined = join_seq(&first, second);
    assert!(rt; joined.row.held.as_slice() == [false].as_slice());
    assert!(rt; joined.slack);
    Ok(())
}
