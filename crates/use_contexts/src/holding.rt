//! Holdings: which entries of a context may still be used.
ghost use Rattle.std.specs.Prelude.{◌≡◌, ◌<◌, ◌↔◌, ◌&&◌, if◌then◌else◌, false, IfOk, OnOk, OnErr, length, slice_get, slice_set, Some, IfErr, IsErr};
ghost use Rattle.use_contexts.specs.Context.{modes};
ghost use Rattle.use_contexts.specs.Holding.{is_weak, is_linear, is_persistent};
ghost use Rattle.use_contexts.specs.Marks.{context, marks};
ghost use Rattle.use_contexts.specs.Rows.{taken};

use crate::context::Ctx;
use clf_syntax::Mode;
use sqlite_items::Items;
use std::alloc::{AllocError, Global};

/// For each entry of a context, whether it is held, the newest last. Persistent entries are always held.
#[derive(Drop)]
pub struct Holding {
    pub held: Items<bool>,
}

/// A context with a holding.
#[derive(Drop)]
pub struct State {
    pub ctx: Ctx,
    pub holding: Holding,
}

/// The variable of this number is not held.
#[derive(Clone, Copy, Debug, PartialEq, Eq)]
pub struct NotHeld(pub u32);

impl Holding {
    /// Whether a variable is held.
    pub fn holds(&self, var: usize) -> bool
        requires { var < length (marks self.now) }
        ensures { slice_get (marks self.now) var ≡ Some result }
    {
        let held = self.held.as_slice();
        held[held.len() - 1 - var]
    }

    /// Holds a variable no longer.
    pub fn let_go(&mut self, var: usize)
        requires { var < length (marks self.old) }
        ensures { marks self.new ≡ slice_set (marks self.old) var false }
    {
        let at = self.held.len() - 1 - var;
        self.held.set(at, false);
    }

    /// An equal holding. It fails only where memory runs out.
    pub fn copy(&self, alloc: Global) -> Result<Holding, AllocError>
        ensures { IfOk result (λ holding. holding ≡ self.now) }
    {
        Ok(Holding {
            held: Items::from_slice(alloc, self.held.as_slice())?,
        })
    }
}

impl State {
    /// An equal state. It fails only where memory runs out.
    pub fn copy(&self, alloc: Global) -> Result<State, AllocError>
        ensures { IfOk result (λ state. state ≡ self.now) }
    {
        Ok(State {
            ctx: self.ctx.copy(alloc)?,
            holding: self.holding.copy(alloc)?,
        })
    }
}

/// Whether no linear entry is held.
pub fn weak(ctx: &Ctx, holding: &Holding) -> bool
    requires { length (marks holding.now) ≡ length (context ctx.now) }
    ensures { result ≡ is_weak (modes (context ctx.now)) (marks holding.now) }
{
    for var in 0..ctx.len() {
        if is_held_linear(ctx.mode(var), holding.holds(var)) {
            return false;
        }
    }
    true
}

/// Whether an entry of this mode is linear and held.
fn is_held_linear(mode: Mode, held: bool) -> bool
    ensures { result ≡ is_linear mode && held }
{
    matches!(mode, Mode::Linear) && held
}

/// Uses a variable: a persistent one stays held, another is held no longer.
pub fn take(ctx: &Ctx, holding: &mut Holding, var: u32) -> Result<(), NotHeld>
    requires marked { length (marks holding.old) ≡ length (context ctx.now) }
    requires there { var < length (context ctx.now) }
    ensures used { OnOk result (marks holding.new ≡ taken (modes (context ctx.now)) var (marks holding.old)) }
    ensures not_held { IsErr result ↔ (slice_get (marks holding.old) var ≡ Some false) }
    ensures names_var { IfErr result (λ e. e.0 ≡ var) }
    ensures unchanged { OnErr result (holding.new ≡ holding.old) }
{
    if !holding.holds(var as usize) {
        return Err(NotHeld(var));
    }
    use_up(ctx.mode(var as usize), holding, var as usize);
    Ok(())
}

/// Holds a variable of this mode no longer, unless it is persistent.
fn use_up(mode: Mode, holding: &mut Holding, var: usize)
    requires { var < length (marks holding.old) }
    ensures { marks holding.new
        ≡ (if is_persistent mode then marks holding.old else slice_set (marks holding.old) var false) }
{
    match mode {
        Mode::Persistent => {}
        Mode::Affine | Mode::Linear => holding.let_go(var),
    }
}
