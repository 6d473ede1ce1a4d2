//! Copies of objects.
ghost use Rattle.std.specs.Prelude.{◌≡◌, IfOk};

use crate::tree::{Elim, Expr, Neutral, Obj, Step, TupleEntry};
use sqlite_items::{Boxed, Items};
use std::alloc::{AllocError, Global};

impl Obj {
    #[cycle(copy)]
    /// An equal object. It fails only where memory runs out.
    pub fn copy(&self, alloc: Global) -> Result<Obj, AllocError>
        ensures { IfOk result (λ o. o ≡ self.now) }
    {
        match self {
            Obj::Lam { mode, body } => Ok(Obj::Lam {
                mode: *mode,
                body: Boxed::new(alloc, body.get().copy(alloc)?)?,
            }),
            Obj::Pair { left, right } => {
                let left = Boxed::new(alloc, left.get().copy(alloc)?)?;
                Ok(Obj::Pair {
                    left,
                    right: Boxed::new(alloc, right.get().copy(alloc)?)?,
                })
            }
            Obj::Unit => Ok(Obj::Unit),
            Obj::Mon { expr } => Ok(Obj::Mon {
                expr: Boxed::new(alloc, expr.get().copy(alloc)?)?,
            }),
            Obj::At { neutral } => Ok(Obj::At {
                neutral: neutral.copy(alloc)?,
            }),
            Obj::Hole => Ok(Obj::Hole),
        }
    }
}

impl Neutral {
    #[cycle(copy)]
    /// An equal neutral. It fails only where memory runs out.
    pub fn copy(&self, alloc: Global) -> Result<Neutral, AllocError>
        ensures { IfOk result (λ n. n ≡ self.now) }
    {
        let spine = copy_spine(alloc, self.spine.as_slice())?;
        Ok(Neutral {
            head: self.head,
            spine,
        })
    }
}

#[cycle(copy)]
fn copy_spine(alloc: Global, spine: &[Elim]) -> Result<Items<Elim>, AllocError>
    ensures { IfOk result (λ s. s ≡ spine.now) }
{
    let mut copied = Items::new(alloc);
    for act in spine {
        copied.push(act.copy(alloc)?)?;
    }
    Ok(copied)
}

impl Elim {
    #[cycle(copy)]
    /// An equal elimination. It fails only where memory runs out.
    pub fn copy(&self, alloc: Global) -> Result<Elim, AllocError>
        ensures { IfOk result (λ e. e ≡ self.now) }
    {
        match self {
            Elim::Arg { mode, obj } => Ok(Elim::Arg {
                mode: *mode,
                obj: obj.copy(alloc)?,
            }),
            Elim::First => Ok(Elim::First),
            Elim::Second => Ok(Elim::Second),
        }
    }
}

impl Expr {
    #[cycle(copy)]
    /// An equal expression. It fails only where memory runs out.
    pub fn copy(&self, alloc: Global) -> Result<Expr, AllocError>
        ensures { IfOk result (λ e. e ≡ self.now) }
    {
        let steps = copy_steps(alloc, self.steps.as_slice())?;
        Ok(Expr {
            steps,
            result: copy_tuple(alloc, self.result.as_slice())?,
        })
    }
}

#[cycle(copy)]
fn copy_steps(alloc: Global, steps: &[Step]) -> Result<Items<Step>, AllocError>
    ensures { IfOk result (λ s. s ≡ steps.now) }
{
    let mut copied = Items::new(alloc);
    for step in steps {
        copied.push(step.copy(alloc)?)?;
    }
    Ok(copied)
}

#[cycle(copy)]
fn copy_tuple(alloc: Global, tuple: &[TupleEntry]) -> Result<Items<TupleEntry>, AllocError>
    ensures { IfOk result (λ s. s ≡ tuple.now) }
{
    let mut copied = Items::new(alloc);
    for entry in tuple {
        copied.push(entry.copy(alloc)?)?;
    }
    Ok(copied)
}

impl Step {
    #[cycle(copy)]
    /// An equal step. It fails only where memory runs out.
    pub fn copy(&self, alloc: Global) -> Result<Step, AllocError>
        ensures { IfOk result (λ s. s ≡ self.now) }
    {
        let modes = self.modes.copy(alloc)?;
        Ok(Step {
            modes,
            rhs: self.rhs.copy(alloc)?,
        })
    }
}

impl TupleEntry {
    #[cycle(copy)]
    /// An equal entry. It fails only where memory runs out.
    pub fn copy(&self, alloc: Global) -> Result<TupleEntry, AllocError>
        ensures { IfOk result (λ t. t ≡ self.now) }
    {
        Ok(TupleEntry {
            mode: self.mode,
            obj: self.obj.copy(alloc)?,
        })
    }
}
