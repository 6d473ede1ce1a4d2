//! Copies of simple types.
ghost use Rattle.std.specs.Prelude.{◌≡◌, IfOk};

use crate::tree::{Simple, SimpleEntry};
use sqlite_items::{Boxed, Items};
use std::alloc::{AllocError, Global};

impl Simple {
    #[cycle(copy_simple)]
    /// An equal simple type. It fails only where memory runs out.
    pub fn copy(&self, alloc: Global) -> Result<Simple, AllocError>
        ensures { IfOk result (λ s. s ≡ self.now) }
    {
        match self {
            Simple::Atom(family) => Ok(Simple::Atom(*family)),
            Simple::Fun { mode, dom, cod } => {
                let dom = Boxed::new(alloc, dom.get().copy(alloc)?)?;
                Ok(Simple::Fun {
                    mode: *mode,
                    dom,
                    cod: Boxed::new(alloc, cod.get().copy(alloc)?)?,
                })
            }
            Simple::With { left, right } => {
                let left = Boxed::new(alloc, left.get().copy(alloc)?)?;
                Ok(Simple::With {
                    left,
                    right: Boxed::new(alloc, right.get().copy(alloc)?)?,
                })
            }
            Simple::Top => Ok(Simple::Top),
            Simple::Monad { entries } => Ok(Simple::Monad {
                entries: copy_simple_entries(alloc, entries.as_slice())?,
            }),
        }
    }
}

#[cycle(copy_simple)]
fn copy_simple_entries(
    alloc: Global,
    entries: &[SimpleEntry],
) -> Result<Items<SimpleEntry>, AllocError>
    ensures { IfOk result (λ s. s ≡ entries.now) }
{
    let mut copied = Items::new(alloc);
    for entry in entries {
        copied.push(entry.copy(alloc)?)?;
    }
    Ok(copied)
}

impl SimpleEntry {
    #[cycle(copy_simple)]
    /// An equal entry. It fails only where memory runs out.
    pub fn copy(&self, alloc: Global) -> Result<SimpleEntry, AllocError>
        ensures { IfOk result (λ s. s ≡ self.now) }
    {
        Ok(SimpleEntry {
            mode: self.mode,
            ty: self.ty.copy(alloc)?,
        })
    }
}

/// Equal simple types. It fails only where memory runs out.
pub fn copy_simples(alloc: Global, simples: &[Simple]) -> Result<Items<Simple>, AllocError>
    ensures { IfOk result (λ s. s ≡ simples.now) }
{
    let mut copied = Items::new(alloc);
    for simple in simples {
        copied.push(simple.copy(alloc)?)?;
    }
    Ok(copied)
}
