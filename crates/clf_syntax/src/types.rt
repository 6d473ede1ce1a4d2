//! Copies of types.
ghost use Rattle.std.specs.Prelude.{◌≡◌, IfOk};

use crate::tree::{Kind, Obj, Tele, TeleEntry, Ty};
use sqlite_items::{Boxed, Items};
use std::alloc::{AllocError, Global};

fn copy_indices(alloc: Global, indices: &[Obj]) -> Result<Items<Obj>, AllocError>
    ensures { IfOk result (λ s. s ≡ indices.now) }
{
    let mut copied = Items::new(alloc);
    for index in indices {
        copied.push(index.copy(alloc)?)?;
    }
    Ok(copied)
}

impl Ty {
    /// An equal type. It fails only where memory runs out.
    #[cycle(copy_ty)]
    pub fn copy(&self, alloc: Global) -> Result<Ty, AllocError>
        ensures { IfOk result (λ t. t ≡ self.now) }
    {
        match self {
            Ty::Fam { family, indices } => Ok(Ty::Fam {
                family: *family,
                indices: copy_indices(alloc, indices.as_slice())?,
            }),
            Ty::Fun { mode, dom, cod } => {
                let dom = Boxed::new(alloc, dom.get().copy(alloc)?)?;
                Ok(Ty::Fun {
                    mode: *mode,
                    dom,
                    cod: Boxed::new(alloc, cod.get().copy(alloc)?)?,
                })
            }
            Ty::With { left, right } => {
                let left = Boxed::new(alloc, left.get().copy(alloc)?)?;
                Ok(Ty::With {
                    left,
                    right: Boxed::new(alloc, right.get().copy(alloc)?)?,
                })
            }
            Ty::Top => Ok(Ty::Top),
            Ty::Monad { tele } => Ok(Ty::Monad {
                tele: tele.copy(alloc)?,
            }),
        }
    }
}

impl Tele {
    /// An equal telescope. It fails only where memory runs out.
    #[cycle(copy_ty)]
    pub fn copy(&self, alloc: Global) -> Result<Tele, AllocError>
        ensures { IfOk result (λ t. t ≡ self.now) }
    {
        Ok(Tele {
            entries: copy_entries(alloc, self.entries.as_slice())?,
        })
    }
}

#[cycle(copy_ty)]
fn copy_entries(alloc: Global, entries: &[TeleEntry]) -> Result<Items<TeleEntry>, AllocError>
    ensures { IfOk result (λ s. s ≡ entries.now) }
{
    let mut copied = Items::new(alloc);
    for entry in entries {
        copied.push(entry.copy(alloc)?)?;
    }
    Ok(copied)
}

impl TeleEntry {
    /// An equal entry. It fails only where memory runs out.
    #[cycle(copy_ty)]
    pub fn copy(&self, alloc: Global) -> Result<TeleEntry, AllocError>
        ensures { IfOk result (λ t. t ≡ self.now) }
    {
        Ok(TeleEntry {
            mode: self.mode,
            ty: self.ty.copy(alloc)?,
        })
    }
}

impl Kind {
    /// An equal kind. It fails only where memory runs out.
    pub fn copy(&self, alloc: Global) -> Result<Kind, AllocError>
        ensures { IfOk result (λ k. k ≡ self.now) }
    {
        let mut args = Items::new(alloc);
        for arg in self.args.as_slice() {
            args.push(arg.copy(alloc)?)?;
        }
        Ok(Kind { args })
    }
}
