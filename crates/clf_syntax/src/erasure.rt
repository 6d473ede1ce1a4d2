//! Simple types of types.
ghost use Rattle.std.specs.Prelude.{◌≡◌, IfOk, map};
ghost use Rattle.clf_syntax.specs.PlainTypes.{plain_ty, plain_tele_entry};
ghost use Rattle.clf_syntax.specs.Simple.{erase as erased};
ghost use Rattle.clf_syntax.specs.Erasure.{erase_entry as erased_entry};
ghost use Rattle.clf_syntax.specs.PlainSimple.{plain_simple, plain_simple_entry};

use crate::tree::{Simple, SimpleEntry, TeleEntry, Ty};
use sqlite_items::{Boxed, Items};
use std::alloc::{AllocError, Global};

/// The simple type of a type: all indices are dropped. It fails only where memory runs out.
#[cycle(erase)]
#[tactic(auto, using(crate::specs::PlainTypes::plain_type_laws, crate::specs::PlainSimple::plain_simple_laws, crate::specs::Erasure::erasure_laws))]
pub fn erase(alloc: Global, ty: &Ty) -> Result<Simple, AllocError>
    ensures { IfOk result (λ s. plain_simple s ≡ erased (plain_ty ty.now)) }
{
    match ty {
        Ty::Fam { family, indices: _ } => Ok(Simple::Atom(*family)),
        Ty::Fun { mode, dom, cod } => {
            let dom = Boxed::new(alloc, erase(alloc, dom.get())?)?;
            Ok(Simple::Fun {
                mode: *mode,
                dom,
                cod: Boxed::new(alloc, erase(alloc, cod.get())?)?,
            })
        }
        Ty::With { left, right } => {
            let left = Boxed::new(alloc, erase(alloc, left.get())?)?;
            Ok(Simple::With {
                left,
                right: Boxed::new(alloc, erase(alloc, right.get())?)?,
            })
        }
        Ty::Top => Ok(Simple::Top),
        Ty::Monad { tele } => Ok(Simple::Monad {
            entries: erase_entries(alloc, tele.entries.as_slice())?,
        }),
    }
}

#[cycle(erase)]
#[tactic(auto, using(crate::specs::PlainTypes::plain_type_laws, crate::specs::PlainSimple::plain_simple_laws, crate::specs::Erasure::erasure_laws))]
fn erase_entries(alloc: Global, entries: &[TeleEntry]) -> Result<Items<SimpleEntry>, AllocError>
    ensures { IfOk result (λ es. map plain_simple_entry es ≡ map erased_entry (map plain_tele_entry entries.now)) }
{
    let mut erased = Items::new(alloc);
    for entry in entries {
        erased.push(erase_entry(alloc, entry)?)?;
    }
    Ok(erased)
}

#[cycle(erase)]
#[tactic(auto, using(crate::specs::PlainTypes::plain_type_laws, crate::specs::PlainSimple::plain_simple_laws, crate::specs::Erasure::erasure_laws))]
fn erase_entry(alloc: Global, entry: &TeleEntry) -> Result<SimpleEntry, AllocError>
    ensures { IfOk result (λ e. plain_simple_entry e ≡ erased_entry (plain_tele_entry entry.now)) }
{
    Ok(SimpleEntry {
        mode: entry.mode,
        ty: erase(alloc, &entry.ty)?,
    })
}
