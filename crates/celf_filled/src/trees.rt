//! Types made of their parts.
ghost use Rattle.std.specs.Prelude.{◌≡◌, IfOk, map};
ghost use Rattle.clf_syntax.specs.PlainTypes.{plain_ty, plain_tele_entry};
ghost use Rattle.clf_syntax.specs.TypeTree as core_type;

use clf_syntax::{Mode, Tele, TeleEntry, Ty};
use sqlite_items::{Boxed, Items};
use std::alloc::{AllocError, Global};

#[tactic(auto, using(clf_syntax::specs::PlainTypes::plain_type_laws))]
pub fn function(alloc: Global, mode: Mode, dom: Ty, cod: Ty) -> Result<Ty, AllocError>
    ensures { IfOk result (λ a. plain_ty a ≡ core_type.function mode (plain_ty dom) (plain_ty cod)) }
{
    Ok(Ty::Fun {
        mode,
        dom: Boxed::new(alloc, dom)?,
        cod: Boxed::new(alloc, cod)?,
    })
}

#[tactic(auto, using(clf_syntax::specs::PlainTypes::plain_type_laws))]
pub fn both(alloc: Global, left: Ty, right: Ty) -> Result<Ty, AllocError>
    ensures { IfOk result (λ a. plain_ty a ≡ core_type.both (plain_ty left) (plain_ty right)) }
{
    Ok(Ty::With {
        left: Boxed::new(alloc, left)?,
        right: Boxed::new(alloc, right)?,
    })
}

#[tactic(auto, using(clf_syntax::specs::PlainTypes::plain_type_laws, crate::proofs::Forms::telescope_made))]
pub fn monad(entries: Items<TeleEntry>) -> Ty
    ensures { plain_ty result ≡ core_type.monad (core_type.telescope_of (map plain_tele_entry entries)) }
{
    Ty::Monad {
        tele: Tele { entries },
    }
}
