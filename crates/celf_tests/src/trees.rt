//! Types and entries that several tests build.
ghost use Rattle.std.specs.Prelude.{◌≡◌, [], IfOk};
ghost use Rattle.clf_syntax.specs.TypeTree.{family as family_type, function as function_type};
ghost use Rattle.clf_syntax.specs.PlainTypes.{plain_ty};
ghost use Rattle.clf_sig.specs.Entry.{family_of, constant_of};
ghost use Rattle.clf_sig.specs.Signature.{plain_class};

use clf_sig::{Class, Entry};
use clf_syntax::{Kind, Mode, Ty};
use sqlite_items::{Boxed, Items};
use std::alloc::{AllocError, Global};

/// A family without indices.
#[tactic(auto, using(clf_syntax::specs::PlainTypes::plain_type_laws))]
pub fn atom(alloc: Global, family: u32) -> Ty
    ensures { plain_ty result ≡ family_type family [] }
{
    Ty::Fam {
        family,
        indices: Items::new(alloc),
    }
}

#[tactic(auto, using(clf_syntax::specs::PlainTypes::plain_type_laws))]
pub fn function(alloc: Global, mode: Mode, dom: Ty, cod: Ty) -> Result<Ty, AllocError>
    ensures { IfOk result (λ ty. plain_ty ty ≡ function_type mode (plain_ty dom) (plain_ty cod)) }
{
    match Boxed::new(alloc, dom) {
        Ok(dom) => Ok(Ty::Fun {
            mode,
            dom,
            cod: Boxed::new(alloc, cod)?,
        }),
        Err(error) => {
            // By a call: dropped here, each form of the tree would be a case of this function.
            drop(cod);
            Err(error)
        }
    }
}

/// A family without arguments.
pub fn family(alloc: Global) -> Entry
    ensures implicit { result.implicit ≡ 0 }
    ensures class { plain_class result.class ≡ family_of [] }
{
    Entry {
        implicit: 0,
        class: Class::Family(Kind {
            args: Items::new(alloc),
        }),
    }
}

/// A constant none of whose arguments is implicit.
pub fn constant(ty: Ty) -> Entry
    ensures implicit { result.implicit ≡ 0 }
    ensures class { plain_class result.class ≡ constant_of (plain_ty ty) }
{
    Entry {
        implicit: 0,
        class: Class::Constant(ty),
    }
}
