//! The first misfit of an item's core.
ghost use Rattle.std.specs.Prelude.{◌≡◌, IfOk};
ghost use Rattle.clf_syntax.specs.Plain.{plain_obj};
ghost use Rattle.clf_syntax.specs.PlainTypes.{plain_ty};
ghost use Rattle.clf_sig.specs.Core.{plain_core};
ghost use Rattle.clf_sig.specs.Signature.{plain_signature, plain_class};
ghost use Rattle.store_laws.specs.Additions.{meta_types};
ghost use Rattle.metavars.specs.Stored.{constants, additions};
ghost use Rattle.celf_conform.specs.Known.{known_over};
ghost use Rattle.celf_conform.specs.Seen.{known_of};
ghost use Rattle.celf_conform.specs.Conforms.{IsOver, JudgesCore};
ghost use Rattle.celf_conform.specs.Decision as spec;

use crate::formation::{kind_misfit, object_misfit, telescope_misfit, type_misfit};
use crate::known::Known;
use crate::misfit::Misfit;
use crate::scope::Binders;
use clf_sig::{Class, Core, Signature};
use clf_syntax::{Obj, Ty};
use metavars::Store;
use std::alloc::{AllocError, Global};

/// The first place at which an item's core does not conform to simple types, as what is wrong there; none exactly
/// where it conforms. The simple types of constants and of metavariables are those of the store. A directive's type
/// comes before its objects. It fails only where memory runs out.
#[tactic(auto, using(crate::proofs::Whole::judged))]
pub fn first_misfit(
    alloc: Global,
    sig: &Signature,
    store: &Store,
    core: &Core,
) -> Result<Option<Misfit>, AllocError>
    requires over { IsOver (plain_signature sig.now) (constants store.now) }
    ensures { IfOk result (JudgesCore
        (known_over (plain_signature sig.now) (constants store.now) (meta_types (additions store.now)))
        (plain_core core.now)) }
{
    let known = Known {
        alloc,
        sig,
        consts: store.consts(),
        metas: store.metas(),
    };
    core_misfit(&known, core)
}

#[tactic(auto, using(clf_syntax::specs::PlainTypes::plain_type_laws))]
fn core_misfit(known: &Known, core: &Core) -> Result<Option<Misfit>, AllocError>
    ensures { IfOk result (λ w. w ≡ spec.core_misfit (known_of known.now) (plain_core core.now)) }
{
    match core {
        Core::Declare { entry, .. } => class_misfit(known, &entry.class),
        Core::Query { ty } => type_misfit(known, &Binders::none(known.alloc), ty),
        Core::Trace { tele } => telescope_misfit(
            known,
            &Binders::none(known.alloc),
            tele.entries.as_slice(),
        ),
        Core::Equal { left, right, ty } => match check_misfit(known, left, ty)? {
            None => object_misfit(known, &Binders::none(known.alloc), right, ty),
            Some(misfit) => Ok(Some(misfit)),
        },
        Core::Check { obj, ty } => check_misfit(known, obj, ty),
    }
}

fn class_misfit(known: &Known, class: &Class) -> Result<Option<Misfit>, AllocError>
    ensures { IfOk result (λ w. w ≡ spec.class_misfit (known_of known.now) (plain_class class.now)) }
{
    match class {
        Class::Family(kind) => kind_misfit(known, kind.args.as_slice()),
        Class::Constant(ty) => type_misfit(known, &Binders::none(known.alloc), ty),
    }
}

/// The type first, and then the object at it.
fn check_misfit(known: &Known, obj: &Obj, ty: &Ty) -> Result<Option<Misfit>, AllocError>
    ensures { IfOk result (λ w. w ≡ spec.check_misfit (known_of known.now) (plain_obj obj.now) (plain_ty ty.now)) }
{
    match type_misfit(known, &Binders::none(known.alloc), ty)? {
        None => object_misfit(known, &Binders::none(known.alloc), obj, ty),
        Some(misfit) => Ok(Some(misfit)),
    }
}
