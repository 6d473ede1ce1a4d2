//! The calls of the kernel for entries, types and kinds.
ghost use Rattle.clf_syntax.specs.PlainTypes.{plain_ty, plain_kind};
ghost use Rattle.clf_sig.specs.Signature.{plain_signature, plain_class, plain_entry};
ghost use Rattle.use_contexts.specs.Marks.{context};
ghost use Rattle.clf_decision.specs.Formation.{class_formed, kind_formed, type_formed};
ghost use Rattle.clf_decision.specs.Hereditary.{hereditary};
ghost use Rattle.clf_decision.specs.Starts.{FormationStarts, EntryStarts};
ghost use Rattle.clf_kernel.specs.Exact.{ChecksEntry, ChecksType, ChecksKind};
ghost use Rattle.clf_kernel.specs.Stops.{Gives};

use crate::judge::Judge;
use crate::refusal::{Refusal, Stop, fault};
use clf_sig::{Class, Entry, Signature};
use clf_syntax::{Kind, OrWide, Ty};
use std::alloc::Global;
use use_contexts::Ctx;

/// Whether an entry is well formed over a signature.
///
/// It refuses where it is not, with the path and the cause of a part of its class that the rules refuse. There is one
/// such path with one such cause (`clf_decision::decided`).
#[tactic(auto, using(crate::proofs::Stops::answer_laws, crate::proofs::Exactness::exact_laws))]
pub fn check_entry(alloc: Global, sig: &Signature, entry: &Entry) -> Result<(), OrWide<Refusal>>
    requires starts { EntryStarts (plain_signature sig.now) (plain_entry entry.now) }
    ensures exact { ChecksEntry (plain_signature sig.now) (plain_entry entry.now) result }
{
    match form_class(alloc, sig, &entry.class) {
        Ok(_) => Ok(()),
        Err(stop) => Err(fault(stop)),
    }
}

/// Whether a type is well formed in a context.
///
/// It refuses where it is not, with the path and the cause of a part of it that the rules refuse; there is one such
/// path with one such cause.
#[tactic(auto, using(crate::proofs::Stops::answer_laws, crate::proofs::Exactness::exact_laws))]
pub fn check_type(alloc: Global, sig: &Signature, ctx: &Ctx, ty: &Ty) -> Result<(), OrWide<Refusal>>
    requires starts { FormationStarts (plain_signature sig.now) (context ctx.now) }
    ensures exact { ChecksType (plain_signature sig.now) (context ctx.now) (plain_ty ty.now) result }
{
    match form_type_in_copy(alloc, sig, ctx, ty) {
        Ok(_) => Ok(()),
        Err(stop) => Err(fault(stop)),
    }
}

/// Whether a kind is well formed in a context.
///
/// It refuses where it is not, with the path and the cause of a part of it that the rules refuse; there is one such
/// path with one such cause.
#[tactic(auto, using(crate::proofs::Stops::answer_laws, crate::proofs::Exactness::exact_laws))]
pub fn check_kind(
    alloc: Global,
    sig: &Signature,
    ctx: &Ctx,
    kind: &Kind,
) -> Result<(), OrWide<Refusal>>
    requires starts { FormationStarts (plain_signature sig.now) (context ctx.now) }
    ensures exact { ChecksKind (plain_signature sig.now) (context ctx.now) (plain_kind kind.now) result }
{
    match form_kind_in_copy(alloc, sig, ctx, kind) {
        Ok(_) => Ok(()),
        Err(stop) => Err(fault(stop)),
    }
}

/// The check in a copy of the context, which grows and shrinks with the scopes of the type.
#[tactic(auto, using(crate::proofs::Stops::stop_laws))]
fn form_type_in_copy(alloc: Global, sig: &Signature, ctx: &Ctx, ty: &Ty) -> Result<(), Stop>
    ensures { Gives (λ x. x) (type_formed hereditary (plain_signature sig.now) (context ctx.now) (plain_ty ty.now))
        result }
{
    let mut judge = Judge::over(alloc, sig, ctx)?;
    judge.form_type(ty)
}

/// The check in a copy of the context, which grows and shrinks with the scopes of the kind.
#[tactic(auto, using(crate::proofs::Stops::stop_laws))]
fn form_kind_in_copy(alloc: Global, sig: &Signature, ctx: &Ctx, kind: &Kind) -> Result<(), Stop>
    ensures { Gives (λ x. x)
        (kind_formed hereditary (plain_signature sig.now) (context ctx.now) 0 (plain_kind kind.now)) result }
{
    let mut judge = Judge::over(alloc, sig, ctx)?;
    judge.form_arguments(kind.args.as_slice())
}

#[tactic(auto, using(crate::proofs::Stops::stop_laws))]
fn form_class(alloc: Global, sig: &Signature, class: &Class) -> Result<(), Stop>
    ensures { Gives (λ x. x) (class_formed hereditary (plain_signature sig.now) (plain_class class.now)) result }
{
    let mut judge = Judge {
        alloc,
        sig,
        ctx: Ctx::empty(alloc),
    };
    match class {
        Class::Family(kind) => judge.form_arguments(kind.args.as_slice()),
        Class::Constant(ty) => judge.form_type(ty),
    }
}
