//! What the core of an item comes to.
ghost use Rattle.std.specs.Prelude.{◌≡◌, ◌∷◌, ◌++◌, [], length, IfOk, IfErr, OnOk, OnErr};
ghost use Rattle.clf_syntax.specs.Plain.{plain_obj};
ghost use Rattle.clf_syntax.specs.PlainTypes.{plain_ty};
ghost use Rattle.clf_syntax.specs.Wide.{IsWant};
ghost use Rattle.clf_sig.specs.Signature.{plain_signature, plain_entry};
ghost use Rattle.clf_sig.specs.Core.{plain_core, declares, equates, checks};
ghost use Rattle.clf_rules.specs.WellFormed.{WellFormedType, WellFormedEntry, WellFormedSignature};
ghost use Rattle.clf_kernel.specs.Answers.{plain_cause};
ghost use Rattle.celf_replies.specs.Reply.{plain_reply, entry as entry_reply};
ghost use Rattle.celf_run.specs.Allowed.{holding};
ghost use Rattle.celf_run.specs.Answering.{AnswersCore, MayBeAdded, FormsClosed, JudgesClosed, IsReplyToFault, Compares, refused_by_rules};

use crate::options::Options;
use celf_replies::{Reply, Why};
use clf_kernel::{Refusal, check_entry, check_object, check_type};
use clf_sig::{AddFault, Core, Entry, Signature};
use clf_syntax::{Name, Obj, OrWide, Ty, Want};
use sqlite_items::Items;
use std::alloc::Global;
use trace_equal::equal;
use use_contexts::{Ctx, Holding};

/// Answers the core of an item that begins at this byte.
pub fn answer_core(
    alloc: Global,
    sig: &mut Signature,
    options: &Options,
    at: u32,
    core: Core,
) -> Result<Reply, Want>
    requires formed { WellFormedSignature (plain_signature sig.old) }
    requires added { MayBeAdded (plain_signature sig.old) (plain_core core) }
    ensures answered { IfOk result (λ reply.
        AnswersCore options.now (holding (plain_signature sig.old)) at (plain_core core) (plain_reply reply)
        (holding (plain_signature sig.new))) }
    ensures formed { WellFormedSignature (plain_signature sig.new) }
    ensures unchanged { OnErr result (sig.new ≡ sig.old) }
    ensures wide { IfErr result IsWant }
{
    match core {
        Core::Declare { name, entry } => {
            let reply = declare(alloc, sig, options, at, &name, entry);
            drop(name);
            reply
        }
        Core::Check { obj, ty } => check(alloc, sig, options, at, obj, ty),
        Core::Equal { left, right, ty } => {
            let reply = equate(alloc, sig, options, at, &left, &right, &ty);
            // By calls: dropped at the end, each form of the trees would be a case of this function.
            drop(left);
            drop(right);
            drop(ty);
            reply
        }
        Core::Query { ty } => {
            drop(ty);
            Ok(Reply::Refused {
                at,
                why: Why::NotYet,
            })
        }
        Core::Trace { tele } => {
            drop(tele);
            Ok(Reply::Refused {
                at,
                why: Why::NotYet,
            })
        }
    }
}

/// Answers a declaration: a well-formed entry is the next one.
fn declare(
    alloc: Global,
    sig: &mut Signature,
    options: &Options,
    at: u32,
    name: &Name,
    entry: Entry,
) -> Result<Reply, Want>
    requires formed { WellFormedSignature (plain_signature sig.old) }
    requires added { MayBeAdded (plain_signature sig.old) (declares name.now (plain_entry entry)) }
    ensures answered { IfOk result (λ reply.
        AnswersCore options.now (holding (plain_signature sig.old)) at (declares name.now (plain_entry entry))
        (plain_reply reply) (holding (plain_signature sig.new))) }
    ensures formed { WellFormedSignature (plain_signature sig.new) }
    ensures unchanged { OnErr result (sig.new ≡ sig.old) }
    ensures wide { IfErr result IsWant }
{
    match check_entry(alloc, sig, &entry) {
        Ok(()) => accept(sig, name, entry),
        Err(fault) => {
            drop(entry);
            refusal_of(at, 0, fault)
        }
    }
}

/// Accepts a well-formed entry as the next one.
fn accept(sig: &mut Signature, name: &Name, entry: Entry) -> Result<Reply, Want>
    requires formed { WellFormedSignature (plain_signature sig.old) }
    requires added { MayBeAdded (plain_signature sig.old) (declares name.now (plain_entry entry)) }
    requires entry { WellFormedEntry (plain_signature sig.old) (plain_entry entry) }
    ensures place { IfOk result (λ reply. plain_reply reply ≡ entry_reply (length (plain_signature sig.old))) }
    ensures added { OnOk result
        (plain_signature sig.new ≡ plain_signature sig.old ++ (name.now, plain_entry entry) ∷ []) }
    ensures formed { WellFormedSignature (plain_signature sig.new) }
    ensures unchanged { OnErr result (sig.new ≡ sig.old) }
    ensures wide { IfErr result IsWant }
{
    match sig.add(name.as_str(), entry) {
        Ok(place) => Ok(Reply::Entry(place)),
        Err(AddFault::NoMemory) => Err(Want::NoMemory),
        Err(AddFault::Duplicate) => unreachable!(),
        Err(AddFault::Full) => unreachable!(),
    }
}

/// Answers the check of an object at a type.
fn check(
    alloc: Global,
    sig: &Signature,
    options: &Options,
    at: u32,
    obj: Obj,
    ty: Ty,
) -> Result<Reply, Want>
    requires formed { WellFormedSignature (plain_signature sig.now) }
    ensures answered { IfOk result (λ reply.
        AnswersCore options.now (holding (plain_signature sig.now)) at (checks (plain_obj obj) (plain_ty ty))
        (plain_reply reply) (holding (plain_signature sig.now))) }
    ensures wide { IfErr result IsWant }
{
    match form_closed(alloc, sig, &ty) {
        Ok(()) => judge(alloc, sig, options, at, obj, ty),
        Err(fault) => {
            // By calls, as in the other functions: dropped at the end, each form of the trees would be a case of this
            // function.
            drop(obj);
            drop(ty);
            refusal_of(at, 0, fault)
        }
    }
}

/// Judges an object at a well-formed type.
fn judge(
    alloc: Global,
    sig: &Signature,
    options: &Options,
    at: u32,
    obj: Obj,
    ty: Ty,
) -> Result<Reply, Want>
    requires formed { WellFormedSignature (plain_signature sig.now) }
    requires type_formed { WellFormedType (plain_signature sig.now) [] (plain_ty ty) }
    ensures answered { IfOk result (λ reply.
        AnswersCore options.now (holding (plain_signature sig.now)) at (checks (plain_obj obj) (plain_ty ty))
        (plain_reply reply) (holding (plain_signature sig.now))) }
    ensures wide { IfErr result IsWant }
{
    match check_closed(alloc, sig, &obj, &ty) {
        Ok(()) => Ok(Reply::Checked { obj, ty }),
        Err(fault) => {
            drop(obj);
            drop(ty);
            refusal_of(at, 1, fault)
        }
    }
}

/// Answers whether two objects of a type are the same.
fn equate(
    alloc: Global,
    sig: &Signature,
    options: &Options,
    at: u32,
    left: &Obj,
    right: &Obj,
    ty: &Ty,
) -> Result<Reply, Want>
    requires formed { WellFormedSignature (plain_signature sig.now) }
    ensures answered { IfOk result (λ reply.
        AnswersCore options.now (holding (plain_signature sig.now)) at
        (equates (plain_obj left.now) (plain_obj right.now) (plain_ty ty.now)) (plain_reply reply)
        (holding (plain_signature sig.now))) }
    ensures wide { IfErr result IsWant }
{
    if let Err(fault) = form_closed(alloc, sig, ty) {
        return refusal_of(at, 0, fault);
    }
    if let Err(fault) = check_closed(alloc, sig, left, ty) {
        return refusal_of(at, 1, fault);
    }
    match check_closed(alloc, sig, right, ty) {
        Ok(()) => compare(alloc, left, right),
        Err(fault) => refusal_of(at, 2, fault),
    }
}

/// The reply to a question whether two typed objects are the same.
fn compare(alloc: Global, left: &Obj, right: &Obj) -> Result<Reply, Want>
    ensures compared { IfOk result (λ reply. Compares (plain_obj left.now) (plain_obj right.now) (plain_reply reply)) }
    ensures wide { IfErr result IsWant }
{
    match equal(alloc, left, right) {
        Ok(true) => Ok(Reply::Equal),
        Ok(false) => Ok(Reply::Different),
        Err(_) => Err(Want::NoMemory),
    }
}

/// Whether a type without variables is well formed, by the kernel.
fn form_closed(alloc: Global, sig: &Signature, ty: &Ty) -> Result<(), OrWide<Refusal>>
    requires { WellFormedSignature (plain_signature sig.now) }
    ensures { FormsClosed (plain_signature sig.now) (plain_ty ty.now) result }
{
    let ctx = Ctx::empty(alloc);
    let judged = check_type(alloc, sig, &ctx, ty);
    drop(ctx);
    judged
}

/// Whether an object without variables has a well-formed type, by the kernel.
fn check_closed(alloc: Global, sig: &Signature, obj: &Obj, ty: &Ty) -> Result<(), OrWide<Refusal>>
    requires formed { WellFormedSignature (plain_signature sig.now) }
    requires type_formed { WellFormedType (plain_signature sig.now) [] (plain_ty ty.now) }
    ensures { JudgesClosed (plain_signature sig.now) (plain_obj obj.now) (plain_ty ty.now) result }
{
    let ctx = Ctx::empty(alloc);
    let holding = Holding {
        held: Items::new(alloc),
    };
    let judged = check_object(alloc, sig, &ctx, &holding, obj, ty);
    drop(ctx);
    drop(holding);
    let left = judged?;
    drop(left);
    Ok(())
}

/// What comes of a core whose part with this number the kernel does not accept.
fn refusal_of(at: u32, part: u32, fault: OrWide<Refusal>) -> Result<Reply, Want>
    ensures { IsReplyToFault at part fault result }
{
    match fault {
        OrWide::Fault(refusal) => refused_part(at, part, refusal),
        OrWide::NoMemory => Err(Want::NoMemory),
        OrWide::TooFar(wide) => Err(Want::TooFar(wide)),
    }
}

/// The refusal of an item whose part with this number the rules refuse.
fn refused_part(at: u32, part: u32, refusal: Refusal) -> Result<Reply, Want>
    ensures refusal { IfOk result
        (λ reply. plain_reply reply ≡ refused_by_rules at (part ∷ refusal.path.items) (plain_cause refusal.cause)) }
    ensures wide { IfErr result IsWant }
{
    let Refusal { path, cause } = refusal;
    let mut path = path;
    match path.insert(0, part) {
        Ok(()) => Ok(Reply::Refused {
            at,
            why: Why::Kernel(Refusal { path, cause }),
        }),
        Err(_) => {
            drop(cause);
            Err(Want::NoMemory)
        }
    }
}
