//! The text of replies.
ghost use Rattle.std.specs.Prelude.{◌≡◌, ◌++◌, codes, map, IfOk, IfErr, OnOk};
ghost use Rattle.std.specs.Fmt.{decimal};
ghost use Rattle.clf_syntax.specs.Plain.{plain_obj};
ghost use Rattle.clf_syntax.specs.PlainTypes.{plain_ty};
ghost use Rattle.clf_sig.specs.Signature.{plain_signature};
ghost use Rattle.clf_kernel.specs.Answers.{plain_cause};
ghost use Rattle.clf_printer.specs.Entry.{entry_text as entry_text_of};
ghost use Rattle.celf_replies.specs.Reply.{plain_why, plain_mismatch, plain_sides, plain_reply, entry as entry_reply, checked, kernel, ill_typed};
ghost use Rattle.celf_replies.specs.Found.{unresolved_text};
ghost use Rattle.celf_replies.specs.Text as spec;
ghost use Rattle.clf_syntax.specs.Wide.{IsWant};

use crate::cause::{push_cause, push_path};
use crate::found::{push_circle, push_mismatch, push_unresolved};
use crate::reply::{Mismatch, Reply, Sides, Why};
use clf_kernel::Refusal;
use clf_printer::{entry_text, object_text, push_number, type_text};
use clf_sig::Signature;
use clf_syntax::{Name, Obj, Ty, Want};
use std::alloc::{AllocError, Global};

/// The lines of a reply, over the signature that is held after it.
pub fn reply_text(alloc: Global, sig: &Signature, reply: &Reply) -> Result<Vec<u8>, Want>
    ensures text { IfOk result
        (λ text. text.items ≡ spec.reply_text (plain_signature sig.now) (plain_reply reply.now)) }
    ensures numbered { OnOk result (spec.IsNumbered (plain_signature sig.now) (plain_reply reply.now)) }
    ensures wide { IfErr result IsWant }
{
    match reply {
        Reply::Entry(place) => entry_line(alloc, sig, *place),
        Reply::Checked { obj, ty } => check_line(alloc, sig, obj, ty),
        Reply::Equal => Ok(Vec::from_slice(alloc, b"equal.\n")?),
        Reply::Different => Ok(Vec::from_slice(alloc, b"different.\n")?),
        Reply::Refused { at, why } => refusal_line(alloc, sig, *at, why),
    }
}

/// The line of the entry at a place.
fn entry_line(alloc: Global, sig: &Signature, place: u32) -> Result<Vec<u8>, Want>
    ensures line { IfOk result (λ line. line.items ≡ entry_text_of (plain_signature sig.now) place ++ codes "\n") }
    ensures numbered { OnOk result (spec.IsNumbered (plain_signature sig.now) (entry_reply place)) }
    ensures wide { IfErr result IsWant }
{
    let mut line = entry_text(alloc, sig, place)?;
    line.extend_from_slice(b"\n")?;
    Ok(line)
}

/// The line of an object and its type.
fn check_line(alloc: Global, sig: &Signature, obj: &Obj, ty: &Ty) -> Result<Vec<u8>, Want>
    ensures line { IfOk result (λ line.
        line.items
        ≡ spec.reply_text (plain_signature sig.now) (checked (plain_obj obj.now) (plain_ty ty.now))) }
    ensures numbered { OnOk result
        (spec.IsNumbered (plain_signature sig.now) (checked (plain_obj obj.now) (plain_ty ty.now))) }
    ensures wide { IfErr result IsWant }
{
    let object = object_text(alloc, sig, 0, &[], obj)?;
    let ty = type_text(alloc, sig, 0, &[], ty)?;
    let mut line = Vec::from_slice(alloc, b"check: ")?;
    line.extend_from_slice(object.as_slice())?;
    line.extend_from_slice(b" : ")?;
    line.extend_from_slice(ty.as_slice())?;
    line.extend_from_slice(b".\n")?;
    Ok(line)
}

/// The line of a refusal.
fn refusal_line(alloc: Global, sig: &Signature, at: u32, why: &Why) -> Result<Vec<u8>, Want>
    ensures line { IfOk result
        (λ line. line.items ≡ spec.refusal_text (plain_signature sig.now) at (plain_why why.now)) }
    ensures wide { IfErr result IsWant }
{
    let mut line = Vec::from_slice(alloc, b"refused at ")?;
    push_number(&mut line, u64::from(at))?;
    line.extend_from_slice(b": ")?;
    push_why(alloc, &mut line, sig, why)?;
    line.extend_from_slice(b".\n")?;
    Ok(line)
}

/// Writes why an item is refused.
fn push_why(alloc: Global, out: &mut Vec<u8>, sig: &Signature, why: &Why) -> Result<(), AllocError>
    ensures { OnOk result
        (out.new.items ≡ out.old.items ++ spec.why_text (plain_signature sig.now) (plain_why why.now)) }
{
    match why {
        Why::BadByte => out.extend_from_slice(b"bad byte"),
        Why::LongName => out.extend_from_slice(b"long name"),
        Why::Unexpected { end: true } => out.extend_from_slice(b"unexpected end"),
        Why::Unexpected { end: false } => out.extend_from_slice(b"unexpected"),
        Why::Directive => out.extend_from_slice(b"unknown directive"),
        Why::TooDeep => out.extend_from_slice(b"too deep"),
        Why::KindPlace => out.extend_from_slice(b"misplaced type"),
        Why::NotAsync => out.extend_from_slice(b"synchronous type"),
        Why::Redex => out.extend_from_slice(b"redex"),
        Why::OutOfRange => out.extend_from_slice(b"number out of range"),
        Why::BadImplicit => out.extend_from_slice(b"implicit count"),
        Why::Duplicate(name) => push_named(out, b"duplicate ", name),
        Why::Full => out.extend_from_slice(b"signature full"),
        Why::UnknownName(name) => push_named(out, b"unknown name ", name),
        Why::Kernel(refusal) => push_kernel(out, sig, refusal),
        Why::Undetermined(name) => push_named(out, b"undetermined ", name),
        Why::IllTyped(mismatch) => push_ill_typed(alloc, out, sig, mismatch),
        Why::Unresolved(equations) => {
            push_left(alloc, out, b"unresolved ", sig, equations.as_slice())
        },
        Why::Loose { count } => push_count(out, b"loose metavariables ", *count),
        Why::Circular(names) => {
            out.extend_from_slice(b"circular ")?;
            push_circle(out, names.as_slice())
        }
        Why::Rejected(refusal) => {
            out.extend_from_slice(b"rejected: ")?;
            push_kernel(out, sig, refusal)
        }
        Why::NotYet => out.extend_from_slice(b"not yet"),
    }
}

/// Writes words and a name.
fn push_named(out: &mut Vec<u8>, words: &[u8], name: &Name) -> Result<(), AllocError>
    ensures { OnOk result (out.new.items ≡ out.old.items ++ (words.now ++ name.now)) }
{
    out.extend_from_slice(words)?;
    out.extend_from_slice(name.as_str().as_bytes())
}

/// Writes that nothing makes an item well formed.
fn push_ill_typed(
    alloc: Global,
    out: &mut Vec<u8>,
    sig: &Signature,
    mismatch: &Mismatch,
) -> Result<(), AllocError>
    ensures { OnOk result (out.new.items
        ≡ out.old.items ++ spec.why_text (plain_signature sig.now) (ill_typed (plain_mismatch mismatch.now))) }
{
    out.extend_from_slice(b"ill typed: ")?;
    push_mismatch(alloc, out, sig, mismatch)
}

/// Writes words and the equations that are left.
fn push_left(
    alloc: Global,
    out: &mut Vec<u8>,
    words: &[u8],
    sig: &Signature,
    equations: &[Sides],
) -> Result<(), AllocError>
    ensures { OnOk result (out.new.items
        ≡ out.old.items ++ (words.now ++ unresolved_text (plain_signature sig.now) (map plain_sides equations.now))) }
{
    out.extend_from_slice(words)?;
    push_unresolved(alloc, out, sig, equations)
}

/// Writes words and a number.
fn push_count(out: &mut Vec<u8>, words: &[u8], count: u32) -> Result<(), AllocError>
    ensures { OnOk result (out.new.items ≡ out.old.items ++ (words.now ++ decimal count)) }
{
    out.extend_from_slice(words)?;
    push_number(out, u64::from(count))
}

/// Writes why the rules refuse an item, with the path to the part that they refuse.
fn push_kernel(out: &mut Vec<u8>, sig: &Signature, refusal: &Refusal) -> Result<(), AllocError>
    ensures { OnOk result (out.new.items
        ≡ out.old.items
        ++ spec.why_text (plain_signature sig.now)
        (kernel refusal.now.path.items (plain_cause refusal.now.cause))) }
{
    push_cause(out, sig, &refusal.cause)?;
    out.extend_from_slice(b" at ")?;
    push_path(out, refusal.path.as_slice())
}
