//! The texts.
ghost use Rattle.std.specs.Prelude.{◌≡◌, ◌+◌, ◌<◌, ◌^◌, [], IfOk, OnOk};
ghost use Rattle.clf_syntax.specs.Plain.{plain_obj};
ghost use Rattle.clf_syntax.specs.PlainTypes.{plain_ty};
ghost use Rattle.clf_sig.specs.Entry.{PlainEntry, entry_at};
ghost use Rattle.clf_sig.specs.Signature.{plain_class, plain_entry, plain_signature};
ghost use Rattle.clf_printer.specs.declared.place.Place.TheVariants.{Whole};
ghost use Rattle.clf_printer.specs.Text as spec;
ghost use Rattle.clf_printer.specs.Depth.{class_depth, scope_depth, type_depth};
ghost use Rattle.clf_printer.specs.Metas.{appearing, appearing_type};
ghost use Rattle.clf_printer.specs.Entry.{entry_text as entry_text_of};

use crate::entries::push_declaration;
use crate::metas::{note_class, note_object, note_type};
use crate::objects::push_object;
use crate::place::Place;
use crate::types::push_type;
use clf_sig::{Entry, Signature};
use clf_syntax::{Obj, Ty};
use std::alloc::{AllocError, Global};

/// The text of an object under `level` binders.
///
/// `metas` lists the metavariables that have their numbers already, the first of them `?1`; the others are numbered
/// after them, by first appearance. It fails only where memory runs out, so an object that has a text nests fewer
/// binders than
/// 2^64.
pub fn object_text(
    alloc: Global,
    sig: &Signature,
    level: u32,
    metas: &[u32],
    obj: &Obj,
) -> Result<Vec<u8>, AllocError>
    ensures text { IfOk result (λ text.
        text.items
        ≡ spec.object_text (plain_signature sig.now) (appearing metas.now (plain_obj obj.now)) level
        (plain_obj obj.now)) }
    ensures depth { OnOk result (level + scope_depth (plain_obj obj.now) < 2 ^ 64) }
{
    let mut numbered = Vec::from_slice(alloc, metas)?;
    note_object(&mut numbered, obj)?;
    let mut text = Vec::new(alloc);
    push_object(&mut text, sig, numbered.as_slice(), u64::from(level), obj)?;
    Ok(text)
}

/// The text of a type under `level` binders, where metavariables are numbered as in an object. It fails only where
/// memory runs out, so a type that has a text nests fewer binders than 2^64; so it is with an entry.
pub fn type_text(
    alloc: Global,
    sig: &Signature,
    level: u32,
    metas: &[u32],
    ty: &Ty,
) -> Result<Vec<u8>, AllocError>
    ensures text { IfOk result (λ text.
        text.items
        ≡ spec.type_text (plain_signature sig.now) (appearing_type metas.now (plain_ty ty.now)) level Whole
        (plain_ty ty.now)) }
    ensures depth { OnOk result (level + type_depth (plain_ty ty.now) < 2 ^ 64) }
{
    let mut numbered = Vec::from_slice(alloc, metas)?;
    note_type(&mut numbered, ty)?;
    let mut text = Vec::new(alloc);
    push_type(
        &mut text,
        sig,
        numbered.as_slice(),
        u64::from(level),
        Place::Whole,
        ty,
    )?;
    Ok(text)
}

/// The text of the entry at a place of the signature, or `$` where there is none. It fails only where memory runs out.
pub fn entry_text(alloc: Global, sig: &Signature, k: u32) -> Result<Vec<u8>, AllocError>
    ensures text { IfOk result (λ text. text.items ≡ entry_text_of (plain_signature sig.now) k) }
    ensures depth { OnOk result
        ((e : PlainEntry) → entry_at (plain_signature sig.now) k ≡ Some e → class_depth e.class < 2 ^ 64) }
{
    let mut text = Vec::new(alloc);
    let Some(name) = sig.name(k) else {
        text.push(b'$')?;
        return Ok(text);
    };
    let Some(entry) = sig.entry(k) else {
        text.push(b'$')?;
        return Ok(text);
    };
    let mut numbered = Vec::new(alloc);
    note_class(&mut numbered, &entry.class)?;
    push_declaration(&mut text, sig, numbered.as_slice(), name, entry)?;
    Ok(text)
}

/// The text of an entry without metavariables under a name, over the entries before it. It fails only where memory runs
/// out.
pub fn declaration_text(
    alloc: Global,
    sig: &Signature,
    name: &str,
    entry: &Entry,
) -> Result<Vec<u8>, AllocError>
    ensures text { IfOk result
        (λ text. text.items ≡ spec.declaration_text (plain_signature sig.now) [] name.now (plain_entry entry.now)) }
    ensures depth { OnOk result (class_depth (plain_class entry.now.class) < 2 ^ 64) }
{
    let mut text = Vec::new(alloc);
    push_declaration(&mut text, sig, &[], name, entry)?;
    Ok(text)
}
