//! Entries of the signature.
ghost use Rattle.std.specs.Prelude.{◌≡◌, ◌++◌, OnOk};
ghost use Rattle.clf_sig.specs.Signature.{plain_signature, plain_class, plain_entry};
ghost use Rattle.clf_printer.specs.Text as spec;

use crate::place::Place;
use crate::types::{push_kind, push_type};
use crate::words::push_number;
use clf_sig::{Class, Entry, Signature};
use std::alloc::AllocError;

/// Writes the number of implicit arguments, where there are some.
fn push_implicit(out: &mut Vec<u8>, implicit: u32) -> Result<(), AllocError>
    ensures { OnOk result (out.new.items ≡ out.old.items ++ spec.implicit_text implicit) }
{
    if implicit > 0 {
        out.push(b'[')?;
        push_number(out, u64::from(implicit))?;
        out.extend_from_slice(b"] ")?;
    }
    Ok(())
}

/// Writes a kind, or a type.
fn push_class(
    out: &mut Vec<u8>,
    sig: &Signature,
    metas: &[u32],
    class: &Class,
) -> Result<(), AllocError>
    ensures { OnOk result (out.new.items
        ≡ out.old.items ++ spec.class_text (plain_signature sig.now) metas.now (plain_class class.now)) }
{
    match class {
        Class::Family(kind) => push_kind(out, sig, metas, kind.args.as_slice()),
        Class::Constant(ty) => push_type(out, sig, metas, 0, Place::Whole, ty),
    }
}

/// Writes an entry under its name.
pub fn push_declaration(
    out: &mut Vec<u8>,
    sig: &Signature,
    metas: &[u32],
    name: &str,
    entry: &Entry,
) -> Result<(), AllocError>
    ensures { OnOk result (out.new.items
        ≡ out.old.items
        ++ spec.declaration_text (plain_signature sig.now) metas.now name.now (plain_entry entry.now)) }
{
    out.extend_from_slice(name.as_bytes())?;
    out.extend_from_slice(b" : ")?;
    push_implicit(out, entry.implicit)?;
    push_class(out, sig, metas, &entry.class)?;
    out.push(b'.')?;
    Ok(())
}
