//! Types, telescopes and kinds.
ghost use Rattle.std.specs.Prelude.{◌≡◌, ◌≤◌, ◌++◌, ◌+◌, ◌&&◌, IfOk, OnOk, map, not, length, drop};
ghost use Rattle.clf_syntax.specs.TypeTree.{telescope_of, monad};
ghost use Rattle.clf_syntax.specs.Occurs.{occurs_type as occurs_type_of, occurs_telescope as occurs_telescope_of};
ghost use Rattle.clf_syntax.specs.Plain.{plain_obj};
ghost use Rattle.clf_syntax.specs.PlainTypes.{plain_ty, plain_tele_entry};
ghost use Rattle.clf_sig.specs.Signature.{plain_signature};
ghost use Rattle.clf_printer.specs.declared.place.Place.TheVariants.{Whole, Operand};
ghost use Rattle.clf_printer.specs.Text as spec;

use crate::objects::push_atom;
use crate::place::{Place, groups_function, groups_pair};
use crate::words::{push_if, push_mark, push_new_variable, push_place, raised};
use clf_sig::Signature;
use clf_syntax::{Mode, Obj, TeleEntry, Ty, occurs_in_arguments, occurs_in_entries};
use std::alloc::AllocError;

fn arrow(mode: Mode) -> &'static [u8; 4]
    ensures { result.now ≡ spec.arrow_text mode }
{
    match mode {
        Mode::Persistent => b" -> ",
        Mode::Affine => b" -@ ",
        Mode::Linear => b" -o ",
    }
}

fn is_persistent(mode: Mode) -> bool
    ensures { result ≡ spec.is_persistent mode }
{
    match mode {
        Mode::Persistent => true,
        Mode::Affine => false,
        Mode::Linear => false,
    }
}

/// Whether a function's variable is named: it is persistent, and occurs in the rest.
fn names_argument(mode: Mode, rest: &Ty) -> bool
    ensures { result ≡ (spec.is_persistent mode && occurs_type_of 0 (plain_ty rest.now)) }
{
    is_persistent(mode) && rest.occurs(0)
}

/// Whether an entry's variable is named: it is persistent, and occurs in the later entries, which begin at a place.
#[tactic(auto, using(std::proofs::lemmas::Slice::between_to_end))]
fn names_entry(mode: Mode, entries: &[TeleEntry], later: usize) -> bool
    requires { later ≤ length entries.now }
    ensures { result
        ≡ (spec.is_persistent mode
        && occurs_telescope_of 0 (telescope_of (map plain_tele_entry (drop later entries.now)))) }
{
    is_persistent(mode) && occurs_in_entries(&entries[later..], 0)
}

/// Writes the indices of a family.
fn push_indices(
    out: &mut Vec<u8>,
    sig: &Signature,
    metas: &[u32],
    level: u64,
    indices: &[Obj],
) -> Result<(), AllocError>
    ensures { OnOk result (out.new.items
        ≡ out.old.items
        ++ spec.indices_text (plain_signature sig.now) metas.now level (map plain_obj indices.now)) }
{
    for index in indices {
        out.extend_from_slice(b" !")?;
        push_atom(out, sig, metas, level, index)?;
    }
    Ok(())
}

/// Writes a type at a place.
#[cycle(push_type)]
pub fn push_type(
    out: &mut Vec<u8>,
    sig: &Signature,
    metas: &[u32],
    level: u64,
    place: Place,
    ty: &Ty,
) -> Result<(), AllocError>
    ensures { OnOk result (out.new.items
        ≡ out.old.items ++ spec.type_text (plain_signature sig.now) metas.now level place (plain_ty ty.now)) }
{
    match ty {
        Ty::Fam { family, indices } => {
            push_place(out, sig, *family)?;
            push_indices(out, sig, metas, level, indices.as_slice())
        }
        Ty::Fun { mode, dom, cod } => {
            let cod = cod.get();
            let grouped = groups_function(place);
            push_if(out, grouped, b"(")?;
            push_argument(out, sig, metas, level, *mode, dom.get(), cod)?;
            push_type(out, sig, metas, raised(level, 1)?, Place::Whole, cod)?;
            push_if(out, grouped, b")")
        }
        Ty::With { left, right } => {
            let grouped = groups_pair(place);
            push_if(out, grouped, b"(")?;
            push_type(out, sig, metas, level, Place::Factor, left.get())?;
            out.extend_from_slice(b" & ")?;
            push_type(out, sig, metas, level, Place::Operand, right.get())?;
            push_if(out, grouped, b")")
        }
        Ty::Top => push_if(out, true, b"<T>"),
        Ty::Monad { tele } => push_monad(out, sig, metas, level, tele.entries.as_slice()),
    }
}

/// Writes the argument of a function.
#[cycle(push_type)]
fn push_argument(
    out: &mut Vec<u8>,
    sig: &Signature,
    metas: &[u32],
    level: u64,
    mode: Mode,
    dom: &Ty,
    cod: &Ty,
) -> Result<(), AllocError>
    ensures { OnOk result (out.new.items
        ≡ out.old.items
        ++ spec.domain_text mode (spec.is_persistent mode && occurs_type_of 0 (plain_ty cod.now)) level
        (spec.type_text (plain_signature sig.now) metas.now level Whole (plain_ty dom.now))
        (spec.type_text (plain_signature sig.now) metas.now level Operand (plain_ty dom.now))) }
{
    let named = names_argument(mode, cod);
    push_domain(out, sig, metas, level, mode, named, dom)
}

/// Writes a monadic type.
#[cycle(push_type)]
fn push_monad(
    out: &mut Vec<u8>,
    sig: &Signature,
    metas: &[u32],
    level: u64,
    entries: &[TeleEntry],
) -> Result<(), AllocError>
    ensures { OnOk result (out.new.items
        ≡ out.old.items
        ++ spec.type_text (plain_signature sig.now) metas.now level Whole
        (monad (telescope_of (map plain_tele_entry entries.now)))) }
{
    out.push(b'{')?;
    push_if(out, entries.is_empty(), b"1")?;
    push_telescope(out, sig, metas, level, entries)?;
    push_if(out, true, b"}")
}

/// Writes an argument in front of the rest.
#[cycle(push_type)]
fn push_domain(
    out: &mut Vec<u8>,
    sig: &Signature,
    metas: &[u32],
    level: u64,
    mode: Mode,
    named: bool,
    dom: &Ty,
) -> Result<(), AllocError>
    ensures { OnOk result (out.new.items
        ≡ out.old.items
        ++ spec.domain_text mode named level
        (spec.type_text (plain_signature sig.now) metas.now level Whole (plain_ty dom.now))
        (spec.type_text (plain_signature sig.now) metas.now level Operand (plain_ty dom.now))) }
{
    if named {
        out.extend_from_slice(b"Pi ")?;
        push_named(out, sig, metas, level, dom)
    } else {
        push_type(out, sig, metas, level, Place::Operand, dom)?;
        push_if(out, true, arrow(mode))
    }
}

/// Writes a new variable with its type.
#[cycle(push_type)]
fn push_named(
    out: &mut Vec<u8>,
    sig: &Signature,
    metas: &[u32],
    level: u64,
    ty: &Ty,
) -> Result<(), AllocError>
    ensures { OnOk result (out.new.items
        ≡ out.old.items
        ++ spec.named_text level
        (spec.type_text (plain_signature sig.now) metas.now level Whole (plain_ty ty.now))) }
{
    push_new_variable(out, level)?;
    out.extend_from_slice(b": ")?;
    push_type(out, sig, metas, level, Place::Whole, ty)?;
    push_if(out, true, b". ")
}

/// Writes the entries of a telescope.
#[cycle(push_type)]
pub fn push_telescope(
    out: &mut Vec<u8>,
    sig: &Signature,
    metas: &[u32],
    level: u64,
    entries: &[TeleEntry],
) -> Result<(), AllocError>
    ensures { OnOk result (out.new.items
        ≡ out.old.items
        ++ spec.telescope_text (plain_signature sig.now) metas.now level
        (telescope_of (map plain_tele_entry entries.now))) }
{
    let mut inner = level;
    let mut seen = 0;
    for entry in entries {
        seen += 1;
        let named = names_entry(entry.mode, entries, seen);
        let left = entries.len() - seen;
        push_tele_entry(out, sig, metas, inner, entry, named, left > 0)?;
        inner = raised(inner, 1)?;
    }
    Ok(())
}

/// Writes an entry in front of the rest.
#[cycle(push_type)]
fn push_tele_entry(
    out: &mut Vec<u8>,
    sig: &Signature,
    metas: &[u32],
    level: u64,
    entry: &TeleEntry,
    named: bool,
    goes_on: bool,
) -> Result<(), AllocError>
    ensures { OnOk result (out.new.items
        ≡ out.old.items
        ++ spec.tele_entry_text (plain_tele_entry entry.now).0 named goes_on level
        (spec.type_text (plain_signature sig.now) metas.now level Whole (plain_tele_entry entry.now).1)
        (spec.type_text (plain_signature sig.now) metas.now level Operand (plain_tele_entry entry.now).1)) }
{
    if named {
        out.extend_from_slice(b"Exists ")?;
        push_named(out, sig, metas, level, &entry.ty)
    } else {
        push_mark(out, entry.mode)?;
        push_type(out, sig, metas, level, Place::Operand, &entry.ty)?;
        push_if(out, goes_on, b" * ")
    }
}

/// Writes a kind.
pub fn push_kind(
    out: &mut Vec<u8>,
    sig: &Signature,
    metas: &[u32],
    args: &[Ty],
) -> Result<(), AllocError>
    ensures { OnOk result (out.new.items
        ≡ out.old.items ++ spec.kind_text (plain_signature sig.now) metas.now 0 (map plain_ty args.now)) }
{
    let mut level = 0;
    let mut rest = args;
    while let [arg, later @ ..] = rest {
        let named = occurs_in_arguments(later, 0);
        push_domain(out, sig, metas, level, Mode::Persistent, named, arg)?;
        level = raised(level, 1)?;
        rest = later;
    }
    push_if(out, true, b"type")
}
