//! What names mean where all is written: heads with their simple types, and families.
ghost use Rattle.std.specs.Prelude.{◌≡◌, map, IfOk, option_copied, option_map};
ghost use Rattle.clf_syntax.specs.PlainTypes.{plain_ty};
ghost use Rattle.clf_syntax.specs.PlainSimple.{plain_simple_entry};
ghost use Rattle.clf_sig.specs.Entry.{entry_at, kind_in};
ghost use Rattle.clf_sig.specs.Signature.{plain_class, plain_signature};
ghost use Rattle.celf_places.specs.Locals.{plain_place, plain_locals};
ghost use Rattle.celf_places.specs.Heads as spec;

use crate::locals::{Found, Locals};
use celf_names::{constant_named, family_named};
use celf_sugar::PName;
use clf_sig::{Class, Signature};
use clf_syntax::{Head, Mode, Shortage, SimpleEntry, Ty, erase};
use sqlite_items::Items;
use std::alloc::{AllocError, Global};

/// Whether the entry at a place has no implicit arguments.
fn has_no_implicit(sig: &Signature, place: u32) -> bool
    ensures { result ≡ spec.has_no_implicit (entry_at (plain_signature sig.now) place) }
{
    match sig.entry(place) {
        Some(entry) => entry.implicit == 0,
        None => true,
    }
}

/// A place where every argument is written: after `$`, or where none is implicit.
fn all_written(sig: &Signature, dollar: bool, place: u32) -> Option<u32>
    ensures { result ≡ spec.all_written (plain_signature sig.now) dollar place }
{
    if dollar || has_no_implicit(sig, place) {
        Some(place)
    } else {
        None
    }
}

/// The constant of a name, with its simple type.
fn constant_head<'a>(sig: &'a Signature, name: &PName) -> Option<Found<'a>>
    ensures { option_map (λ h. (h.head, plain_place (option_copied h.place))) result
        ≡ spec.constant_head (plain_signature sig.now) name.now }
{
    let named = constant_named(sig, name.name.as_str())?;
    let constant = all_written(sig, name.dollar, named)?;
    Some(Found {
        head: Head::Const(constant),
        place: sig.simples().get(constant as usize),
    })
}

/// What the name of an object means, with its simple type.
pub fn head_of<'a>(
    sig: &'a Signature,
    locals: &Locals<'a>,
    name: &PName,
) -> Result<Option<Found<'a>>, Shortage>
    ensures { IfOk result (λ f.
        option_map (λ h. (h.head, plain_place (option_copied h.place))) f
        ≡ spec.head (plain_signature sig.now) (plain_locals locals.now) name.now) }
{
    if !name.dollar {
        if let Some(found) = locals.find(&name.name)? {
            return Ok(Some(found));
        }
    }
    Ok(constant_head(sig, name))
}

/// What the name of a type means.
pub fn family_of(sig: &Signature, name: &PName) -> Option<u32>
    ensures { result ≡ spec.family_head (plain_signature sig.now) name.now }
{
    let named = family_named(sig, name.name.as_str())?;
    all_written(sig, name.dollar, named)
}

/// What is wanted of the indices of a family. It fails only where memory runs out.
pub fn arguments_of(
    alloc: Global,
    sig: &Signature,
    family: u32,
) -> Result<Items<SimpleEntry>, AllocError>
    ensures { IfOk result (λ es. map plain_simple_entry es ≡ spec.arguments_of (plain_signature sig.now) family) }
{
    match sig.entry(family) {
        Some(entry) => class_arguments(alloc, &entry.class),
        None => Ok(Items::new(alloc)),
    }
}

/// Those of a family, by its kind.
fn class_arguments(alloc: Global, class: &Class) -> Result<Items<SimpleEntry>, AllocError>
    ensures { IfOk result (λ es. map plain_simple_entry es ≡ spec.argument_entries (kind_in (plain_class class.now))) }
{
    match class {
        Class::Family(kind) => argument_entries(alloc, kind.args.as_slice()),
        Class::Constant(_) => Ok(Items::new(alloc)),
    }
}

fn argument_entries(alloc: Global, args: &[Ty]) -> Result<Items<SimpleEntry>, AllocError>
    ensures { IfOk result (λ es. map plain_simple_entry es ≡ map spec.argument_entry (map plain_ty args.now)) }
{
    let mut entries = Items::new(alloc);
    for arg in args {
        entries.push(argument_entry(alloc, arg)?)?;
    }
    Ok(entries)
}

#[tactic(auto, using(clf_syntax::specs::PlainSimple::plain_simple_laws))]
fn argument_entry(alloc: Global, arg: &Ty) -> Result<SimpleEntry, AllocError>
    ensures { IfOk result (λ e. plain_simple_entry e ≡ spec.argument_entry (plain_ty arg.now)) }
{
    Ok(SimpleEntry {
        mode: Mode::Persistent,
        ty: erase(alloc, arg)?,
    })
}
