//! The occurrences of implicit variables in types. What stands in a type, and in none of its objects, is checked.
ghost use Rattle.std.specs.Prelude.{◌≡◌, true, None, map, drop, get_or, OnOk, option_copied};
ghost use Rattle.clf_syntax.specs.PlainSimple.{plain_simple_entry};
ghost use Rattle.clf_sig.specs.Signature.{plain_signature};
ghost use Rattle.celf_sugar.specs.Plain.{desugared_object, desugared_type, desugared_telescope, desugared_entry};
ghost use Rattle.celf_places.specs.Locals.{plain_place};
ghost use Rattle.celf_places.specs.Along.{left_along, bound_place};
ghost use Rattle.celf_names.specs.Names.{family_named as family_named_of};
ghost use Rattle.celf_implicit.specs.Scopes.{under};
ghost use Rattle.celf_implicit.specs.Occurrences as spec;
ghost use Rattle.celf_implicit.specs.Answers.{plain_implicit};
ghost use Rattle.celf_implicit.specs.Noting.{plain_notes, plain_scope, noted, after_index, after_entry};

use crate::binders::Binders;
use crate::heads::{from_number, left_out};
use crate::notes::Notes;
use crate::objects::note_object;
use crate::variable::Implicit;
use celf_names::family_named;
use celf_places::{arguments_of, bound_simple, bound_simples, next_part};
use celf_sugar::{PEntry, PName, PObj, PTele, PTy, PTyForm};
use clf_sig::Signature;
use clf_syntax::{Mode, Name, Shortage, Simple, SimpleEntry};
use sqlite_items::Boxed;
use std::alloc::Global;

/// Notes the occurrences in a type, under these binders.
#[cycle(types)]
#[tactic(auto, using(celf_names::proofs::Forms::type_laws, crate::specs::Noting::noted_laws))]
pub fn note_type<'a>(
    ty: &'a PTy,
    alloc: Global,
    sig: &'a Signature,
    found: &'a [Implicit],
    binders: &Binders<'a>,
    notes: &mut Notes,
) -> Result<(), Shortage>
    ensures { OnOk result (plain_notes notes.new
        ≡ noted (map plain_implicit found.now) (plain_notes notes.old)
        (spec.in_type (plain_signature sig.now) (map plain_implicit found.now)
        (plain_scope binders.now true) (desugared_type ty.now))) }
{
    match &ty.form {
        PTyForm::Family { head, indices } => {
            note_family(alloc, sig, found, binders, head, indices.as_slice(), notes)
        }
        PTyForm::Fun {
            mode,
            name,
            dom,
            cod,
        } => {
            note_type(dom.get(), alloc, sig, found, binders, notes)?;
            let simple = bound_simple(alloc, sig, name, dom.get())?;
            let inner = binders.copy(alloc)?;
            note_under(
                cod.get(),
                alloc,
                sig,
                found,
                *mode,
                name,
                &simple,
                inner,
                notes,
            )
        }
        PTyForm::With { left, right } => {
            note_type(left.get(), alloc, sig, found, binders, notes)?;
            note_type(right.get(), alloc, sig, found, binders, notes)
        }
        PTyForm::Top => Ok(()),
        PTyForm::Monad { tele } => note_telescope(tele, alloc, sig, found, binders, notes),
    }
}

/// Notes those in a type under one binder more.
#[cycle(types)]
fn note_under<'a>(
    ty: &'a PTy,
    alloc: Global,
    sig: &'a Signature,
    found: &'a [Implicit],
    mode: Mode,
    name: &'a Option<Name>,
    simple: &'a Option<Boxed<Simple>>,
    outer: Binders<'a>,
    notes: &mut Notes,
) -> Result<(), Shortage>
    ensures { OnOk result (plain_notes notes.new
        ≡ noted (map plain_implicit found.now) (plain_notes notes.old)
        (spec.in_type (plain_signature sig.now) (map plain_implicit found.now)
        (under mode (name.now, plain_place simple.now) (plain_scope outer.entry true)) (desugared_type ty.now))) }
{
    let mut binders = outer;
    binders.bind(mode, name, place_of(simple))?;
    note_type(ty, alloc, sig, found, &binders, notes)
}

/// A simple type in a box.
pub fn place_of(simple: &Option<Boxed<Simple>>) -> Option<&Simple>
    ensures { option_copied result ≡ simple.now }
{
    match simple {
        Some(simple) => Some(simple.get()),
        None => None,
    }
}

/// Notes those in a family at indices.
fn note_family<'a>(
    alloc: Global,
    sig: &'a Signature,
    found: &'a [Implicit],
    binders: &Binders<'a>,
    head: &PName,
    indices: &'a [PObj],
    notes: &mut Notes,
) -> Result<(), Shortage>
    ensures { OnOk result (plain_notes notes.new
        ≡ noted (map plain_implicit found.now) (plain_notes notes.old)
        (spec.in_indices (plain_signature sig.now) (map plain_implicit found.now)
        (plain_scope binders.now true) (spec.written_parts (plain_signature sig.now) head.now.dollar
        (family_named_of (plain_signature sig.now) head.now.name)) (map desugared_object indices.now))) }
{
    match family_named(sig, head.name.as_str()) {
        Some(family) => {
            let wanted = arguments_of(alloc, sig, family)?;
            let left_out = left_out(sig, head.dollar, family);
            let inner = binders.copy(alloc)?;
            note_indices(
                indices,
                alloc,
                sig,
                found,
                wanted.as_slice(),
                left_out,
                inner,
                notes,
            )
        }
        None => {
            let inner = binders.copy(alloc)?;
            note_indices(indices, alloc, sig, found, &[], 0, inner, notes)
        }
    }
}

/// Notes those in indices, of which these entries are wanted after so many that are not written.
#[tactic(auto, using(crate::specs::Noting::index_noted_laws))]
fn note_indices<'a>(
    indices: &'a [PObj],
    alloc: Global,
    sig: &'a Signature,
    found: &'a [Implicit],
    entries: &'a [SimpleEntry],
    left_out: u32,
    binders: Binders<'a>,
    notes: &mut Notes,
) -> Result<(), Shortage>
    ensures { OnOk result (plain_notes notes.new
        ≡ noted (map plain_implicit found.now) (plain_notes notes.old)
        (spec.in_indices (plain_signature sig.now) (map plain_implicit found.now) (plain_scope binders.entry true)
        (drop left_out (map plain_simple_entry entries.now)) (map desugared_object indices.now))) }
{
    let mut wanted = from_number(entries, left_out);
    for index in indices {
        let next = next_part(wanted);
        note_object(index, alloc, sig, found, &binders, true, next.place, notes)?;
        wanted = next.later;
    }
    Ok(())
}

/// Notes those in a telescope.
#[cycle(types)]
#[tactic(auto, using(celf_names::proofs::Forms::telescope_laws, crate::specs::Noting::telescope_noted_laws))]
pub fn note_telescope<'a>(
    tele: &'a PTele,
    alloc: Global,
    sig: &'a Signature,
    found: &'a [Implicit],
    binders: &Binders<'a>,
    notes: &mut Notes,
) -> Result<(), Shortage>
    ensures { OnOk result (plain_notes notes.new
        ≡ noted (map plain_implicit found.now) (plain_notes notes.old)
        (spec.in_telescope (plain_signature sig.now) (map plain_implicit found.now)
        (plain_scope binders.now true) (desugared_telescope tele.now))) }
{
    let simples = bound_simples(alloc, sig, tele.entries.as_slice())?;
    note_entries(
        tele.entries.as_slice(),
        alloc,
        sig,
        found,
        simples.as_slice(),
        binders.copy(alloc)?,
        notes,
    )
}

/// Notes those in entries that bind these simple types.
#[cycle(types)]
fn note_entries<'a>(
    entries: &'a [PEntry],
    alloc: Global,
    sig: &'a Signature,
    found: &'a [Implicit],
    simples: &'a [Option<Boxed<Simple>>],
    outer: Binders<'a>,
    notes: &mut Notes,
) -> Result<(), Shortage>
    requires { map plain_place simples.now
        ≡ map (bound_place (plain_signature sig.now)) (map desugared_entry entries.now) }
    ensures { OnOk result (plain_notes notes.new
        ≡ (left_along (after_entry (plain_signature sig.now) (map plain_implicit found.now))
        (plain_notes notes.old, plain_scope outer.entry true) (map desugared_entry entries.now)).0) }
{
    let mut binders = outer;
    for (index, entry) in entries.iter().enumerate() {
        note_entry(entry, alloc, sig, found, &binders, notes)?;
        binders.bind(entry.mode, &entry.name, place_at(simples, index))?;
    }
    Ok(())
}

/// The simple type at a place.
fn place_at<'a>(simples: &'a [Option<Boxed<Simple>>], index: usize) -> Option<&'a Simple>
    ensures { option_copied result ≡ get_or simples.now index None }
{
    place_of(simples.get(index)?)
}

#[cycle(types)]
#[tactic(auto, using(celf_sugar::specs::Plain::entry_laws))]
fn note_entry<'a>(
    entry: &'a PEntry,
    alloc: Global,
    sig: &'a Signature,
    found: &'a [Implicit],
    binders: &Binders<'a>,
    notes: &mut Notes,
) -> Result<(), Shortage>
    ensures { OnOk result (plain_notes notes.new
        ≡ noted (map plain_implicit found.now) (plain_notes notes.old)
        (spec.in_type (plain_signature sig.now) (map plain_implicit found.now)
        (plain_scope binders.now true) (desugared_entry entry.now).2)) }
{
    note_type(&entry.ty, alloc, sig, found, binders, notes)
}
