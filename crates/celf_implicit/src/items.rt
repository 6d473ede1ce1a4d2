//! The occurrences of implicit variables in an item.
ghost use Rattle.std.specs.Prelude.{◌≡◌, ◌++◌, map, true, IfOk, OnOk};
ghost use Rattle.clf_sig.specs.Signature.{plain_signature};
ghost use Rattle.celf_sugar.specs.Plain.{body_of, class_of, desugared_object, desugared_type};
ghost use Rattle.celf_places.specs.Locals.{plain_place};
ghost use Rattle.celf_places.specs.SimpleTypes.{simple_type};
ghost use Rattle.celf_implicit.specs.Scopes.{outermost};
ghost use Rattle.celf_implicit.specs.Occurrences as spec;
ghost use Rattle.celf_implicit.specs.Answers.{plain_implicit};
ghost use Rattle.celf_implicit.specs.Noting.{nothing_noted, plain_notes, noted};

use crate::binders::Binders;
use crate::notes::Notes;
use crate::objects::note_object;
use crate::types::{note_telescope, note_type, place_of};
use crate::variable::Implicit;
use celf_places::{boxed, simple_of};
use celf_sugar::{PClass, PObj, PTy, PlainBody};
use clf_sig::Signature;
use clf_syntax::{Shortage, Simple};
use sqlite_items::Boxed;
use std::alloc::Global;

/// What is noted of all occurrences of an item.
pub fn notes_of_item(
    alloc: Global,
    sig: &Signature,
    found: &[Implicit],
    body: &PlainBody,
) -> Result<Notes, Shortage>
    ensures { IfOk result (λ notes.
        plain_notes notes
        ≡ noted (map plain_implicit found.now) nothing_noted
        (spec.occurrences (plain_signature sig.now) (map plain_implicit found.now)
        (body_of body.now))) }
{
    let mut notes = Notes::new(alloc);
    let binders = Binders::new(alloc);
    match body {
        PlainBody::Declare {
            name: _,
            implicit: _,
            class,
        } => note_class(alloc, sig, found, class, &mut notes)?,
        PlainBody::Query {
            d: _,
            e: _,
            l: _,
            a: _,
            ty,
        } => note_type(ty, alloc, sig, found, &binders, &mut notes)?,
        PlainBody::Trace { n: _, tele } => {
            note_telescope(tele, alloc, sig, found, &binders, &mut notes)?;
        }
        PlainBody::Equal { left, right, ty } => {
            note_at(alloc, sig, found, left, ty, &mut notes)?;
            note_at(alloc, sig, found, right, ty, &mut notes)?;
            note_type(ty, alloc, sig, found, &binders, &mut notes)?;
        }
        PlainBody::Check { obj, ty } => {
            note_at(alloc, sig, found, obj, ty, &mut notes)?;
            note_type(ty, alloc, sig, found, &binders, &mut notes)?;
        }
    }
    Ok(notes)
}

/// Notes those in an object at the simple type that is left of a type.
fn note_at(
    alloc: Global,
    sig: &Signature,
    found: &[Implicit],
    obj: &PObj,
    ty: &PTy,
    notes: &mut Notes,
) -> Result<(), Shortage>
    ensures { OnOk result (plain_notes notes.new
        ≡ noted (map plain_implicit found.now) (plain_notes notes.old)
        (spec.in_object (plain_signature sig.now) (map plain_implicit found.now) outermost
        (simple_type (plain_signature sig.now) (desugared_type ty.now)) (desugared_object obj.now))) }
{
    let simple = boxed(alloc, simple_of(alloc, sig, ty))?;
    note_alone(alloc, sig, found, obj, &simple, notes)
}

/// Notes those in an object without binders around it.
fn note_alone<'a>(
    alloc: Global,
    sig: &'a Signature,
    found: &'a [Implicit],
    obj: &'a PObj,
    simple: &'a Option<Boxed<Simple>>,
    notes: &mut Notes,
) -> Result<(), Shortage>
    ensures { OnOk result (plain_notes notes.new
        ≡ noted (map plain_implicit found.now) (plain_notes notes.old)
        (spec.in_object (plain_signature sig.now) (map plain_implicit found.now) outermost (plain_place simple.now)
        (desugared_object obj.now))) }
{
    let binders = Binders::new(alloc);
    note_object(
        obj,
        alloc,
        sig,
        found,
        &binders,
        true,
        place_of(simple),
        notes,
    )
}

/// Notes those in what is declared.
fn note_class(
    alloc: Global,
    sig: &Signature,
    found: &[Implicit],
    class: &PClass,
    notes: &mut Notes,
) -> Result<(), Shortage>
    ensures { OnOk result (plain_notes notes.new
        ≡ noted (map plain_implicit found.now) (plain_notes notes.old)
        (spec.in_class (plain_signature sig.now) (map plain_implicit found.now)
        (class_of class.now))) }
{
    let binders = Binders::new(alloc);
    match class {
        PClass::Family(tele) => note_telescope(tele, alloc, sig, found, &binders, notes),
        PClass::Constant(ty) => note_type(ty, alloc, sig, found, &binders, notes),
    }
}
