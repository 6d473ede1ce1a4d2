//! The occurrences of implicit variables in objects.
ghost use Rattle.std.specs.Prelude.{◌≡◌, ◌++◌, map, IfOk, OnOk, option_copied, option_map, option_and_then};
ghost use Rattle.clf_syntax.specs.PlainSimple.{plain_simple_entry};
ghost use Rattle.clf_sig.specs.Signature.{plain_signature};
ghost use Rattle.celf_sugar.specs.PlainTree.{spine_of};
ghost use Rattle.celf_sugar.specs.Plain.{desugared_object, desugared_expression, desugared_elim, desugared_step, desugared_marked};
ghost use Rattle.celf_places.specs.Locals.{plain_place};
ghost use Rattle.celf_places.specs.Along.{left_along};
ghost use Rattle.celf_implicit.specs.Variables.{is_open_name};
ghost use Rattle.celf_implicit.specs.Occurrences as spec;
ghost use Rattle.celf_implicit.specs.Answers.{plain_implicit};
ghost use Rattle.celf_implicit.specs.Noting.{plain_notes, plain_scope, noted, after_act, after_one_step, after_marked};

use crate::applied::distinct_locals;
use crate::binders::Binders;
use crate::heads::{head_place, is_open};
use crate::notes::Notes;
use crate::variable::Implicit;
use celf_places::{
    behind_act, behind_spine, entries_at, function_parts, marked, next_part, pair_parts,
};
use celf_sugar::{PElim, PExpr, PMarked, PName, PObj, PObjForm, PStep};
use clf_sig::Signature;
use clf_syntax::{Shortage, Simple, SimpleEntry};
use std::alloc::Global;

/// Notes the occurrences in an object at a place, under these binders.
#[cycle(objects)]
#[tactic(auto, using(celf_names::proofs::Forms::object_laws, crate::specs::Noting::spine_noted_laws))]
pub fn note_object<'a>(
    obj: &'a PObj,
    alloc: Global,
    sig: &'a Signature,
    found: &'a [Implicit],
    binders: &Binders<'a>,
    checked: bool,
    place: Option<&'a Simple>,
    notes: &mut Notes,
) -> Result<(), Shortage>
    ensures { OnOk result (plain_notes notes.new
        ≡ noted (map plain_implicit found.now) (plain_notes notes.old)
        (spec.in_object (plain_signature sig.now) (map plain_implicit found.now)
        (plain_scope binders.now checked) (plain_place (option_copied place.entry)) (desugared_object obj.now))) }
{
    match &obj.form {
        PObjForm::Lam { mode, name, body } => {
            let parts = function_parts(place);
            let inner = binders.with(alloc, marked(*mode, parts.mode), name, parts.domain)?;
            note_object(
                body.get(),
                alloc,
                sig,
                found,
                &inner,
                checked,
                parts.codomain,
                notes,
            )
        }
        PObjForm::Pair { left, right } => {
            let parts = pair_parts(place);
            note_object(
                left.get(),
                alloc,
                sig,
                found,
                binders,
                checked,
                parts.left,
                notes,
            )?;
            note_object(
                right.get(),
                alloc,
                sig,
                found,
                binders,
                checked,
                parts.right,
                notes,
            )
        }
        PObjForm::Mon { expr } => {
            note_expression(
                expr,
                alloc,
                sig,
                found,
                binders,
                checked,
                entries_at(place),
                notes,
            )
        }
        PObjForm::At { head, spine } => {
            let spine = spine.as_slice();
            let loose = is_open(sig, found, binders, head)?;
            note_head(
                alloc,
                sig,
                found,
                binders,
                checked,
                loose,
                head,
                Some(spine),
                place,
                notes,
            )?;
            let own = head_place(sig, found, binders, head)?;
            note_spine(
                spine,
                alloc,
                sig,
                found,
                binders,
                checked && !loose,
                own,
                notes,
            )
        }
        PObjForm::Unit | PObjForm::Hole => Ok(()),
    }
}

/// Notes a head, if it is open: an implicit variable that is not determined so far. Without a spine it is the head of
/// the right side of a `let`.
fn note_head<'a>(
    alloc: Global,
    sig: &'a Signature,
    found: &'a [Implicit],
    binders: &Binders<'a>,
    checked: bool,
    loose: bool,
    head: &PName,
    spine: Option<&[PElim]>,
    place: Option<&'a Simple>,
    notes: &mut Notes,
) -> Result<(), Shortage>
    requires { loose ≡ is_open_name (plain_signature sig.now) (map plain_implicit found.now)
        (plain_scope binders.now checked).binders.locals head.now }
    ensures { OnOk result (plain_notes notes.new
        ≡ noted (map plain_implicit found.now) (plain_notes notes.old)
        (spec.at_head (plain_signature sig.now) (map plain_implicit found.now) (plain_scope binders.now checked)
        (option_and_then (λ es. spec.distinct_locals (plain_scope binders.now checked).binders
        (spine_of (map desugared_elim es))) (option_copied spine.entry))
        (plain_place (option_copied place.entry)) head.now)) }
{
    if !loose {
        return Ok(());
    }
    notes.note_open(alloc, head)?;
    if !checked {
        return Ok(());
    }
    if let Some(spine) = spine {
        if let Some(locals) = distinct_locals(alloc, binders, spine)? {
            notes.note_determined(alloc, head, locals.as_slice(), place)?;
        }
    }
    Ok(())
}

/// Notes the occurrences in what is done to a head of this simple type.
#[cycle(objects)]
fn note_spine<'a>(
    spine: &'a [PElim],
    alloc: Global,
    sig: &'a Signature,
    found: &'a [Implicit],
    binders: &Binders<'a>,
    checked: bool,
    place: Option<&'a Simple>,
    notes: &mut Notes,
) -> Result<(), Shortage>
    ensures { OnOk result (plain_notes notes.new
        ≡ (left_along (after_act (plain_signature sig.now) (map plain_implicit found.now)
        (plain_scope binders.now checked)) (plain_notes notes.old, plain_place (option_copied place.entry))
        (map desugared_elim spine.now)).0) }
{
    let mut place = place;
    for act in spine {
        note_act(act, alloc, sig, found, binders, checked, place, notes)?;
        place = behind_act(place, act);
    }
    Ok(())
}

#[cycle(objects)]
#[tactic(auto, using(celf_sugar::specs::Plain::elim_laws))]
fn note_act<'a>(
    act: &'a PElim,
    alloc: Global,
    sig: &'a Signature,
    found: &'a [Implicit],
    binders: &Binders<'a>,
    checked: bool,
    place: Option<&'a Simple>,
    notes: &mut Notes,
) -> Result<(), Shortage>
    ensures { OnOk result (plain_notes notes.new
        ≡ noted (map plain_implicit found.now) (plain_notes notes.old)
        (spec.in_act (plain_signature sig.now) (map plain_implicit found.now)
        (plain_scope binders.now checked) (plain_place (option_copied place.entry)) (desugared_elim act.now))) }
{
    match act {
        PElim::Arg { mode: _, obj } => {
            note_object(
                obj,
                alloc,
                sig,
                found,
                binders,
                checked,
                function_parts(place).domain,
                notes,
            )
        }
        PElim::First | PElim::Second => Ok(()),
    }
}

/// Notes the occurrences in a monadic object, of whose tuple these entries are wanted.
#[cycle(objects)]
#[tactic(auto, using(celf_names::proofs::Forms::expression_laws, crate::specs::Noting::expression_noted_laws))]
fn note_expression<'a>(
    expr: &'a PExpr,
    alloc: Global,
    sig: &'a Signature,
    found: &'a [Implicit],
    outer: &Binders<'a>,
    outer_checked: bool,
    wanted: &'a [SimpleEntry],
    notes: &mut Notes,
) -> Result<(), Shortage>
    ensures { OnOk result (plain_notes notes.new
        ≡ noted (map plain_implicit found.now) (plain_notes notes.old) (spec.in_steps
        (plain_signature sig.now) (map plain_implicit found.now)
        (plain_scope outer.now outer_checked) (desugared_expression expr.now).0
        ++ spec.in_tuple (plain_signature sig.now) (map plain_implicit found.now)
        (spec.after_steps (plain_signature sig.now) (map plain_implicit found.now)
        (plain_scope outer.now outer_checked) (desugared_expression expr.now).0)
        (map plain_simple_entry wanted.now) (desugared_expression expr.now).1)) }
{
    let mut binders = outer.copy(alloc)?;
    let mut checked = outer_checked;
    for step in expr.steps.as_slice() {
        checked = note_step(step, alloc, sig, found, &mut binders, checked, notes)?;
    }
    note_tuple(
        expr.result.as_slice(),
        alloc,
        sig,
        found,
        &binders,
        checked,
        wanted,
        notes,
    )
}

/// Notes the occurrences in a step, whose pattern is bound. It answers whether what stands after it is checked.
#[cycle(objects)]
#[tactic(auto, using(celf_sugar::specs::Plain::step_laws, crate::specs::Noting::spine_noted_laws))]
fn note_step<'a>(
    step: &'a PStep,
    alloc: Global,
    sig: &'a Signature,
    found: &'a [Implicit],
    binders: &mut Binders<'a>,
    checked: bool,
    notes: &mut Notes,
) -> Result<bool, Shortage>
    ensures { IfOk result (λ later.
        (plain_notes notes.new, plain_scope binders.new later)
        ≡ after_one_step (plain_signature sig.now) (map plain_implicit found.now)
        (plain_notes notes.old, plain_scope binders.old checked) (desugared_step step.now)) }
{
    let spine = step.spine.as_slice();
    let loose = is_open(sig, found, binders, &step.head)?;
    note_head(
        alloc, sig, found, binders, checked, loose, &step.head, None, None, notes,
    )?;
    let own = head_place(sig, found, binders, &step.head)?;
    note_spine(
        spine,
        alloc,
        sig,
        found,
        binders,
        checked && !loose,
        own,
        notes,
    )?;
    binders.bind_pattern(
        entries_at(behind_spine(own, spine)),
        step.pattern.as_slice(),
    )?;
    Ok(checked && !loose)
}

#[cycle(objects)]
fn note_tuple<'a>(
    tuple: &'a [PMarked],
    alloc: Global,
    sig: &'a Signature,
    found: &'a [Implicit],
    binders: &Binders<'a>,
    checked: bool,
    wanted: &'a [SimpleEntry],
    notes: &mut Notes,
) -> Result<(), Shortage>
    ensures { OnOk result (plain_notes notes.new
        ≡ (left_along (after_marked (plain_signature sig.now) (map plain_implicit found.now)
        (plain_scope binders.now checked)) (plain_notes notes.old, map plain_simple_entry wanted.now)
        (map desugared_marked tuple.now)).0) }
{
    let mut wanted = wanted;
    for entry in tuple {
        let next = next_part(wanted);
        note_entry(
            entry, alloc, sig, found, binders, checked, next.place, notes,
        )?;
        wanted = next.later;
    }
    Ok(())
}

#[cycle(objects)]
#[tactic(auto, using(celf_sugar::specs::Plain::marked_laws))]
fn note_entry<'a>(
    entry: &'a PMarked,
    alloc: Global,
    sig: &'a Signature,
    found: &'a [Implicit],
    binders: &Binders<'a>,
    checked: bool,
    place: Option<&'a Simple>,
    notes: &mut Notes,
) -> Result<(), Shortage>
    ensures { OnOk result (plain_notes notes.new
        ≡ noted (map plain_implicit found.now) (plain_notes notes.old)
        (spec.in_object (plain_signature sig.now) (map plain_implicit found.now)
        (plain_scope binders.now checked) (plain_place (option_copied place.entry))
        (desugared_marked entry.now).1)) }
{
    note_object(
        &entry.obj, alloc, sig, found, binders, checked, place, notes,
    )
}
