//! The reading of objects.
ghost use Rattle.std.specs.Prelude.{◌≡◌, map, IfOk, OnOk, option_copied, option_map};
ghost use Rattle.clf_syntax.specs.Plain.{plain_obj, plain_elim, plain_neutral, plain_step, plain_entry};
ghost use Rattle.clf_syntax.specs.PlainSimple.{plain_simple, plain_simple_entry};
ghost use Rattle.eta_laws.specs.Eta.{expansion};
ghost use Rattle.clf_sig.specs.Signature.{plain_signature};
ghost use Rattle.celf_sugar.specs.PlainTree.{spine_of};
ghost use Rattle.celf_sugar.specs.Plain.{desugared_object, desugared_expression, desugared_elim, desugared_step, desugared_marked};
ghost use Rattle.celf_places.specs.Locals.{plain_place, plain_locals};
ghost use Rattle.celf_places.specs.Combined.{combined};
ghost use Rattle.celf_places.specs.Places.{behind_act as behind_act_of};
ghost use Rattle.celf_places.specs.Heads.{place_of_head};
ghost use Rattle.celf_explicit.specs.Objects as spec;
ghost use Rattle.celf_explicit.specs.Parts.{GrownFrom};
ghost use Rattle.celf_places.specs.Along.{read_along};
ghost use Rattle.celf_explicit.specs.Lists.{later_parts, read_marked as read_marked_of, read_step as read_step_of, behind_step};

use crate::trees::{applied, argument, lambda, monadic, pair, step, tuple_entry};
use celf_places::{
    Found, Locals, behind_act, behind_spine, boxed, entries_at, function_parts, head_of, marked,
    next_part, pair_parts,
};
use celf_sugar::{PBinder, PElim, PExpr, PMarked, PObj, PObjForm, PStep};
use clf_sig::Signature;
use clf_simple::eta;
use clf_syntax::{Elim, Modes, Neutral, Obj, Or, Shortage, Simple, SimpleEntry, Step, TupleEntry};
use sqlite_items::Items;
use std::alloc::Global;

/// The core of an object at a place, under these locals; none where something would have to be found, or where a name
/// in it has no meaning.
#[cycle(read)]
#[tactic(auto, using(celf_names::proofs::Forms::object_laws, crate::proofs::Forms::core_object_laws, crate::specs::Lists::object_list_laws))]
pub fn read_object<'a>(
    obj: &'a PObj,
    alloc: Global,
    sig: &'a Signature,
    place: Option<&'a Simple>,
    locals: &mut Locals<'a>,
) -> Result<Option<Obj>, Shortage>
    ensures read { IfOk result (λ o.
        option_map plain_obj o
        ≡ spec.read_object (plain_signature sig.now) (plain_locals locals.old)
        (plain_place (option_copied place.entry)) (desugared_object obj.now)) }
    ensures kept { OnOk result (locals.new ≡ locals.old) }
{
    match &obj.form {
        PObjForm::Lam { mode, name, body } => {
            let parts = function_parts(place);
            locals.push(name, parts.domain)?;
            let body = read_object(body.get(), alloc, sig, parts.codomain, locals);
            locals.pop();
            let body = boxed(alloc, body)?;
            Ok(lambda(marked(*mode, parts.mode), body))
        }
        PObjForm::Pair { left, right } => {
            let parts = pair_parts(place);
            let left = boxed(
                alloc,
                read_object(left.get(), alloc, sig, parts.left, locals),
            )?;
            let right = boxed(
                alloc,
                read_object(right.get(), alloc, sig, parts.right, locals),
            )?;
            Ok(pair(left, right))
        }
        PObjForm::Unit => Ok(Some(Obj::Unit)),
        PObjForm::Mon { expr } => {
            let outer = locals.len();
            let read = read_expression(expr, alloc, sig, entries_at(place), locals);
            locals.keep(outer);
            read
        }
        PObjForm::At { head, spine } => {
            let found = head_of(sig, locals, head)?;
            let neutral = read_neutral(spine.as_slice(), alloc, sig, found, locals)?;
            long(alloc, neutral, place)
        }
        PObjForm::Hole => Ok(None),
    }
}

/// What is done to a head, if there is one, with the head.
#[cycle(read)]
#[tactic(auto, using(crate::specs::Lists::object_list_laws))]
fn read_neutral<'a>(
    spine: &'a [PElim],
    alloc: Global,
    sig: &'a Signature,
    found: Option<Found<'a>>,
    locals: &mut Locals<'a>,
) -> Result<Option<Neutral>, Shortage>
    ensures read { IfOk result (λ n.
        option_map plain_neutral n
        ≡ combined spec.under_spine
        (option_map (λ h. (h.head, plain_place (option_copied h.place))) found.entry) (spec.read_spine
        (plain_signature sig.now) (plain_locals locals.old)
        (place_of_head (option_map (λ h. (h.head, plain_place (option_copied h.place))) found.entry))
        (spine_of (map desugared_elim spine.now)))) }
    ensures kept { OnOk result (locals.new ≡ locals.old) }
{
    match found {
        Some(found) => {
            let spine = read_spine(spine, alloc, sig, found.place, locals)?;
            Ok(applied(found.head, spine))
        }
        None => Ok(None),
    }
}

/// The long form of a neutral at a place.
fn long(
    alloc: Global,
    neutral: Option<Neutral>,
    place: Option<&Simple>,
) -> Result<Option<Obj>, Shortage>
    ensures { IfOk result (λ o.
        option_map plain_obj o
        ≡ option_map (spec.long_at (plain_place (option_copied place.entry)))
        (option_map plain_neutral neutral)) }
{
    match neutral {
        Some(neutral) => Ok(Some(long_neutral(alloc, neutral, place)?)),
        None => Ok(None),
    }
}

/// At a family a neutral stays as it is, and is not copied: so a deep object is read in time linear in its size.
#[tactic(auto, using(clf_syntax::specs::Plain::plain_laws, clf_syntax::specs::PlainSimple::plain_simple_laws))]
fn long_neutral(alloc: Global, neutral: Neutral, place: Option<&Simple>) -> Result<Obj, Shortage>
    ensures { IfOk result
        (λ o. plain_obj o ≡ spec.long_at (plain_place (option_copied place.entry)) (plain_neutral neutral)) }
{
    match place {
        None | Some(Simple::Atom(_)) => Ok(Obj::At { neutral }),
        Some(simple) => {
            let long = expanded(alloc, simple, &neutral);
            drop(neutral);
            long
        }
    }
}

/// The form in which a neutral is written out at a simple type.
fn expanded(alloc: Global, simple: &Simple, neutral: &Neutral) -> Result<Obj, Shortage>
    ensures { IfOk result (λ o. plain_obj o ≡ expansion (plain_simple simple.now) (plain_neutral neutral.now)) }
{
    match eta(alloc, simple, neutral) {
        Ok(obj) => Ok(obj),
        Err(Or::NoMemory) => Err(Shortage::Memory),
        Err(Or::Fault(_)) => Err(Shortage::Numbers),
    }
}

/// What is done to a head of this simple type.
#[cycle(read)]
fn read_spine<'a>(
    spine: &'a [PElim],
    alloc: Global,
    sig: &'a Signature,
    place: Option<&'a Simple>,
    locals: &mut Locals<'a>,
) -> Result<Option<Items<Elim>>, Shortage>
    ensures read { IfOk result (λ es.
        option_map (map plain_elim) es
        ≡ read_along (spec.read_act (plain_signature sig.now) (plain_locals locals.old)) behind_act_of
        (plain_place (option_copied place.entry)) (map desugared_elim spine.now)) }
    ensures kept { OnOk result (locals.new ≡ locals.old) }
{
    let mut elims = Items::new(alloc);
    let mut place = place;
    for act in spine {
        match read_act(act, alloc, sig, place, locals)? {
            Some(elim) => elims.push(elim)?,
            None => return Ok(None),
        }
        place = behind_act(place, act);
    }
    Ok(Some(elims))
}

#[cycle(read)]
#[tactic(auto, using(celf_sugar::specs::Plain::elim_laws, crate::proofs::Forms::core_elim_laws))]
fn read_act<'a>(
    act: &'a PElim,
    alloc: Global,
    sig: &'a Signature,
    place: Option<&'a Simple>,
    locals: &mut Locals<'a>,
) -> Result<Option<Elim>, Shortage>
    ensures read { IfOk result (λ e.
        option_map plain_elim e
        ≡ spec.read_act (plain_signature sig.now) (plain_locals locals.old)
        (plain_place (option_copied place.entry)) (desugared_elim act.now)) }
    ensures kept { OnOk result (locals.new ≡ locals.old) }
{
    match act {
        PElim::Arg { mode, obj } => {
            let parts = function_parts(place);
            let obj = read_object(obj, alloc, sig, parts.domain, locals)?;
            Ok(argument(marked(*mode, parts.mode), obj))
        }
        PElim::First => Ok(Some(Elim::First)),
        PElim::Second => Ok(Some(Elim::Second)),
    }
}

/// A monadic object, of whose tuple these entries are wanted. The binders of its steps stay among the locals.
#[cycle(read)]
#[tactic(auto, using(celf_names::proofs::Forms::expression_laws, crate::specs::Lists::expression_list_laws))]
fn read_expression<'a>(
    expr: &'a PExpr,
    alloc: Global,
    sig: &'a Signature,
    wanted: &'a [SimpleEntry],
    locals: &mut Locals<'a>,
) -> Result<Option<Obj>, Shortage>
    ensures read { IfOk result (λ o.
        option_map plain_obj o
        ≡ combined spec.expression_of (spec.read_steps (plain_signature sig.now) (plain_locals locals.old)
        (desugared_expression expr.now).0) (spec.read_tuple (plain_signature sig.now) (spec.with_steps
        (plain_signature sig.now) (plain_locals locals.old) (desugared_expression expr.now).0)
        (map plain_simple_entry wanted.now) (desugared_expression expr.now).1)) }
    ensures grown { OnOk result (GrownFrom locals.old locals.new) }
{
    let mut steps = Items::new(alloc);
    for step in expr.steps.as_slice() {
        match read_step(step, alloc, sig, locals)? {
            Some(step) => steps.push(step)?,
            None => return Ok(None),
        }
    }
    let result = read_tuple(expr.result.as_slice(), alloc, sig, wanted, locals)?;
    monadic(alloc, steps, result)
}

/// A step, whose binders stay among the locals.
#[cycle(read)]
#[tactic(auto, using(celf_sugar::specs::Plain::step_laws))]
fn read_step<'a>(
    written: &'a PStep,
    alloc: Global,
    sig: &'a Signature,
    locals: &mut Locals<'a>,
) -> Result<Option<Step>, Shortage>
    ensures read { IfOk result (λ s.
        option_map plain_step s
        ≡ read_step_of (plain_signature sig.now) (plain_locals locals.old) (desugared_step written.now)) }
    ensures bound { OnOk result (plain_locals locals.new
        ≡ behind_step (plain_signature sig.now) (plain_locals locals.old) (desugared_step written.now)) }
    ensures grown { OnOk result (GrownFrom locals.old locals.new) }
{
    let found = head_of(sig, locals, &written.head)?;
    let entries = entries_at(behind_spine(place_of(found), written.spine.as_slice()));
    let rhs = read_neutral(written.spine.as_slice(), alloc, sig, found, locals)?;
    let modes = bind_pattern(written.pattern.as_slice(), alloc, entries, locals)?;
    Ok(step(modes, rhs))
}

/// The simple type of a head.
fn place_of<'a>(found: Option<Found<'a>>) -> Option<&'a Simple>
    ensures { plain_place (option_copied result)
        ≡ place_of_head (option_map (λ h. (h.head, plain_place (option_copied h.place))) found.entry) }
{
    let found = found?;
    found.place
}

/// Binds a pattern of these entries, and answers its modes.
fn bind_pattern<'a>(
    pattern: &'a [PBinder],
    alloc: Global,
    entries: &'a [SimpleEntry],
    locals: &mut Locals<'a>,
) -> Result<Modes, Shortage>
    ensures modes { IfOk result (λ ms. ms ≡ spec.pattern_modes (map plain_simple_entry entries.now) pattern.now) }
    ensures bound { OnOk result (plain_locals locals.new
        ≡ spec.with_pattern (plain_locals locals.old) (map plain_simple_entry entries.now) pattern.now) }
    ensures grown { OnOk result (GrownFrom locals.old locals.new) }
{
    let mut modes = Modes::empty(alloc);
    let mut wanted = entries;
    for binder in pattern {
        let next = next_part(wanted);
        modes.push(marked(binder.mode, next.mode))?;
        locals.push(&binder.name, next.place)?;
        wanted = next.later;
    }
    Ok(modes)
}

#[cycle(read)]
fn read_tuple<'a>(
    tuple: &'a [PMarked],
    alloc: Global,
    sig: &'a Signature,
    wanted: &'a [SimpleEntry],
    locals: &mut Locals<'a>,
) -> Result<Option<Items<TupleEntry>>, Shortage>
    ensures read { IfOk result (λ es.
        option_map (map plain_entry) es
        ≡ read_along (read_marked_of (plain_signature sig.now) (plain_locals locals.old)) later_parts
        (map plain_simple_entry wanted.now) (map desugared_marked tuple.now)) }
    ensures kept { OnOk result (locals.new ≡ locals.old) }
{
    let mut entries = Items::new(alloc);
    let mut wanted = wanted;
    for entry in tuple {
        match read_marked(entry, alloc, sig, wanted, locals)? {
            Some(entry) => entries.push(entry)?,
            None => return Ok(None),
        }
        wanted = next_part(wanted).later;
    }
    Ok(Some(entries))
}

#[cycle(read)]
#[tactic(auto, using(celf_sugar::specs::Plain::marked_laws))]
fn read_marked<'a>(
    entry: &'a PMarked,
    alloc: Global,
    sig: &'a Signature,
    wanted: &'a [SimpleEntry],
    locals: &mut Locals<'a>,
) -> Result<Option<TupleEntry>, Shortage>
    ensures read { IfOk result (λ e.
        option_map plain_entry e
        ≡ read_marked_of (plain_signature sig.now) (plain_locals locals.old) (map plain_simple_entry wanted.now)
        (desugared_marked entry.now)) }
    ensures kept { OnOk result (locals.new ≡ locals.old) }
{
    let next = next_part(wanted);
    let obj = read_object(&entry.obj, alloc, sig, next.place, locals)?;
    Ok(tuple_entry(marked(entry.mode, next.mode), obj))
}
