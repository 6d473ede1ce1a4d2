//! The first name without a meaning.
ghost use Rattle.std.specs.Prelude.{◌≡◌, ◌++◌, map, IfOk, OnOk, option_copied};
ghost use Rattle.std.specs.List.{flat_map};
ghost use Rattle.clf_sig.specs.Signature.{plain_signature};
ghost use Rattle.celf_sugar.specs.Earliest.{earliest};
ghost use Rattle.celf_sugar.specs.Plain.{desugared_object, desugared_elim, desugared_step, desugared_marked, desugared_expression, desugared_type, desugared_entry, desugared_telescope, desugared_item, class_of};
ghost use Rattle.celf_unknown.specs.Unknown as spec;
ghost use Rattle.celf_unknown.specs.UnknownLists.{unknown_along, unknown_in_marked, unknown_in_step, bound_by_step, unknown_in_entry, bound_by_entry};

use crate::earliest::sooner;
use celf_names::{Scope, family_named};
use celf_sugar::{
    PClass, PElim, PEntry, PExpr, PMarked, PName, PObj, PObjForm, PStep, PTele, PTy, PTyForm,
    Plain, PlainBody,
};
use clf_sig::Signature;
use std::alloc::{AllocError, Global};

/// The first name in an object that has no meaning, where these names are bound around it.
#[cycle(objects)]
#[tactic(auto, using(celf_names::proofs::Forms::object_laws, crate::proofs::Forms::joined_laws, crate::proofs::Forms::spine_laws, crate::proofs::Forms::scope_laws))]
fn unknown_in_object<'a>(
    obj: &'a PObj,
    sig: &Signature,
    scope: &mut Scope<'a>,
) -> Result<Option<&'a PName>, AllocError>
    ensures first { IfOk result (λ n.
        option_copied n
        ≡ earliest spec.place
        (spec.unknown_in_object (plain_signature sig.now) scope.old (desugared_object obj.now))) }
    ensures kept { OnOk result (scope.new ≡ scope.old) }
{
    match &obj.form {
        PObjForm::Lam {
            mode: _,
            name,
            body,
        } => {
            let outer = scope.len();
            scope.bind(name)?;
            let found = unknown_in_object(body.get(), sig, scope)?;
            scope.keep(outer);
            Ok(found)
        }
        PObjForm::Pair { left, right } => {
            let first = unknown_in_object(left.get(), sig, scope)?;
            let other = unknown_in_object(right.get(), sig, scope)?;
            Ok(sooner(first, other))
        }
        PObjForm::Mon { expr } => {
            let outer = scope.len();
            let found = unknown_in_expression(expr, sig, scope)?;
            scope.keep(outer);
            Ok(found)
        }
        PObjForm::At { head, spine } => {
            let first = unknown_head(head, sig, scope);
            let other = unknown_in_spine(spine.as_slice(), sig, scope)?;
            Ok(sooner(first, other))
        }
        PObjForm::Unit | PObjForm::Hole => Ok(None),
    }
}

/// The name of an object, where it has no meaning.
fn unknown_head<'a>(head: &'a PName, sig: &Signature, scope: &Scope<'a>) -> Option<&'a PName>
    ensures { option_copied result
        ≡ earliest spec.place (spec.unknown_head (plain_signature sig.now) scope.now head.now) }
{
    if scope.knows(sig, head) {
        None
    } else {
        Some(head)
    }
}

#[cycle(objects)]
fn unknown_in_spine<'a>(
    spine: &'a [PElim],
    sig: &Signature,
    scope: &mut Scope<'a>,
) -> Result<Option<&'a PName>, AllocError>
    ensures first { IfOk result (λ n.
        option_copied n
        ≡ earliest spec.place (flat_map (spec.unknown_in_act (plain_signature sig.now) scope.old)
        (map desugared_elim spine.now))) }
    ensures kept { OnOk result (scope.new ≡ scope.old) }
{
    let mut found = None;
    for act in spine {
        found = sooner(found, unknown_in_act(act, sig, scope)?);
    }
    Ok(found)
}

#[cycle(objects)]
#[tactic(auto, using(celf_sugar::specs::Plain::elim_laws))]
fn unknown_in_act<'a>(
    act: &'a PElim,
    sig: &Signature,
    scope: &mut Scope<'a>,
) -> Result<Option<&'a PName>, AllocError>
    ensures first { IfOk result (λ n.
        option_copied n
        ≡ earliest spec.place
        (spec.unknown_in_act (plain_signature sig.now) scope.old (desugared_elim act.now))) }
    ensures kept { OnOk result (scope.new ≡ scope.old) }
{
    match act {
        PElim::Arg { mode: _, obj } => unknown_in_object(obj, sig, scope),
        PElim::First | PElim::Second => Ok(None),
    }
}

/// The first one in an expression, whose steps stay bound.
#[cycle(objects)]
#[tactic(auto, using(celf_names::proofs::Forms::expression_laws, crate::proofs::Forms::joined_laws, crate::specs::UnknownLists::listed_laws))]
fn unknown_in_expression<'a>(
    expr: &'a PExpr,
    sig: &Signature,
    scope: &mut Scope<'a>,
) -> Result<Option<&'a PName>, AllocError>
    ensures first { IfOk result (λ n.
        option_copied n
        ≡ earliest spec.place (spec.unknown_in_steps (plain_signature sig.now) scope.old
        (desugared_expression expr.now).0
        ++ spec.unknown_in_tuple (plain_signature sig.now)
        (scope.old ++ spec.bound_by_steps (desugared_expression expr.now).0)
        (desugared_expression expr.now).1)) }
    ensures bound { OnOk result (scope.new ≡ scope.old ++ spec.bound_by_steps (desugared_expression expr.now).0) }
{
    let first = unknown_in_steps(expr.steps.as_slice(), sig, scope)?;
    let other = unknown_in_tuple(expr.result.as_slice(), sig, scope)?;
    Ok(sooner(first, other))
}

/// The first one in steps, which stay bound.
#[cycle(objects)]
fn unknown_in_steps<'a>(
    steps: &'a [PStep],
    sig: &Signature,
    scope: &mut Scope<'a>,
) -> Result<Option<&'a PName>, AllocError>
    ensures first { IfOk result (λ n.
        option_copied n
        ≡ earliest spec.place (unknown_along (unknown_in_step (plain_signature sig.now)) bound_by_step scope.old
        (map desugared_step steps.now))) }
    ensures bound { OnOk result (scope.new ≡ scope.old ++ flat_map bound_by_step (map desugared_step steps.now)) }
{
    let mut found = None;
    for step in steps {
        found = sooner(found, unknown_in_one_step(step, sig, scope)?);
    }
    Ok(found)
}

/// The first one in a step, which stays bound.
#[cycle(objects)]
#[tactic(auto, using(celf_sugar::specs::Plain::step_laws, crate::proofs::Forms::joined_laws, crate::proofs::Forms::spine_laws))]
fn unknown_in_one_step<'a>(
    step: &'a PStep,
    sig: &Signature,
    scope: &mut Scope<'a>,
) -> Result<Option<&'a PName>, AllocError>
    ensures first { IfOk result (λ n.
        option_copied n
        ≡ earliest spec.place (unknown_in_step (plain_signature sig.now) scope.old (desugared_step step.now))) }
    ensures bound { OnOk result (scope.new ≡ scope.old ++ bound_by_step (desugared_step step.now)) }
{
    let first = unknown_head(&step.head, sig, scope);
    let other = unknown_in_spine(step.spine.as_slice(), sig, scope)?;
    scope.bind_pattern(step.pattern.as_slice())?;
    Ok(sooner(first, other))
}

#[cycle(objects)]
fn unknown_in_tuple<'a>(
    tuple: &'a [PMarked],
    sig: &Signature,
    scope: &mut Scope<'a>,
) -> Result<Option<&'a PName>, AllocError>
    ensures first { IfOk result (λ n.
        option_copied n
        ≡ earliest spec.place (flat_map (unknown_in_marked (plain_signature sig.now) scope.old)
        (map desugared_marked tuple.now))) }
    ensures kept { OnOk result (scope.new ≡ scope.old) }
{
    let mut found = None;
    for entry in tuple {
        found = sooner(found, unknown_in_tuple_entry(entry, sig, scope)?);
    }
    Ok(found)
}

#[cycle(objects)]
#[tactic(auto, using(celf_sugar::specs::Plain::marked_laws))]
fn unknown_in_tuple_entry<'a>(
    entry: &'a PMarked,
    sig: &Signature,
    scope: &mut Scope<'a>,
) -> Result<Option<&'a PName>, AllocError>
    ensures first { IfOk result (λ n.
        option_copied n
        ≡ earliest spec.place
        (unknown_in_marked (plain_signature sig.now) scope.old (desugared_marked entry.now))) }
    ensures kept { OnOk result (scope.new ≡ scope.old) }
{
    unknown_in_object(&entry.obj, sig, scope)
}

/// The first name in a type that has no meaning, where these names are bound around it.
#[cycle(types)]
#[tactic(auto, using(celf_names::proofs::Forms::type_laws, crate::proofs::Forms::joined_laws, crate::proofs::Forms::scope_laws))]
fn unknown_in_type<'a>(
    ty: &'a PTy,
    sig: &Signature,
    scope: &mut Scope<'a>,
) -> Result<Option<&'a PName>, AllocError>
    ensures first { IfOk result (λ n.
        option_copied n
        ≡ earliest spec.place
        (spec.unknown_in_type (plain_signature sig.now) scope.old (desugared_type ty.now))) }
    ensures kept { OnOk result (scope.new ≡ scope.old) }
{
    match &ty.form {
        PTyForm::Family { head, indices } => {
            let first = unknown_family(head, sig);
            let other = unknown_in_indices(indices.as_slice(), sig, scope)?;
            Ok(sooner(first, other))
        }
        PTyForm::Fun {
            mode: _,
            name,
            dom,
            cod,
        } => {
            let first = unknown_in_type(dom.get(), sig, scope)?;
            let outer = scope.len();
            scope.bind(name)?;
            let other = unknown_in_type(cod.get(), sig, scope)?;
            scope.keep(outer);
            Ok(sooner(first, other))
        }
        PTyForm::With { left, right } => {
            let first = unknown_in_type(left.get(), sig, scope)?;
            let other = unknown_in_type(right.get(), sig, scope)?;
            Ok(sooner(first, other))
        }
        PTyForm::Top => Ok(None),
        PTyForm::Monad { tele } => unknown_in_telescope(tele, sig, scope),
    }
}

/// The name of a type, where it has no meaning.
fn unknown_family<'a>(head: &'a PName, sig: &Signature) -> Option<&'a PName>
    ensures { option_copied result ≡ earliest spec.place (spec.unknown_family (plain_signature sig.now) head.now) }
{
    if family_named(sig, head.name.as_str()).is_some() {
        None
    } else {
        Some(head)
    }
}

fn unknown_in_indices<'a>(
    indices: &'a [PObj],
    sig: &Signature,
    scope: &mut Scope<'a>,
) -> Result<Option<&'a PName>, AllocError>
    ensures first { IfOk result (λ n.
        option_copied n
        ≡ earliest spec.place (flat_map (spec.unknown_in_object (plain_signature sig.now) scope.old)
        (map desugared_object indices.now))) }
    ensures kept { OnOk result (scope.new ≡ scope.old) }
{
    let mut found = None;
    for index in indices {
        found = sooner(found, unknown_in_object(index, sig, scope)?);
    }
    Ok(found)
}

#[cycle(types)]
#[tactic(auto, using(celf_names::proofs::Forms::telescope_laws, crate::proofs::Forms::telescope_list_laws, crate::proofs::Forms::scope_laws))]
fn unknown_in_telescope<'a>(
    tele: &'a PTele,
    sig: &Signature,
    scope: &mut Scope<'a>,
) -> Result<Option<&'a PName>, AllocError>
    ensures first { IfOk result (λ n.
        option_copied n
        ≡ earliest spec.place
        (spec.unknown_in_telescope (plain_signature sig.now) scope.old (desugared_telescope tele.now))) }
    ensures kept { OnOk result (scope.new ≡ scope.old) }
{
    let outer = scope.len();
    let found = unknown_in_entries(tele.entries.as_slice(), sig, scope)?;
    scope.keep(outer);
    Ok(found)
}

/// The first one in entries, which stay bound.
#[cycle(types)]
fn unknown_in_entries<'a>(
    entries: &'a [PEntry],
    sig: &Signature,
    scope: &mut Scope<'a>,
) -> Result<Option<&'a PName>, AllocError>
    ensures first { IfOk result (λ n.
        option_copied n
        ≡ earliest spec.place (unknown_along (unknown_in_entry (plain_signature sig.now)) bound_by_entry
        scope.old (map desugared_entry entries.now))) }
    ensures bound { OnOk result (scope.new ≡ scope.old ++ flat_map bound_by_entry (map desugared_entry entries.now)) }
{
    let mut found = None;
    for entry in entries {
        found = sooner(found, unknown_in_one_entry(entry, sig, scope)?);
    }
    Ok(found)
}

/// The first one in an entry, which stays bound.
#[cycle(types)]
#[tactic(auto, using(celf_sugar::specs::Plain::entry_laws))]
fn unknown_in_one_entry<'a>(
    entry: &'a PEntry,
    sig: &Signature,
    scope: &mut Scope<'a>,
) -> Result<Option<&'a PName>, AllocError>
    ensures first { IfOk result (λ n.
        option_copied n
        ≡ earliest spec.place
        (unknown_in_entry (plain_signature sig.now) scope.old (desugared_entry entry.now))) }
    ensures bound { OnOk result (scope.new ≡ scope.old ++ bound_by_entry (desugared_entry entry.now)) }
{
    let found = unknown_in_type(&entry.ty, sig, scope)?;
    scope.bind(&entry.name)?;
    Ok(found)
}

/// The first name of an item that has no meaning at its place. It fails only where memory runs out.
pub fn first_unknown<'a>(
    alloc: Global,
    sig: &Signature,
    item: &'a Plain,
) -> Result<Option<&'a PName>, AllocError>
    ensures { IfOk result
        (λ n. option_copied n ≡ spec.first_unknown (plain_signature sig.now) (desugared_item item.now)) }
{
    let mut scope = Scope::new(alloc);
    match &item.body {
        PlainBody::Declare {
            name: _,
            implicit: _,
            class,
        } => unknown_in_class(class, sig, &mut scope),
        PlainBody::Query {
            d: _,
            e: _,
            l: _,
            a: _,
            ty,
        } => unknown_in_type(ty, sig, &mut scope),
        PlainBody::Trace { n: _, tele } => unknown_in_telescope(tele, sig, &mut scope),
        PlainBody::Equal { left, right, ty } => {
            unknown_in_equation(left, right, ty, sig, &mut scope)
        }
        PlainBody::Check { obj, ty } => unknown_in_check(obj, ty, sig, &mut scope),
    }
}

/// The first one in two objects and their type.
#[tactic(auto, using(crate::proofs::Forms::joined_laws))]
fn unknown_in_equation<'a>(
    left: &'a PObj,
    right: &'a PObj,
    ty: &'a PTy,
    sig: &Signature,
    scope: &mut Scope<'a>,
) -> Result<Option<&'a PName>, AllocError>
    ensures { IfOk result (λ n.
        option_copied n
        ≡ earliest spec.place (spec.unknown_in_object (plain_signature sig.now) scope.old
        (desugared_object left.now)
        ++ (spec.unknown_in_object (plain_signature sig.now) scope.old (desugared_object right.now)
        ++ spec.unknown_in_type (plain_signature sig.now) scope.old (desugared_type ty.now)))) }
{
    let first = unknown_in_object(left, sig, scope)?;
    let other = unknown_in_check(right, ty, sig, scope)?;
    Ok(sooner(first, other))
}

/// The first one in an object and its type.
#[tactic(auto, using(crate::proofs::Forms::joined_laws))]
fn unknown_in_check<'a>(
    obj: &'a PObj,
    ty: &'a PTy,
    sig: &Signature,
    scope: &mut Scope<'a>,
) -> Result<Option<&'a PName>, AllocError>
    ensures { IfOk result (λ n.
        option_copied n
        ≡ earliest spec.place (spec.unknown_in_object (plain_signature sig.now) scope.old
        (desugared_object obj.now)
        ++ spec.unknown_in_type (plain_signature sig.now) scope.old (desugared_type ty.now))) }
{
    let first = unknown_in_object(obj, sig, scope)?;
    let other = unknown_in_type(ty, sig, scope)?;
    Ok(sooner(first, other))
}

/// The first one in what a declaration declares.
fn unknown_in_class<'a>(
    class: &'a PClass,
    sig: &Signature,
    scope: &mut Scope<'a>,
) -> Result<Option<&'a PName>, AllocError>
    ensures { IfOk result (λ n.
        option_copied n
        ≡ earliest spec.place
        (spec.unknown_in_class (plain_signature sig.now) scope.old (class_of class.now))) }
{
    match class {
        PClass::Family(tele) => unknown_in_telescope(tele, sig, scope),
        PClass::Constant(ty) => unknown_in_type(ty, sig, scope),
    }
}
