//! The distinct locals that a variable is applied to.
ghost use Rattle.std.specs.Prelude.{◌≡◌, map, IfOk, option_copied, option_map};
ghost use Rattle.std.specs.List.{list_any};
ghost use Rattle.clf_syntax.specs.TypeTree.{arrow};
ghost use Rattle.celf_sugar.specs.PlainTree.{spine_of};
ghost use Rattle.celf_sugar.specs.Plain.{desugared_object, desugared_elim};
ghost use Rattle.celf_places.specs.Combined.{combined};
ghost use Rattle.celf_places.specs.Locals.{plain_place};
ghost use Rattle.celf_implicit.specs.Occurrences as spec;
ghost use Rattle.celf_implicit.specs.Rounds.{argument_of, from_locals};
ghost use Rattle.celf_implicit.specs.Noting.{plain_applied, plain_binders, local_written};

use crate::binders::Binders;
use crate::variable::Argument;
use celf_places::marked;
use celf_sugar::{PElim, PName, PObj, PObjForm};
use celf_surface::SMode;
use clf_syntax::{Head, Mode, Shortage, Simple};
use sqlite_items::{Boxed, Items};
use std::alloc::{AllocError, Global};

/// A local that a variable is applied to: its number, the mode that is written before it or else its own, and its
/// simple type, if that is known.
#[derive(Clone, Copy)]
pub struct AppliedLocal<'a> {
    pub mode: Mode,
    pub number: u32,
    pub place: Option<&'a Simple>,
}

/// The number of a variable.
fn number_of(head: Head) -> u32
    ensures { result ≡ spec.number_of head }
{
    match head {
        Head::Var(number) => number,
        Head::Const(_) | Head::Meta(_) => 0,
    }
}

/// The local of a name, to which a variable is applied in a mode that is written.
fn local_of_name<'a>(
    binders: &Binders<'a>,
    mode: SMode,
    name: &PName,
) -> Result<Option<AppliedLocal<'a>>, Shortage>
    ensures { IfOk result (λ a. option_map plain_applied a ≡ local_written (plain_binders binders.now) mode name.now) }
{
    if name.dollar {
        return Ok(None);
    }
    match binders.find(&name.name)? {
        Some(found) => {
            let number = number_of(found.head);
            Ok(Some(AppliedLocal {
                mode: marked(mode, binders.mode_of(number)),
                number,
                place: found.place,
            }))
        }
        None => Ok(None),
    }
}

/// The local whose name an argument is.
#[tactic(auto, using(celf_names::proofs::Forms::object_laws))]
fn local_named<'a>(
    binders: &Binders<'a>,
    mode: SMode,
    obj: &PObj,
) -> Result<Option<AppliedLocal<'a>>, Shortage>
    ensures { IfOk result (λ a.
        option_map plain_applied a ≡ spec.local_named (plain_binders binders.now) mode (desugared_object obj.now)) }
{
    match &obj.form {
        PObjForm::At { head, spine } => {
            if spine.is_empty() {
                local_of_name(binders, mode, head)
            } else {
                Ok(None)
            }
        }
        PObjForm::Lam { .. }
        | PObjForm::Pair { .. }
        | PObjForm::Unit
        | PObjForm::Mon { .. }
        | PObjForm::Hole => Ok(None),
    }
}

#[tactic(auto, using(celf_sugar::specs::Plain::elim_laws))]
fn local_argument<'a>(
    binders: &Binders<'a>,
    act: &PElim,
) -> Result<Option<AppliedLocal<'a>>, Shortage>
    ensures { IfOk result (λ a.
        option_map plain_applied a ≡ spec.local_argument (plain_binders binders.now) (desugared_elim act.now)) }
{
    match act {
        PElim::Arg { mode, obj } => local_named(binders, *mode, obj),
        PElim::First | PElim::Second => Ok(None),
    }
}

/// The locals that a variable is applied to, where it is applied to locals alone.
fn locals_applied_to<'a>(
    alloc: Global,
    binders: &Binders<'a>,
    spine: &[PElim],
) -> Result<Option<Items<AppliedLocal<'a>>>, Shortage>
    ensures { IfOk result (λ locals.
        option_map (map plain_applied) locals
        ≡ spec.locals_applied_to (plain_binders binders.now) (spine_of (map desugared_elim spine.now))) }
{
    let mut locals = Items::new(alloc);
    for act in spine {
        match local_argument(binders, act)? {
            Some(local) => locals.push(local)?,
            None => return Ok(None),
        }
    }
    Ok(Some(locals))
}

/// Whether one of the locals has this number.
fn any_has_number(locals: &[AppliedLocal], number: u32) -> bool
    ensures { result ≡ list_any (spec.has_number number) (map plain_applied locals.now) }
{
    for local in locals {
        if local.number == number {
            return true;
        }
    }
    false
}

/// Whether no two of the locals are the same one.
fn are_distinct(locals: &[AppliedLocal]) -> bool
    ensures { result ≡ spec.are_distinct (map plain_applied locals.now) }
{
    let mut left = locals;
    while let [local, others @ ..] = left {
        if any_has_number(others, local.number) {
            return false;
        }
        left = others;
    }
    true
}

/// The locals that a variable is applied to, where it is applied to distinct locals alone.
pub fn distinct_locals<'a>(
    alloc: Global,
    binders: &Binders<'a>,
    spine: &[PElim],
) -> Result<Option<Items<AppliedLocal<'a>>>, Shortage>
    ensures { IfOk result (λ locals.
        option_map (map plain_applied) locals
        ≡ spec.distinct_locals (plain_binders binders.now) (spine_of (map desugared_elim spine.now))) }
{
    match locals_applied_to(alloc, binders, spine)? {
        Some(locals) => Ok(where_distinct(locals)),
        None => Ok(None),
    }
}

fn where_distinct(locals: Items<AppliedLocal>) -> Option<Items<AppliedLocal>>
    ensures { option_map (map plain_applied) result ≡ spec.where_distinct (map plain_applied locals.entry) }
{
    if are_distinct(locals.as_slice()) {
        Some(locals)
    } else {
        None
    }
}

/// The locals as they are answered. It fails only where memory runs out.
pub fn arguments(alloc: Global, locals: &[AppliedLocal]) -> Result<Items<Argument>, AllocError>
    ensures { IfOk result (λ as_. as_ ≡ map argument_of (map plain_applied locals.now)) }
{
    let mut arguments = Items::new(alloc);
    for local in locals {
        arguments.push(Argument {
            mode: local.mode,
            number: local.number,
        })?;
    }
    Ok(arguments)
}

/// A simple type in a box, if there is one.
fn copied(alloc: Global, place: Option<&Simple>) -> Result<Option<Boxed<Simple>>, AllocError>
    ensures { IfOk result (λ t. plain_place t ≡ plain_place (option_copied place.entry)) }
{
    match place {
        Some(simple) => Ok(Some(Boxed::new(alloc, simple.copy(alloc)?)?)),
        None => Ok(None),
    }
}

/// A function from the simple type of a local.
#[tactic(auto, using(clf_syntax::specs::PlainSimple::plain_simple_laws))]
fn from_local(
    alloc: Global,
    local: AppliedLocal,
    codomain: Option<Boxed<Simple>>,
) -> Result<Option<Boxed<Simple>>, AllocError>
    ensures { IfOk result (λ t.
        plain_place t
        ≡ combined (arrow local.entry.mode) (plain_place (option_copied local.entry.place))
        (plain_place codomain)) }
{
    match (copied(alloc, local.place)?, codomain) {
        (Some(dom), Some(cod)) => Ok(Some(Boxed::new(
            alloc,
            Simple::Fun {
                mode: local.mode,
                dom,
                cod,
            },
        )?)),
        _ => Ok(None),
    }
}

/// The functions from the simple types of locals to what is wanted of a variable. It fails only where memory runs out.
pub fn from_locals(
    alloc: Global,
    locals: &[AppliedLocal],
    place: Option<&Simple>,
) -> Result<Option<Boxed<Simple>>, AllocError>
    ensures { IfOk result (λ t.
        plain_place t ≡ from_locals (map plain_applied locals.now) (plain_place (option_copied place.entry))) }
{
    let mut simple = copied(alloc, place)?;
    let mut left = locals.len();
    while left > 0 {
        left -= 1;
        simple = from_local(alloc, locals[left], simple)?;
    }
    Ok(simple)
}
