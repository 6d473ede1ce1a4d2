//! Neutrals with their simple types, and what is done to them.
ghost use Rattle.std.specs.Prelude.{◌≡◌, IfOk, map, option_copied};
ghost use Rattle.clf_syntax.specs.Plain.{plain_obj, plain_neutral};
ghost use Rattle.clf_syntax.specs.PlainSimple.{plain_simple};
ghost use Rattle.clf_syntax.specs.Tree as core;
ghost use Rattle.clf_syntax.specs.declared.tree.Head.TheVariants.{Var};
ghost use Rattle.eta_laws.specs.Eta.{expansion};
ghost use Rattle.clf_sig.specs.Signature.{plain_signature};
ghost use Rattle.celf_explicit.specs.Objects.{long_at};
ghost use Rattle.celf_elaboration.specs.Readings.{blank_at};
ghost use Rattle.celf_places.specs.Locals.{plain_place};
ghost use Rattle.celf_filled.specs.Scopes.{plain_scope, plain_named};
ghost use Rattle.celf_filled.specs.States.{state_of};
ghost use Rattle.celf_filled.specs.Headed.{plain_headed, plain_meaning};
ghost use Rattle.celf_filled.specs.Walk as spec;

use crate::heads::{Meaning, meaning_of};
use crate::places::fill_place;
use crate::scope::Scope;
use celf_constraints::is_blank;
use celf_implicit::Implicit;
use celf_places::{function_parts, pair_parts};
use celf_sugar::PName;
use clf_sig::Signature;
use clf_simple::eta;
use clf_syntax::{Elim, Head, Mode, Neutral, Obj, Or, Shortage, Simple};
use hered_put::with_elimination;
use metavars::Store;
use sqlite_items::Items;
use std::alloc::{AllocError, Global};

/// A neutral with its simple type, if that is known.
#[derive(Drop)]
pub struct Headed<'a> {
    pub neutral: Neutral,
    pub place: Option<&'a Simple>,
}

/// A head alone.
#[tactic(auto, using(clf_syntax::specs::Plain::plain_laws))]
fn bare(alloc: Global, head: Head) -> Neutral
    ensures { plain_neutral result ≡ core.head_alone head }
{
    Neutral {
        head,
        spine: Items::new(alloc),
    }
}

/// A neutral applied to an object.
#[tactic(auto, using(clf_syntax::specs::Plain::plain_laws))]
pub fn applied(neutral: Neutral, mode: Mode, obj: Obj) -> Result<Neutral, AllocError>
    ensures { IfOk result (λ n. plain_neutral n ≡ core.app mode (plain_neutral neutral) (plain_obj obj)) }
{
    with_elimination(neutral, Elim::Arg { mode, obj })
}

/// The first part of a pair.
#[tactic(auto, using(clf_syntax::specs::Plain::plain_laws))]
pub fn first_of<'a>(headed: Headed<'a>) -> Result<Headed<'a>, AllocError>
    ensures { IfOk result (λ h. plain_headed h ≡ spec.first_of (plain_headed headed.entry)) }
{
    let place = pair_parts(headed.place).left;
    Ok(Headed {
        neutral: with_elimination(headed.neutral, Elim::First)?,
        place,
    })
}

/// The second part of a pair.
#[tactic(auto, using(clf_syntax::specs::Plain::plain_laws))]
pub fn second_of<'a>(headed: Headed<'a>) -> Result<Headed<'a>, AllocError>
    ensures { IfOk result (λ h. plain_headed h ≡ spec.second_of (plain_headed headed.entry)) }
{
    let place = pair_parts(headed.place).right;
    Ok(Headed {
        neutral: with_elimination(headed.neutral, Elim::Second)?,
        place,
    })
}

/// What stands for a neutral whose head has no meaning: a hole is in it.
#[tactic(auto, using(clf_syntax::specs::Plain::plain_laws))]
fn nothing_read<'a>(alloc: Global) -> Result<Headed<'a>, AllocError>
    ensures { IfOk result (λ h. plain_headed h ≡ spec.nothing_read) }
{
    Ok(Headed {
        neutral: applied(bare(alloc, Head::Var(0)), Mode::Linear, Obj::Hole)?,
        place: None,
    })
}

/// The head of a name with its implicit arguments, all of them filled in.
pub fn fill_head<'a>(
    sig: &'a Signature,
    variables: &'a [Implicit],
    scope: &Scope<'a>,
    name: &PName,
    store: &mut Store,
    whole: &mut bool,
) -> Result<Headed<'a>, Shortage>
    ensures { IfOk result (λ h.
        (plain_headed h, state_of store.new whole.new)
        ≡ spec.fill_head (plain_signature sig.now) (map plain_named variables.now) (plain_scope scope.now) name.now
        (state_of store.old whole.old)) }
{
    match meaning_of(sig, variables, scope, name)? {
        Some(meaning) => fill_arguments(scope, meaning, store, whole),
        None => {
            *whole = false;
            Ok(nothing_read(store.alloc())?)
        }
    }
}

/// A head with its implicit arguments.
fn fill_arguments<'a>(
    scope: &Scope<'a>,
    meaning: Meaning<'a>,
    store: &mut Store,
    whole: &mut bool,
) -> Result<Headed<'a>, Shortage>
    ensures { IfOk result (λ h.
        (plain_headed h, state_of store.new whole.new)
        ≡ spec.fill_implicit (plain_scope scope.now) (plain_meaning meaning.entry) (state_of store.old whole.old)) }
{
    let mut headed = Headed {
        neutral: bare(store.alloc(), meaning.head),
        place: meaning.place,
    };
    let mut left = meaning.implicit;
    while left > 0 {
        left -= 1;
        headed = fill_argument(scope, headed, store, whole)?;
    }
    Ok(headed)
}

/// One implicit argument more.
fn fill_argument<'a>(
    scope: &Scope<'a>,
    headed: Headed<'a>,
    store: &mut Store,
    whole: &mut bool,
) -> Result<Headed<'a>, Shortage>
    ensures { IfOk result (λ h.
        (plain_headed h, state_of store.new whole.new)
        ≡ spec.fill_argument (plain_scope scope.now) (plain_headed headed.entry, state_of store.old whole.old)) }
{
    let parts = function_parts(headed.place);
    let obj = fill_place(store, whole, scope, parts.domain)?;
    Ok(Headed {
        neutral: applied(headed.neutral, parts.mode, obj)?,
        place: parts.codomain,
    })
}

/// Whether a neutral is dropped at a place, since its type has one object alone.
pub fn is_dropped(place: Option<&Simple>) -> bool
    ensures { result ≡ blank_at (plain_place (option_copied place.entry)) }
{
    match place {
        Some(simple) => is_blank(simple),
        None => false,
    }
}

/// What stands at such a place.
pub fn only_object(alloc: Global, place: Option<&Simple>) -> Result<Obj, Shortage>
    ensures { IfOk result
        (λ o. plain_obj o ≡ long_at (plain_place (option_copied place.entry)) (core.head_alone (Var 0))) }
{
    long_form(alloc, bare(alloc, Head::Var(0)), place)
}

/// The long form of a neutral at a place. At a family a neutral stays as it is, and is not copied: so a deep object is
/// read in time linear in its size.
#[tactic(auto, using(clf_syntax::specs::Plain::plain_laws, clf_syntax::specs::PlainSimple::plain_simple_laws))]
pub fn long_form(alloc: Global, neutral: Neutral, place: Option<&Simple>) -> Result<Obj, Shortage>
    ensures { IfOk result
        (λ o. plain_obj o ≡ long_at (plain_place (option_copied place.entry)) (plain_neutral neutral)) }
{
    match place {
        None | Some(Simple::Atom(_)) => Ok(Obj::At { neutral }),
        Some(simple) => {
            let long = expanded(alloc, simple, &neutral);
            drop(neutral);
            long
        }
    }
}

/// The form in which a neutral is written out at a simple type.
fn expanded(alloc: Global, simple: &Simple, neutral: &Neutral) -> Result<Obj, Shortage>
    ensures { IfOk result (λ o. plain_obj o ≡ expansion (plain_simple simple.now) (plain_neutral neutral.now)) }
{
    match eta(alloc, simple, neutral) {
        Ok(obj) => Ok(obj),
        Err(Or::NoMemory) => Err(Shortage::Memory),
        Err(Or::Fault(_)) => Err(Shortage::Numbers),
    }
}
