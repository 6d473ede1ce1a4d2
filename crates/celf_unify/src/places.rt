//! What is written on places: functions of them, lambdas for them, and metavariables applied to them.
ghost use Rattle.std.specs.Prelude.{◌≡◌, IfErr, IfOk, map};
ghost use Rattle.clf_syntax.specs.Plain.{plain_elim, plain_neutral, plain_obj};
ghost use Rattle.clf_syntax.specs.PlainSimple.{plain_simple};
ghost use Rattle.clf_syntax.specs.Tree.{app, arg, eliminated, head_alone, lam};
ghost use Rattle.clf_syntax.specs.TypeTree.{arrow};
ghost use Rattle.clf_syntax.specs.Wide.{IsWant};
ghost use Rattle.clf_syntax.specs.declared.tree.Head.TheVariants.{Meta, Var};
ghost use Rattle.eta_laws.specs.Eta.{eta as eta_long};
ghost use Rattle.pattern_laws.specs.Patterns.{arrows, lams, on};
ghost use Rattle.celf_constraints.specs.Reading.{plain_place};

use celf_constraints::Place;
use clf_simple::eta;
use clf_syntax::{Elim, Head, Mode, Neutral, Obj, Or, Simple, TooFar, Want};
use hered_put::with_elimination;
use sqlite_items::{Boxed, Items};
use std::alloc::{AllocError, Global};

/// The want of a call whose part failed.
pub fn want_of(alloc: Global, fault: Or<TooFar>) -> Want
    ensures { IsWant result }
{
    match fault {
        Or::Fault(_) => Want::too_far(alloc),
        Or::NoMemory => Want::NoMemory,
    }
}

/// A place's number in a tree.
pub fn numbered(alloc: Global, place: usize) -> Result<u32, Want>
    ensures number { IfOk result (λ n. n ≡ place) }
    ensures wanting { IfErr result IsWant }
{
    if place > u32::MAX as usize {
        return Err(Want::too_far(alloc));
    }
    Ok(place as u32)
}

/// A function of each place.
pub fn function_of(alloc: Global, places: &[Place<'_>], end: &Simple) -> Result<Simple, AllocError>
    ensures { IfOk result (λ t. plain_simple t ≡ arrows (map plain_place places.now) (plain_simple end.now)) }
{
    let mut ty = end.copy(alloc)?;
    for place in places {
        ty = function_from(alloc, place, ty)?;
    }
    Ok(ty)
}

/// A function of one place.
#[tactic(auto, using(clf_syntax::specs::PlainSimple::plain_simple_laws))]
fn function_from(alloc: Global, place: &Place<'_>, cod: Simple) -> Result<Simple, AllocError>
    ensures { IfOk result
        (λ t. plain_simple t ≡ arrow place.now.mode (plain_simple place.now.ty.now) (plain_simple cod)) }
{
    let dom = place.ty.copy(alloc)?;
    Ok(Simple::Fun {
        mode: place.mode,
        dom: Boxed::new(alloc, dom)?,
        cod: Boxed::new(alloc, cod)?,
    })
}

/// A lambda for each place around the body.
pub fn lambdas(alloc: Global, places: &[Place<'_>], body: Obj) -> Result<Obj, AllocError>
    ensures { IfOk result (λ o. plain_obj o ≡ lams (map plain_place places.now) (plain_obj body)) }
{
    let mut whole = body;
    for place in places {
        whole = with_lambda(alloc, place.mode, whole)?;
    }
    Ok(whole)
}

/// A lambda around the body.
#[tactic(auto, using(clf_syntax::specs::Plain::plain_laws))]
fn with_lambda(alloc: Global, mode: Mode, body: Obj) -> Result<Obj, AllocError>
    ensures { IfOk result (λ o. plain_obj o ≡ lam mode (plain_obj body)) }
{
    Ok(Obj::Lam {
        mode,
        body: Boxed::new(alloc, body)?,
    })
}

/// The metavariable on the eta-long forms of the places' variables, the last place first.
pub fn applied(alloc: Global, meta: u32, places: &[Place<'_>]) -> Result<Neutral, Want>
    ensures neutral { IfOk result
        (λ n. plain_neutral n ≡ on (map plain_place places.now) (head_alone (Meta meta))) }
    ensures wanting { IfErr result IsWant }
{
    let mut neutral = bare(alloc, Head::Meta(meta));
    let mut left = places.len();
    while left > 0 {
        left -= 1;
        neutral = applied_to(alloc, neutral, &places[left])?;
    }
    Ok(neutral)
}

/// A head alone.
#[tactic(auto, using(clf_syntax::specs::Plain::plain_laws))]
fn bare(alloc: Global, head: Head) -> Neutral
    ensures { plain_neutral result ≡ head_alone head }
{
    Neutral {
        head,
        spine: Items::new(alloc),
    }
}

/// A neutral applied to the variable of one place.
#[tactic(auto, using(clf_syntax::specs::Plain::plain_laws))]
fn applied_to(alloc: Global, neutral: Neutral, place: &Place<'_>) -> Result<Neutral, Want>
    ensures neutral { IfOk result (λ n.
        plain_neutral n
        ≡ app place.now.mode (plain_neutral neutral)
        (eta_long (plain_simple place.now.ty.now) (head_alone (Var place.now.local)))) }
    ensures wanting { IfErr result IsWant }
{
    let obj = variable(alloc, place.ty, place.local)?;
    let act = Elim::Arg {
        mode: place.mode,
        obj,
    };
    Ok(with_elimination(neutral, act)?)
}

/// A variable in its eta-long form.
fn variable(alloc: Global, ty: &Simple, local: u32) -> Result<Obj, Want>
    ensures object { IfOk result (λ o. plain_obj o ≡ eta_long (plain_simple ty.now) (head_alone (Var local))) }
    ensures wanting { IfErr result IsWant }
{
    let neutral = bare(alloc, Head::Var(local));
    match eta(alloc, ty, &neutral) {
        Ok(obj) => Ok(obj),
        Err(fault) => Err(want_of(alloc, fault)),
    }
}
