//! The arguments of a spine, read one by one.
ghost use Rattle.std.specs.Prelude.{◌≡◌, [], ◌∷◌, ◌++◌, IfOk, IfErr, map};
ghost use Rattle.std.specs.Option.{option_map};
ghost use Rattle.clf_syntax.specs.Plain.{plain_obj, plain_elim};
ghost use Rattle.clf_syntax.specs.PlainSimple.{plain_simple};
ghost use Rattle.clf_syntax.specs.Tree.{arg};
ghost use Rattle.clf_simple.specs.Scope.{scope};
ghost use Rattle.celf_constraints.specs.Read.{plain_next, plain_reading, ReadsArgument, ReadsOne, ReadsSpine};
ghost use Rattle.celf_constraints.specs.Reading.{FormTooFar};

use crate::blank::is_blank;
use crate::long_forms::read_local;
use crate::places::Place;
use clf_syntax::{Elim, Mode, Obj, Or, Simple, TooFar};
use std::alloc::{AllocError, Global};

/// An argument that was read, and what is left of the function's type.
#[derive(Clone, Copy)]
pub struct Next<'a> {
    pub place: Place<'a>,
    pub rest: &'a Simple,
}

/// The arguments of a spine under a function, the first one first.
pub fn read_spine<'a>(
    alloc: Global,
    types: &[&'a Simple],
    spine: &[Elim],
    function: &'a Simple,
) -> Result<Option<Vec<Place<'a>>>, Or<TooFar>>
    ensures read { IfOk result (λ found.
        ReadsSpine (scope types.now) (map plain_elim spine.now) (plain_simple function.now)
        (option_map (λ v. map plain_reading v.items) found)) }
    ensures too_far { IfErr result (FormTooFar (scope types.now)) }
{
    let mut places = Vec::new(alloc);
    let mut ty = function;
    for act in spine {
        match read_elimination(alloc, types, act, ty)? {
            Some(next) => {
                places = with_place(places, next.place)?;
                ty = next.rest;
            }
            None => return Ok(None),
        }
    }
    Ok(Some(places))
}

fn with_place<'a>(places: Vec<Place<'a>>, place: Place<'a>) -> Result<Vec<Place<'a>>, AllocError>
    ensures { IfOk result (λ more.
        map plain_reading more.items ≡ map plain_reading places.entry.items ++ plain_reading place.entry ∷ []) }
{
    let mut more = places;
    more.push(place)?;
    Ok(more)
}

#[tactic(auto, using(clf_syntax::specs::Plain::plain_laws, clf_syntax::specs::PlainSimple::plain_simple_laws))]
fn read_elimination<'a>(
    alloc: Global,
    types: &[&'a Simple],
    act: &Elim,
    ty: &'a Simple,
) -> Result<Option<Next<'a>>, Or<TooFar>>
    ensures read { IfOk result (λ found.
        ReadsOne (scope types.now) (plain_elim act.now) (plain_simple ty.now) (option_map plain_next found)) }
    ensures too_far { IfErr result (FormTooFar (scope types.now)) }
{
    match act {
        Elim::Arg { mode, obj } => read_at(alloc, types, *mode, obj, ty),
        Elim::First | Elim::Second => Ok(None),
    }
}

/// An argument, at a type that is to be a function's.
#[tactic(auto, using(clf_syntax::specs::PlainSimple::plain_simple_laws))]
fn read_at<'a>(
    alloc: Global,
    types: &[&'a Simple],
    mode: Mode,
    obj: &Obj,
    ty: &'a Simple,
) -> Result<Option<Next<'a>>, Or<TooFar>>
    ensures read { IfOk result (λ found.
        ReadsOne (scope types.now) (arg mode (plain_obj obj.now)) (plain_simple ty.now)
        (option_map plain_next found)) }
    ensures too_far { IfErr result (FormTooFar (scope types.now)) }
{
    match ty {
        Simple::Fun {
            mode: wanted,
            dom,
            cod,
        } => {
            if mode != *wanted {
                return Ok(None);
            }
            match read_argument(alloc, types, mode, dom.get(), obj)? {
                Some(place) => Ok(Some(Next {
                    place,
                    rest: cod.get(),
                })),
                None => Ok(None),
            }
        }
        Simple::Atom(_) | Simple::With { .. } | Simple::Top | Simple::Monad { .. } => Ok(None),
    }
}

/// An argument of this type.
fn read_argument<'a>(
    alloc: Global,
    types: &[&'a Simple],
    mode: Mode,
    ty: &'a Simple,
    obj: &Obj,
) -> Result<Option<Place<'a>>, Or<TooFar>>
    ensures read { IfOk result (λ found.
        ReadsArgument (scope types.now) mode (plain_simple ty.now) (plain_obj obj.now)
        (option_map plain_reading found)) }
    ensures too_far { IfErr result (FormTooFar (scope types.now)) }
{
    if is_blank(ty) {
        return Ok(Some(Place {
            mode,
            ty,
            own: ty,
            local: 0,
        }));
    }
    match read_local(alloc, types, obj)? {
        Some(known) => Ok(Some(Place {
            mode,
            ty,
            own: known.ty,
            local: known.local,
        })),
        None => Ok(None),
    }
}
