//! A metavariable becomes a new one on fewer arguments.
ghost use Rattle.std.specs.Prelude.{◌≡◌, [], ◌∷◌, ◌++◌, IfErr, IfOk, OnOk, map, reverse};
ghost use Rattle.clf_syntax.specs.Plain.{plain_obj};
ghost use Rattle.clf_syntax.specs.PlainSimple.{plain_simple};
ghost use Rattle.clf_syntax.specs.Wide.{IsWant};
ghost use Rattle.pattern_laws.specs.Patterns.{arrows, mask_at, masked};
ghost use Rattle.celf_constraints.specs.Reading.{plain_place};
ghost use Rattle.metavars.specs.Stored.{IsPart};
ghost use Rattle.celf_unify.specs.Steps.{HasArguments, NarrowedTo};
ghost use Rattle.celf_unify.specs.Narrowed.{HasShape, NarrowsTo};

use crate::places::{applied, function_of, lambdas, numbered};
use celf_constraints::Place;
use clf_syntax::{Mode, Obj, Simple, Want};
use metavars::Store;
use std::alloc::{AllocError, Global};

/// The arguments of a metavariable, the last one first, and what they end in, which is no function.
#[derive(Drop)]
struct Shape<'a> {
    places: Vec<Place<'a>>,
    end: &'a Simple,
}

/// The simple type of the new metavariable, and the solution of the old one.
#[derive(Drop)]
struct Narrowed {
    ty: Simple,
    solution: Obj,
}

/// The metavariable becomes a new one on the arguments of the mask, the last argument first.
pub fn narrow(store: &mut Store, meta: u32, mask: &[bool]) -> Result<(), Want>
    requires may { HasArguments store.old meta }
    ensures taken { OnOk result (NarrowedTo store.old meta mask.now store.new) }
    ensures part { IsPart store.old store.new }
    ensures wanting { IfErr result IsWant }
{
    let Narrowed { ty, solution } = on_fewer(store, meta, mask)?;
    store.new_meta(ty)?;
    store.solve(meta, solution)
}

/// What the metavariable becomes.
fn on_fewer(store: &Store, meta: u32, mask: &[bool]) -> Result<Narrowed, Want>
    requires may { HasArguments store.now meta }
    ensures narrows { IfOk result
        (λ n. NarrowsTo store.now meta mask.now (plain_simple n.ty) (plain_obj n.solution)) }
    ensures wanting { IfErr result IsWant }
{
    let alloc = store.alloc();
    let metas = store.metas();
    let new = numbered(alloc, metas.len())?;
    let shape = shape_of(alloc, &metas[meta as usize])?;
    let places = shape.places.as_slice();
    let kept = kept(alloc, places, mask)?;
    let neutral = applied(alloc, new, kept.as_slice())?;
    Ok(Narrowed {
        ty: function_of(alloc, kept.as_slice(), shape.end)?,
        solution: lambdas(alloc, places, Obj::At { neutral })?,
    })
}

/// The arguments of a function type.
fn shape_of<'a>(alloc: Global, ty: &'a Simple) -> Result<Shape<'a>, AllocError>
    ensures { IfOk result
        (λ s. HasShape (plain_simple ty.now) (map plain_place s.places.items) (plain_simple s.end.now)) }
{
    shape_under(ty, Vec::new(alloc))
}

/// The same, where these arguments come before, the first one first.
#[cycle(shape)]
#[tactic(auto, using(clf_syntax::specs::PlainSimple::plain_simple_laws))]
fn shape_under<'a>(ty: &'a Simple, before: Vec<Place<'a>>) -> Result<Shape<'a>, AllocError>
    ensures { IfOk result (λ s. HasShape
        (arrows (reverse (map plain_place before.entry.items)) (plain_simple ty.now))
        (map plain_place s.places.items) (plain_simple s.end.now)) }
{
    match ty {
        Simple::Fun { mode, dom, cod } => {
            shape_under(cod.get(), with_argument(before, *mode, dom.get())?)
        }
        Simple::Atom(_) | Simple::With { .. } | Simple::Top | Simple::Monad { .. } => {
            let mut places = before;
            places.reverse();
            Ok(Shape { places, end: ty })
        }
    }
}

/// One argument more. No local stands there.
fn with_argument<'a>(
    before: Vec<Place<'a>>,
    mode: Mode,
    ty: &'a Simple,
) -> Result<Vec<Place<'a>>, AllocError>
    ensures { IfOk result (λ places.
        map plain_place places.items ≡ map plain_place before.entry.items ++ (mode, plain_simple ty.now, 0) ∷ []) }
{
    let mut places = before;
    places.push(Place {
        mode,
        ty,
        own: ty,
        local: 0,
    })?;
    Ok(places)
}

/// The places of the mask, each with the variable of its lambda.
fn kept<'a>(alloc: Global, places: &[Place<'a>], mask: &[bool]) -> Result<Vec<Place<'a>>, Want>
    ensures kept { IfOk result
        (λ kept. map plain_place kept.items ≡ masked 0 mask.now (map plain_place places.now)) }
    ensures wanting { IfErr result IsWant }
{
    let mut kept = Vec::new(alloc);
    for number in 0..places.len() {
        if is_kept(mask, number) {
            kept = with_place(kept, &places[number], numbered(alloc, number)?)?;
        }
    }
    Ok(kept)
}

/// Whether the mask keeps the place.
fn is_kept(mask: &[bool], number: usize) -> bool
    ensures { result ≡ mask_at mask.now number }
{
    number < mask.len() && mask[number]
}

/// One place more, with the variable of its lambda.
fn with_place<'a>(
    kept: Vec<Place<'a>>,
    place: &Place<'a>,
    number: u32,
) -> Result<Vec<Place<'a>>, AllocError>
    ensures { IfOk result (λ more.
        map plain_place more.items
        ≡ map plain_place kept.entry.items ++ (place.now.mode, plain_simple place.now.ty.now, number) ∷ []) }
{
    let mut more = kept;
    more.push(Place {
        mode: place.mode,
        ty: place.ty,
        own: place.ty,
        local: number,
    })?;
    Ok(more)
}
