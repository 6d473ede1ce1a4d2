//! Metavariables on distinct locals.
ghost use Rattle.std.specs.Prelude.{◌≡◌, ◌∷◌, IfOk, IfErr, Some, map};
ghost use Rattle.std.specs.List.{slice_get};
ghost use Rattle.std.specs.Option.{option_map};
ghost use Rattle.clf_syntax.specs.Plain.{plain_neutral, plain_elim};
ghost use Rattle.clf_syntax.specs.PlainSimple.{plain_simple};
ghost use Rattle.clf_syntax.specs.Simple.{Assignment, SimplyTypedNeutral};
ghost use Rattle.clf_syntax.specs.TypeTree.{SimpleType};
ghost use Rattle.clf_syntax.specs.Tree.{head_alone, spine_on};
ghost use Rattle.clf_syntax.specs.declared.tree.Head.TheVariants.{Meta};
ghost use Rattle.pattern_laws.specs.Instantiations.{Types};
ghost use Rattle.celf_constraints.specs.Equated.{plain_locals, assigned_in};
ghost use Rattle.clf_simple.specs.Scope.{scope};
ghost use Rattle.celf_constraints.specs.Read.{plain_reading, Arranges};
ghost use Rattle.celf_constraints.specs.Reading.{HasTypes, Scopes, ReadsLocals, FormTooFar};

use crate::locals::{are_distinct, locals_of};
use crate::spine::read_spine;
use clf_syntax::{Elim, Head, Mode, Neutral, Or, Simple, SimpleEntry, TooFar};
use std::alloc::{AllocError, Global};

/// An argument of a metavariable: its mode and simple type, and the local whose eta-long form it is, with the local's
/// own simple type.
///
/// At a type with one object alone no local is read: the number is 0, and `own` is the argument's type.
#[derive(Clone, Copy)]
pub struct Place<'a> {
    pub mode: Mode,
    pub ty: &'a Simple,
    pub own: &'a Simple,
    pub local: u32,
}

/// The arguments of a metavariable, the last one first: place i is variable i below the lambdas of its solution.
#[derive(Drop)]
pub struct Places<'a> {
    pub meta: u32,
    pub places: Vec<Place<'a>>,
}

/// The places of a neutral, if it is a metavariable on distinct locals. `metas` has the simple types of metavariables
/// by number, `locals` the oldest first. `TooFar` comes only where the eta-long form of a local has a number past
/// 4,294,967,295; else it fails only where memory runs out.
pub fn read_places<'a>(
    alloc: Global,
    metas: &'a [Simple],
    locals: &'a [SimpleEntry],
    neutral: &Neutral,
) -> Result<Option<Places<'a>>, Or<TooFar>>
    ensures places { IfOk result (λ found. (constants : Types) (t : SimpleType)
        → SimplyTypedNeutral (assigned_in constants metas.now locals.now) (plain_neutral neutral.now) t
        → ReadsLocals (assigned_in constants metas.now locals.now) (plain_neutral neutral.now) t found) }
    ensures too_far { IfErr result (FormTooFar (map (λ l. l.1) (plain_locals locals.now))) }
{
    let types = scope_of(alloc, locals)?;
    read_in_scope(alloc, metas, types.as_slice(), neutral)
}

/// The same, where `types` has the simple types of the locals, the oldest first.
pub fn read_in_scope<'a>(
    alloc: Global,
    metas: &'a [Simple],
    types: &[&'a Simple],
    neutral: &Neutral,
) -> Result<Option<Places<'a>>, Or<TooFar>>
    ensures places { IfOk result (λ found. (z : Assignment) (t : SimpleType)
        → HasTypes z metas.now (scope types.now) → SimplyTypedNeutral z (plain_neutral neutral.now) t
        → ReadsLocals z (plain_neutral neutral.now) t found) }
    ensures too_far { IfErr result (FormTooFar (scope types.now)) }
{
    match neutral.head {
        Head::Const(_) | Head::Var(_) => Ok(None),
        Head::Meta(meta) => match meta_type(metas, meta) {
            None => Ok(None),
            Some(ty) => read_meta(alloc, types, meta, ty, neutral.spine.as_slice()),
        },
    }
}

/// The simple type of a metavariable.
fn meta_type<'a>(metas: &'a [Simple], meta: u32) -> Option<&'a Simple>
    ensures { option_map (λ t. plain_simple t.now) result ≡ slice_get (map plain_simple metas.now) meta }
{
    let meta = meta as usize;
    if meta < metas.len() {
        Some(&metas[meta])
    } else {
        None
    }
}

/// The simple types of the locals, the oldest first. It fails only where memory runs out.
pub fn scope_of<'a>(alloc: Global, locals: &'a [SimpleEntry]) -> Result<Vec<&'a Simple>, AllocError>
    ensures { IfOk result (λ types. scope types.items ≡ map (λ l. l.1) (plain_locals locals.now)) }
{
    let mut types = Vec::new(alloc);
    for local in locals {
        types = with_type(types, &local.ty)?;
    }
    Ok(types)
}

#[tactic(auto, using(clf_simple::proofs::Scopes::scope_laws))]
fn with_type<'a>(types: Vec<&'a Simple>, ty: &'a Simple) -> Result<Vec<&'a Simple>, AllocError>
    ensures { IfOk result (λ more. scope more.items ≡ plain_simple ty.now ∷ scope types.entry.items) }
{
    let mut more = types;
    more.push(ty)?;
    Ok(more)
}

/// The places of a metavariable of this type.
fn read_meta<'a>(
    alloc: Global,
    types: &[&'a Simple],
    meta: u32,
    ty: &'a Simple,
    spine: &[Elim],
) -> Result<Option<Places<'a>>, Or<TooFar>>
    ensures places { IfOk result (λ found. (z : Assignment) (t : SimpleType)
        → Scopes z (scope types.now) → z (Meta meta) ≡ Some (plain_simple ty.now)
        → SimplyTypedNeutral z (spine_on (map plain_elim spine.now) (head_alone (Meta meta))) t
        → ReadsLocals z (spine_on (map plain_elim spine.now) (head_alone (Meta meta))) t found) }
    ensures too_far { IfErr result (FormTooFar (scope types.now)) }
{
    match read_spine(alloc, types, spine, ty)? {
        None => Ok(None),
        Some(found) => Ok(arrange(alloc, meta, found)?),
    }
}

/// The arguments as places, the last one first, if no local stands at two of them.
fn arrange<'a>(
    alloc: Global,
    meta: u32,
    found: Vec<Place<'a>>,
) -> Result<Option<Places<'a>>, AllocError>
    ensures { IfOk result (λ places. Arranges meta (map plain_reading found.entry.items) places) }
{
    let mut places = found;
    places.reverse();
    let locals = locals_of(alloc, places.as_slice())?;
    if are_distinct(locals.as_slice()) {
        Ok(Some(Places { meta, places }))
    } else {
        Ok(None)
    }
}
