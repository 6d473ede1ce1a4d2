//! Which local an object is the eta-long form of.
ghost use Rattle.std.specs.Prelude.{◌≡◌, IfOk, IfErr, List, Some};
ghost use Rattle.std.specs.List.{slice_get};
ghost use Rattle.std.specs.Option.{option_map};
ghost use Rattle.clf_syntax.specs.Plain.{plain_obj, plain_neutral};
ghost use Rattle.clf_syntax.specs.PlainSimple.{plain_simple};
ghost use Rattle.clf_syntax.specs.TypeTree.{SimpleType};
ghost use Rattle.clf_syntax.specs.Tree.{head_alone};
ghost use Rattle.clf_syntax.specs.Written.{Writes, fits};
ghost use Rattle.clf_syntax.specs.declared.tree.Head.TheVariants.{Var};
ghost use Rattle.eta_laws.specs.Eta.{eta};
ghost use Rattle.clf_simple.specs.Scope.{scope};
ghost use Rattle.celf_constraints.specs.Candidate.{candidate as candidate_of};
ghost use Rattle.celf_constraints.specs.Read.{plain_known, ReadsLocal};
ghost use Rattle.celf_constraints.specs.Reading.{FormTooFar};

use crate::eta_head::candidate;
use clf_simple::eta;
use clf_syntax::{Head, Neutral, Obj, Or, Simple, TooFar, same};
use sqlite_items::Items;
use std::alloc::Global;

/// A local with its simple type.
#[derive(Clone, Copy)]
pub struct Known<'a> {
    pub ty: &'a Simple,
    pub local: u32,
}

/// The local whose eta-long form the object is, at a type that is not blank.
pub fn read_local<'a>(
    alloc: Global,
    types: &[&'a Simple],
    obj: &Obj,
) -> Result<Option<Known<'a>>, Or<TooFar>>
    ensures read { IfOk result (λ found.
        ReadsLocal (scope types.now) (plain_obj obj.now) (option_map plain_known found)) }
    ensures too_far { IfErr result (FormTooFar (scope types.now)) }
{
    match candidate(obj) {
        None => Ok(None),
        Some(local) => read_candidate(alloc, types, obj, local),
    }
}

/// The same, where no other variable can be the local.
fn read_candidate<'a>(
    alloc: Global,
    types: &[&'a Simple],
    obj: &Obj,
    local: u32,
) -> Result<Option<Known<'a>>, Or<TooFar>>
    ensures read { IfOk result (λ found.
        candidate_of (plain_obj obj.now) ≡ Some local
        → ReadsLocal (scope types.now) (plain_obj obj.now) (option_map plain_known found)) }
    ensures too_far { IfErr result (FormTooFar (scope types.now)) }
{
    match local_type(types, local) {
        None => Ok(None),
        Some(ty) => compare(alloc, obj, ty, local),
    }
}

/// The same, where the local has this type.
fn compare<'a>(
    alloc: Global,
    obj: &Obj,
    ty: &'a Simple,
    local: u32,
) -> Result<Option<Known<'a>>, Or<TooFar>>
    ensures read { IfOk result (λ found. (vs : List SimpleType)
        → candidate_of (plain_obj obj.now) ≡ Some local → slice_get vs local ≡ Some (plain_simple ty.now)
        → ReadsLocal vs (plain_obj obj.now) (option_map plain_known found)) }
    ensures too_far { IfErr result (λ e. (vs : List SimpleType)
        → slice_get vs local ≡ Some (plain_simple ty.now) → FormTooFar vs e) }
{
    let form = long_form(alloc, ty, local)?;
    if same(obj, &form) {
        Ok(Some(Known { ty, local }))
    } else {
        Ok(None)
    }
}

/// A variable alone.
#[tactic(auto, using(clf_syntax::specs::Plain::plain_laws))]
fn variable(alloc: Global, local: u32) -> Neutral
    ensures { plain_neutral result ≡ head_alone (Var local) }
{
    Neutral {
        head: Head::Var(local),
        spine: Items::new(alloc),
    }
}

/// The eta-long form of a variable.
fn long_form(alloc: Global, ty: &Simple, local: u32) -> Result<Obj, Or<TooFar>>
    ensures { Writes plain_obj fits (eta (plain_simple ty.now) (head_alone (Var local))) result }
{
    let neutral = variable(alloc, local);
    eta(alloc, ty, &neutral)
}

/// The type of a local: the newest one is the last in the list.
fn local_type<'a>(types: &[&'a Simple], local: u32) -> Option<&'a Simple>
    ensures { option_map (λ t. plain_simple t.now) result ≡ slice_get (scope types.now) local }
{
    let local = local as usize;
    if local < types.len() {
        Some(types[types.len() - 1 - local])
    } else {
        None
    }
}
