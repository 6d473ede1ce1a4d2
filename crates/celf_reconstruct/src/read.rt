//! The tree of an item, with new metavariables for what is not written.
ghost use Rattle.std.specs.Prelude.{◌≡◌, ◌++◌, map, IfOk, IfErr, OnOk};
ghost use Rattle.clf_syntax.specs.PlainTypes.{plain_ty};
ghost use Rattle.clf_syntax.specs.PlainSimple.{plain_simple};
ghost use Rattle.clf_syntax.specs.Wide.{IsWant};
ghost use Rattle.clf_sig.specs.Entry.{simple_types};
ghost use Rattle.clf_sig.specs.Signature.{plain_signature};
ghost use Rattle.clf_rules.specs.WellFormed.{WellFormedSignature};
ghost use Rattle.celf_sugar.specs.Plain.{desugared_item};
ghost use Rattle.celf_implicit.specs.Answers.{AreAll, plain_implicit};
ghost use Rattle.celf_filled.specs.States.{IsGrownBy, count};
ghost use Rattle.celf_filled.specs.TypedFrom.{indices_of};
ghost use Rattle.filled_laws.specs.FreshTypes.{types_from, new_in_each};
ghost use Rattle.celf_reconstruct.specs.Known.{simple_or_unit};
ghost use Rattle.celf_reconstruct.specs.Steps.{Declined, HasScene};

use crate::known::are_known;
use crate::misfit::misfit_of;
use celf_filled::{Filled, read_filled, typed_from};
use celf_implicit::Implicit;
use celf_replies::Why;
use celf_solve::Scene;
use celf_sugar::Plain;
use clf_sig::Signature;
use clf_syntax::{OrWide, Simple, Ty, Want, copy_simples};
use metavars::Store;
use sqlite_items::Items;
use std::alloc::{AllocError, Global};

/// The tree of an item with these implicit variables, and the types of these.
pub fn read(
    alloc: Global,
    sig: &Signature,
    plain: &Plain,
    variables: &[Implicit],
) -> Result<Scene, OrWide<Why>>
    requires formed { WellFormedSignature (plain_signature sig.now) }
    requires all { AreAll (plain_signature sig.now) (desugared_item plain.now).body variables.now }
    ensures scene { IfOk result
        (HasScene (plain_signature sig.now) (desugared_item plain.now).body variables.now 0) }
    ensures declined { IfErr result (Declined (plain_signature sig.now) (desugared_item plain.now)) }
{
    let simples = simples_of(alloc, sig, variables)?;
    let mut store = Store::new(alloc, simples.as_slice())?;
    let Filled { core, whole } = read_filled(sig, variables, &mut store, &plain.body)?;
    if !whole || !are_known(variables) {
        let why = misfit_of(alloc, sig, &simples, &store, &core);
        drop(core);
        return Err(why);
    }
    let own = own_simples(alloc, variables)?;
    let types = types_of(alloc, sig, &mut store, own.as_slice())?;
    Ok(Scene { core, types, store })
}

/// The simple types of the signature's constants and then of the implicit variables; one whose simple type is not known
/// is never read.
fn simples_of(
    alloc: Global,
    sig: &Signature,
    variables: &[Implicit],
) -> Result<Items<Simple>, AllocError>
    ensures { IfOk result (λ simples.
        map plain_simple simples
        ≡ simple_types (plain_signature sig.now) ++ map simple_or_unit (map plain_implicit variables.now)) }
{
    let mut simples = copy_simples(alloc, sig.simples())?;
    for variable in variables {
        simples.push(simple_of(alloc, variable)?)?;
    }
    Ok(simples)
}

/// Those of the implicit variables alone.
fn own_simples(alloc: Global, variables: &[Implicit]) -> Result<Items<Simple>, AllocError>
    ensures { IfOk result (λ own. map plain_simple own ≡ map simple_or_unit (map plain_implicit variables.now)) }
{
    let mut own = Items::new(alloc);
    for variable in variables {
        own.push(simple_of(alloc, variable)?)?;
    }
    Ok(own)
}

/// The simple type of an implicit variable.
#[tactic(auto, using(clf_syntax::specs::PlainSimple::plain_simple_laws))]
fn simple_of(alloc: Global, variable: &Implicit) -> Result<Simple, AllocError>
    ensures { IfOk result (λ simple. plain_simple simple ≡ simple_or_unit (plain_implicit variable.now)) }
{
    match &variable.simple {
        Some(simple) => simple.get().copy(alloc),
        None => Ok(Simple::Top),
    }
}

/// Types of these simple types, whose indices are new metavariables.
fn types_of(
    alloc: Global,
    sig: &Signature,
    store: &mut Store,
    simples: &[Simple],
) -> Result<Items<Ty>, Want>
    ensures made { IfOk result (λ types.
        map plain_ty types
        ≡ types_from (indices_of (plain_signature sig.now)) (count store.old) (map plain_simple simples.now)) }
    ensures grown { OnOk result (IsGrownBy store.old store.new
        (new_in_each (indices_of (plain_signature sig.now)) (map plain_simple simples.now))) }
    ensures wanting { IfErr result IsWant }
{
    let mut types = Items::new(alloc);
    add_types(sig, store, simples, &mut types)?;
    Ok(types)
}

/// Adds types of these simple types, whose indices are new metavariables.
pub fn add_types(
    sig: &Signature,
    store: &mut Store,
    simples: &[Simple],
    types: &mut Items<Ty>,
) -> Result<(), Want>
    ensures made { OnOk result (
        map plain_ty types.new
        ≡ map plain_ty types.old
        ++ types_from (indices_of (plain_signature sig.now)) (count store.old) (map plain_simple simples.now)) }
    ensures grown { OnOk result (IsGrownBy store.old store.new
        (new_in_each (indices_of (plain_signature sig.now)) (map plain_simple simples.now))) }
    ensures wanting { IfErr result IsWant }
{
    for simple in simples {
        types.push(typed_from(sig, store, simple)?)?;
    }
    Ok(())
}
