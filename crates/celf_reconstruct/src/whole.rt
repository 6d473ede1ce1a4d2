//! The call.
ghost use Rattle.std.specs.Prelude.{◌≡◌, false, true};
ghost use Rattle.clf_sig.specs.Signature.{plain_signature};
ghost use Rattle.clf_rules.specs.WellFormed.{WellFormedSignature};
ghost use Rattle.celf_sugar.specs.Plain.{desugared_item};
ghost use Rattle.celf_implicit.specs.Answers.{AreAll};
ghost use Rattle.celf_reconstruct.specs.Reconstructed.{IsBeyond, IsReconstruction};
ghost use Rattle.celf_reconstruct.specs.Steps.{IsWithinReach, SaysUndetermined};

use crate::answered::answer;
use crate::read::read;
use crate::settled::settled;
use celf_implicit::{Implicit, Variable, implicit_variables};
use celf_replies::Why;
use celf_sugar::{Plain, PlainBody};
use clf_sig::{Core, Signature};
use clf_syntax::OrWide;
use sqlite_items::Items;
use std::alloc::Global;

/// The core of an item in which something is not written, with all found.
///
/// What is not written becomes metavariables, and the equations that typing asks of them are solved. In a declaration
/// the implicit variables stand in front, as persistent arguments that are implicit, and so do the metavariables that
/// are left. It is declined where an implicit variable has no type, where no solution is there or none is found, where
/// metavariables are left that stand nowhere in front, and where the types of binders mention one another in a circle.
/// Whether the rules derive the core is not asked here.
pub fn reconstruct(alloc: Global, sig: &Signature, plain: &Plain) -> Result<Core, OrWide<Why>>
    requires formed { WellFormedSignature (plain_signature sig.now) }
    ensures { IsReconstruction (plain_signature sig.now) (desugared_item plain.now) result }
{
    match implicit_variables(alloc, sig, plain) {
        Ok(variables) => with_variables(alloc, sig, plain, variables),
        Err(fault) => Err(untyped(fault)),
    }
}

/// That an implicit variable is nowhere determined, or that memory or a number is wanting.
fn untyped(fault: OrWide<Variable>) -> OrWide<Why>
    ensures { SaysUndetermined fault result }
{
    match fault {
        OrWide::Fault(variable) => {
            let Variable { name, span: _ } = variable;
            OrWide::Fault(Why::Undetermined(name))
        }
        OrWide::NoMemory => OrWide::NoMemory,
        OrWide::TooFar(wide) => OrWide::TooFar(wide),
    }
}

/// The core of an item with these implicit variables.
fn with_variables(
    alloc: Global,
    sig: &Signature,
    plain: &Plain,
    variables: Items<Implicit>,
) -> Result<Core, OrWide<Why>>
    requires formed { WellFormedSignature (plain_signature sig.now) }
    requires all { AreAll (plain_signature sig.now) (desugared_item plain.now).body variables }
    ensures { IsReconstruction (plain_signature sig.now) (desugared_item plain.now) result }
{
    if is_beyond(sig, plain, variables.as_slice()) {
        return Err(OrWide::Fault(Why::NotYet));
    }
    find(alloc, sig, plain, variables.as_slice())
}

/// Whether the item is out of reach so far.
fn is_beyond(_sig: &Signature, plain: &Plain, variables: &[Implicit]) -> bool
    requires all { AreAll (plain_signature _sig.now) (desugared_item plain.now).body variables.now }
    ensures beyond { result ≡ true → IsBeyond (plain_signature _sig.now) (desugared_item plain.now).body }
    ensures within { result ≡ false → IsWithinReach (plain_signature _sig.now) (desugared_item plain.now).body }
{
    match &plain.body {
        PlainBody::Declare { .. } => false,
        PlainBody::Query { .. } | PlainBody::Trace { .. } => true,
        PlainBody::Equal { .. } | PlainBody::Check { .. } => !variables.is_empty(),
    }
}

/// Finds what is not written.
fn find(
    alloc: Global,
    sig: &Signature,
    plain: &Plain,
    variables: &[Implicit],
) -> Result<Core, OrWide<Why>>
    requires formed { WellFormedSignature (plain_signature sig.now) }
    requires all { AreAll (plain_signature sig.now) (desugared_item plain.now).body variables.now }
    requires reach { IsWithinReach (plain_signature sig.now) (desugared_item plain.now).body }
    ensures { IsReconstruction (plain_signature sig.now) (desugared_item plain.now) result }
{
    let scene = read(alloc, sig, plain, variables)?;
    match settled(alloc, sig, scene) {
        Ok(found) => answer(alloc, sig, plain, variables, found),
        Err(fault) => Err(fault),
    }
}
