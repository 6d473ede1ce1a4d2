//! What is answered of what is found.
ghost use Rattle.std.specs.Prelude.{◌≡◌, [], false, true, length, map};
ghost use Rattle.clf_syntax.specs.PlainTypes.{plain_ty};
ghost use Rattle.clf_sig.specs.Core.{plain_core};
ghost use Rattle.clf_sig.specs.Signature.{plain_signature};
ghost use Rattle.clf_rules.specs.WellFormed.{WellFormedSignature};
ghost use Rattle.clf_syntax.specs.PlainSimple.{plain_simple};
ghost use Rattle.celf_sugar.specs.Plain.{desugared_item};
ghost use Rattle.celf_implicit.specs.Answers.{AreAll};
ghost use Rattle.celf_replies.specs.Reply.{loose as loose_count};
ghost use Rattle.celf_reconstruct.specs.Left.{metavariables_with};
ghost use Rattle.celf_reconstruct.specs.Naming.{AreSimples, types_in};
ghost use Rattle.celf_reconstruct.specs.Posed.{IsDeclaration};
ghost use Rattle.celf_reconstruct.specs.Reconstructed.{IsReconstruction};
ghost use Rattle.celf_reconstruct.specs.Steps.{HasFound, IsFor, IsWithinReach};

use crate::declared::declare;
use crate::left::metavariables;
use crate::naming::{named, simples_left};
use crate::settled::settled;
use celf_implicit::Implicit;
use celf_replies::Why;
use celf_solve::Found;
use celf_sugar::Plain;
use clf_sig::{Core, Signature};
use clf_syntax::{OrWide, Simple, Want};
use std::alloc::Global;

/// The answer of an item of which this is found.
pub fn answer(
    alloc: Global,
    sig: &Signature,
    plain: &Plain,
    variables: &[Implicit],
    found: Found,
) -> Result<Core, OrWide<Why>>
    requires formed { WellFormedSignature (plain_signature sig.now) }
    requires all { AreAll (plain_signature sig.now) (desugared_item plain.now).body variables.now }
    requires reach { IsWithinReach (plain_signature sig.now) (desugared_item plain.now).body }
    requires found { HasFound (plain_signature sig.now) (desugared_item plain.now).body variables.now 0 found }
    ensures { IsReconstruction (plain_signature sig.now) (desugared_item plain.now) result }
{
    let left = metavariables(alloc, &found.core, found.types.as_slice())?;
    if !is_declaration(&found.core) {
        return checked(alloc, sig, plain, variables, found, left.len());
    }
    if left.is_empty() {
        declare(alloc, sig, plain, variables, 0, found)
    } else {
        again(alloc, sig, plain, variables, found, left.as_slice())
    }
}

fn is_declaration(core: &Core) -> bool
    ensures yes { result ≡ true → IsDeclaration (plain_core core.now) }
    ensures no { result ≡ false → IsDeclaration (plain_core core.now) → ⊥ }
{
    match core {
        Core::Declare { .. } => true,
        Core::Query { .. } | Core::Trace { .. } | Core::Equal { .. } | Core::Check { .. } => false,
    }
}

/// The answer of a check or an equation, in which so many metavariables are left.
fn checked(
    alloc: Global,
    sig: &Signature,
    plain: &Plain,
    variables: &[Implicit],
    found: Found,
    left: usize,
) -> Result<Core, OrWide<Why>>
    requires reach { IsWithinReach (plain_signature sig.now) (desugared_item plain.now).body }
    requires found { HasFound (plain_signature sig.now) (desugared_item plain.now).body variables.now 0 found }
    requires check { IsDeclaration (plain_core found.core) → ⊥ }
    requires left { left ≡ length (metavariables_with (plain_core found.core) (map plain_ty found.types)) }
    ensures { IsReconstruction (plain_signature sig.now) (desugared_item plain.now) result }
{
    if left > 0 {
        drop(found);
        return Err(loose(alloc, left));
    }
    let Found { core, types, store } = found;
    drop(types);
    drop(store);
    Ok(core)
}

/// That so many metavariables are left.
fn loose(alloc: Global, left: usize) -> OrWide<Why>
    ensures { IsFor (λ why. why ≡ loose_count left) result }
{
    match u32::try_from(left) {
        Ok(count) => OrWide::Fault(Why::Loose { count }),
        Err(_) => OrWide::from(Want::too_far(alloc)),
    }
}

/// The answer of a declaration in which metavariables are left: these become constants, whose types are still to be
/// found.
fn again(
    alloc: Global,
    sig: &Signature,
    plain: &Plain,
    variables: &[Implicit],
    found: Found,
    left: &[u32],
) -> Result<Core, OrWide<Why>>
    requires formed { WellFormedSignature (plain_signature sig.now) }
    requires all { AreAll (plain_signature sig.now) (desugared_item plain.now).body variables.now }
    requires found { HasFound (plain_signature sig.now) (desugared_item plain.now).body variables.now 0 found }
    requires declaration { IsDeclaration (plain_core found.core) }
    requires left { left.now ≡ metavariables_with (plain_core found.core) (map plain_ty found.types) }
    requires some { left.now ≡ [] → ⊥ }
    ensures { IsReconstruction (plain_signature sig.now) (desugared_item plain.now) result }
{
    let simples = simples_left(alloc, &found.store, left)?;
    again_with(
        alloc,
        sig,
        plain,
        variables,
        found,
        left,
        simples.as_slice(),
    )
}

/// The same, where these are their simple types.
fn again_with(
    alloc: Global,
    sig: &Signature,
    plain: &Plain,
    variables: &[Implicit],
    found: Found,
    left: &[u32],
    simples: &[Simple],
) -> Result<Core, OrWide<Why>>
    requires formed { WellFormedSignature (plain_signature sig.now) }
    requires all { AreAll (plain_signature sig.now) (desugared_item plain.now).body variables.now }
    requires found { HasFound (plain_signature sig.now) (desugared_item plain.now).body variables.now 0 found }
    requires declaration { IsDeclaration (plain_core found.core) }
    requires left { left.now ≡ metavariables_with (plain_core found.core) (map plain_ty found.types) }
    requires some { left.now ≡ [] → ⊥ }
    requires simples { AreSimples (types_in found.store) left.now (map plain_simple simples.now) }
    ensures { IsReconstruction (plain_signature sig.now) (desugared_item plain.now) result }
{
    let scene = named(alloc, sig, found, left, simples)?;
    match settled(alloc, sig, scene) {
        Ok(found) => last(alloc, sig, plain, variables, simples.len(), found),
        Err(fault) => Err(fault),
    }
}

/// The answer of a declaration with so many unnamed binders.
fn last(
    alloc: Global,
    sig: &Signature,
    plain: &Plain,
    variables: &[Implicit],
    unnamed: usize,
    found: Found,
) -> Result<Core, OrWide<Why>>
    requires all { AreAll (plain_signature sig.now) (desugared_item plain.now).body variables.now }
    requires found { HasFound (plain_signature sig.now) (desugared_item plain.now).body variables.now unnamed found }
    requires unnamed { unnamed ≡ 0 → ⊥ }
    ensures { IsReconstruction (plain_signature sig.now) (desugared_item plain.now) result }
{
    let rest = metavariables(alloc, &found.core, found.types.as_slice())?;
    if rest.is_empty() {
        declare(alloc, sig, plain, variables, unnamed, found)
    } else {
        left_open(
            alloc,
            sig,
            plain,
            variables,
            unnamed,
            found,
            rest.as_slice(),
        )
    }
}

/// The same where metavariables are left in it still.
fn left_open(
    alloc: Global,
    _sig: &Signature,
    _plain: &Plain,
    _variables: &[Implicit],
    _unnamed: usize,
    found: Found,
    rest: &[u32],
) -> Result<Core, OrWide<Why>>
    requires found { HasFound (plain_signature _sig.now) (desugared_item _plain.now).body _variables.now _unnamed found }
    requires unnamed { _unnamed ≡ 0 → ⊥ }
    requires rest { rest.now ≡ metavariables_with (plain_core found.core) (map plain_ty found.types) }
    requires some { rest.now ≡ [] → ⊥ }
    ensures { IsReconstruction (plain_signature _sig.now) (desugared_item _plain.now) result }
{
    drop(found);
    Err(loose(alloc, rest.len()))
}
