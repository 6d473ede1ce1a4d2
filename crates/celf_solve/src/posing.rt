//! The equations of a tree.
ghost use Rattle.std.specs.Prelude.{IfErr, IfOk};
ghost use Rattle.clf_syntax.specs.Wide.{IsWant};
ghost use Rattle.clf_sig.specs.Signature.{plain_signature};
ghost use Rattle.clf_rules.specs.WellFormed.{WellFormedSignature};
ghost use Rattle.celf_solve.specs.Scenes.{GathersNone, IsMisfit, IsScene, Poses};

use crate::scene::{Posed, Scene};
use celf_conform::{Misfit, first_misfit};
use celf_gather::gather;
use clf_sig::Signature;
use clf_syntax::Want;
use std::alloc::{AllocError, Global};

/// The equations of a tree, or its first misfit where nothing is gathered of it.
pub fn pose(alloc: Global, sig: &Signature, scene: &Scene) -> Result<Posed, Want>
    requires formed { WellFormedSignature (plain_signature sig.now) }
    requires scene { IsScene (plain_signature sig.now) scene.now }
    ensures posed { IfOk result (Poses (plain_signature sig.now) scene.now) }
    ensures wanting { IfErr result IsWant }
{
    match gather(
        alloc,
        sig,
        scene.types.as_slice(),
        &scene.store,
        &scene.core,
    )? {
        Some(equations) => Ok(Posed::Equations(equations)),
        None => Ok(Posed::Misfit(misfit(alloc, sig, scene)?)),
    }
}

/// What is wrong with a tree of which nothing is gathered. What conforms to simple types is gathered, so there is
/// something.
#[tactic(auto, using(crate::proofs::Gathered::is_over, crate::proofs::Gathered::some_misfit))]
fn misfit(alloc: Global, sig: &Signature, scene: &Scene) -> Result<Misfit, AllocError>
    requires formed { WellFormedSignature (plain_signature sig.now) }
    requires scene { IsScene (plain_signature sig.now) scene.now }
    requires nothing { GathersNone (plain_signature sig.now) scene.now }
    ensures { IfOk result (IsMisfit (plain_signature sig.now) scene.now) }
{
    match first_misfit(alloc, sig, &scene.store, &scene.core)? {
        Some(misfit) => Ok(misfit),
        None => unreachable!(),
    }
}
