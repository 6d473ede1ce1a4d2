//! The equations of a tree, solved.
ghost use Rattle.std.specs.Prelude.{ℕ, List, IfErr, IfOk};
ghost use Rattle.clf_sig.specs.Signature.{plain_signature};
ghost use Rattle.clf_rules.specs.WellFormed.{WellFormedSignature};
ghost use Rattle.celf_sugar.specs.PlainTree.{DesugaredBody, DesugaredItem};
ghost use Rattle.celf_implicit.specs.declared.variable.Implicit.{Implicit};
ghost use Rattle.celf_constraints.specs.Equated.{equations_in};
ghost use Rattle.celf_solve.specs.Scenes.{IsScene, IsPosed};
ghost use Rattle.celf_reconstruct.specs.Steps.{ComesOf, Declined, HasFound, HasScene, UnsettledScene};

use crate::sides::{mismatch, sides_of_clash, sides_of_each};
use celf_constraints::Equations;
use celf_replies::{Mismatch, Why};
use celf_solve::{Found, Posed, Scene, Solved, pose, settle};
use clf_sig::Signature;
use clf_syntax::OrWide;
use std::alloc::Global;

/// Solves what is gathered of a tree, and puts the solutions in.
pub fn settled(alloc: Global, sig: &Signature, scene: Scene) -> Result<Found, OrWide<Why>>
    requires formed { WellFormedSignature (plain_signature sig.now) }
    requires scene { IsScene (plain_signature sig.now) scene }
    ensures found { IfOk result (λ f. (body : DesugaredBody) (xs : List Implicit) (unnamed : ℕ) →
        HasScene (plain_signature sig.now) body xs unnamed scene →
        HasFound (plain_signature sig.now) body xs unnamed f) }
    ensures declined { IfErr result (λ fault. (item : DesugaredItem) (xs : List Implicit) (unnamed : ℕ) →
        HasScene (plain_signature sig.now) item.body xs unnamed scene → Declined (plain_signature sig.now) item fault) }
{
    solved(alloc, sig, scene)
}

/// The same of the scene alone.
fn solved(alloc: Global, sig: &Signature, scene: Scene) -> Result<Found, OrWide<Why>>
    requires formed { WellFormedSignature (plain_signature sig.now) }
    requires scene { IsScene (plain_signature sig.now) scene }
    ensures found { IfOk result (ComesOf (plain_signature sig.now) scene) }
    ensures unsettled { IfErr result (UnsettledScene (plain_signature sig.now) scene) }
{
    match pose(alloc, sig, &scene)? {
        Posed::Equations(equations) => solved_by(alloc, sig, scene, &equations),
        Posed::Misfit(misfit) => {
            drop(scene);
            Err(OrWide::Fault(Why::IllTyped(mismatch(misfit))))
        }
    }
}

/// Solves these equations, which are those of the tree.
fn solved_by(
    alloc: Global,
    sig: &Signature,
    scene: Scene,
    equations: &Equations,
) -> Result<Found, OrWide<Why>>
    requires scene { IsScene (plain_signature sig.now) scene }
    requires posed { IsPosed (plain_signature sig.now) scene (equations_in equations.now) }
    ensures found { IfOk result (ComesOf (plain_signature sig.now) scene) }
    ensures unsettled { IfErr result (UnsettledScene (plain_signature sig.now) scene) }
{
    match settle(alloc, scene, equations)? {
        Solved::Found(found) => Ok(found),
        Solved::Stuck(left) => Err(OrWide::Fault(Why::Unresolved(sides_of_each(alloc, &left)?))),
        Solved::Clash(clash) => {
            let sides = sides_of_clash(alloc, clash)?;
            Err(OrWide::Fault(Why::IllTyped(Mismatch::IndexDiffers(sides))))
        }
    }
}
