//! The calls that put solutions in.
ghost use Rattle.std.specs.Prelude.{IfOk, IfErr};
ghost use Rattle.clf_syntax.specs.Plain.{plain_obj};
ghost use Rattle.clf_syntax.specs.PlainTypes.{plain_ty};
ghost use Rattle.clf_syntax.specs.TypeTree.{SimpleType};
ghost use Rattle.clf_syntax.specs.Simple.{Assignment, Families, SimplyTyped, SimplyFormed};
ghost use Rattle.hered_subst.specs.Substitution.{Substituted, SubstitutedType};
ghost use Rattle.subst_laws.specs.Environments.{Instantiation, instant};
ghost use Rattle.store_laws.specs.Additions.{given};
ghost use Rattle.store_laws.specs.PutIn.{PutIn, IsClosed};
ghost use Rattle.metavars.specs.Outcomes.{IsFaultOf};
ghost use Rattle.metavars.specs.Stored.{additions};
ghost use Rattle.metavars.specs.Typed.{TypesStore, Keeps, IsUntypedOrWant};

use crate::instantiate::{Looking, put_object};
use crate::store::Store;
use crate::types::put_type;
use clf_syntax::{Obj, OrWide, Ty, Want};
use hered_put::PutFault;
use std::alloc::Global;

/// No types type a tree with the solutions that are put in.
#[derive(Debug, Drop)]
pub struct Untyped;

/// The fault of a call whose substitution failed.
fn fault_of(alloc: Global, fault: PutFault) -> OrWide<Untyped>
    ensures { IsFaultOf fault result }
{
    match fault {
        PutFault::Untyped => OrWide::Fault(Untyped),
        PutFault::TooFar => OrWide::from(Want::too_far(alloc)),
        PutFault::NoMemory => OrWide::NoMemory,
    }
}

impl Store {
    /// The object with all solutions put in. A hole stays.
    ///
    /// `Untyped` comes only where no assignment that types the store types the object.
    pub fn instantiate(&self, obj: &Obj) -> Result<Obj, OrWide<Untyped>>
        ensures put_in { IfOk result (λ x.
            (s : Instantiation) → PutIn (given (additions self.now)) s →
            IsClosed s → Substituted (instant s) (plain_obj obj.now) (plain_obj x)) }

        // Where an assignment types the store and the object, it types the result.
        ensures typed { (z : Assignment) (t : SimpleType) → TypesStore z (additions self.now) →
            SimplyTyped z (plain_obj obj.now) t → Keeps result (λ x. SimplyTyped z (plain_obj x) t) }
        ensures wanting { IfErr result IsUntypedOrWant }
    {
        let alloc = self.alloc();
        match put_object(&Looking::at(alloc, self), obj) {
            Ok(instance) => Ok(instance),
            Err(fault) => Err(fault_of(alloc, fault)),
        }
    }

    /// The type with all solutions put in. A hole stays.
    ///
    /// `Untyped` comes only where the type is simply formed by no assignment that types the store.
    pub fn instantiate_ty(&self, ty: &Ty) -> Result<Ty, OrWide<Untyped>>
        ensures put_in { IfOk result (λ x.
            (s : Instantiation) → PutIn (given (additions self.now)) s →
            IsClosed s → SubstitutedType (instant s) (plain_ty ty.now) (plain_ty x)) }

        // Where an assignment types the store, and the type is simply formed, so is the result.
        ensures formed { (arguments : Families) (z : Assignment) → TypesStore z (additions self.now) →
            SimplyFormed arguments z (plain_ty ty.now) →
            Keeps result (λ x. SimplyFormed arguments z (plain_ty x)) }
        ensures wanting { IfErr result IsUntypedOrWant }
    {
        let alloc = self.alloc();
        match put_type(&Looking::at(alloc, self), ty) {
            Ok(instance) => Ok(instance),
            Err(fault) => Err(fault_of(alloc, fault)),
        }
    }
}
