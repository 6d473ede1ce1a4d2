//! What a walk looks up.
ghost use Rattle.std.specs.Prelude.{◌≡◌, option_map, option_copied};
ghost use Rattle.clf_syntax.specs.PlainTypes.{plain_ty, plain_kind};
ghost use Rattle.clf_sig.specs.Entry.{constant_type as type_of_constant, family_kind as kind_of_family};
ghost use Rattle.clf_sig.specs.Signature.{plain_signature};
ghost use Rattle.elaboration_laws.specs.ItemSetting.{given_type as type_given};
ghost use Rattle.celf_gather.specs.Walks.{scene_of};

use clf_sig::{Class, Signature};
use clf_syntax::{Kind, Ty};
use metavars::Store;
use std::alloc::Global;

/// The signature, the types of the implicit variables, which are constants past those of the signature, and the store
/// with the simple types of all of them and of the metavariables.
#[derive(Drop)]
pub struct Known<'a> {
    pub alloc: Global,
    pub sig: &'a Signature,
    pub variables: &'a [Ty],
    pub store: &'a Store,
}

impl Known<'_> {
    /// The type of a constant or of an implicit variable; `None` where neither stands at this place.
    pub fn given_type(&self, constant: u32) -> Option<&Ty>
        ensures { option_map plain_ty (option_copied result)
            ≡ type_given (scene_of self.now).signature (scene_of self.now).variables constant }
    {
        let place = constant as usize;
        let declared = self.sig.len();
        if place < declared {
            constant_type(self.sig, constant)
        } else {
            self.variables.get(place - declared)
        }
    }

    /// The kind of a family; `None` where none stands at this place.
    pub fn family_kind(&self, family: u32) -> Option<&Kind>
        ensures { option_map plain_kind (option_copied result)
            ≡ kind_of_family (scene_of self.now).signature family }
    {
        match &self.sig.entry(family)?.class {
            Class::Family(kind) => Some(kind),
            Class::Constant(_) => None,
        }
    }
}

/// The type of a constant of the signature; `None` where none stands at this place.
fn constant_type(sig: &Signature, constant: u32) -> Option<&Ty>
    ensures { option_map plain_ty (option_copied result) ≡ type_of_constant (plain_signature sig.now) constant }
{
    match &sig.entry(constant)?.class {
        Class::Family(_) => None,
        Class::Constant(ty) => Some(ty),
    }
}
