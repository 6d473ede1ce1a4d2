//! The formation of types and kinds, over a context that grows under their binders.
ghost use Rattle.std.specs.Prelude.{◌≡◌, ◌∷◌, ◌<◌, ◌==◌, if◌then◌else◌, [], length, map, option_map, option_copied, OnOk};
ghost use Rattle.clf_syntax.specs.Plain.{plain_obj};
ghost use Rattle.clf_syntax.specs.PlainTypes.{plain_ty, plain_tele_entry, plain_kind};
ghost use Rattle.clf_syntax.specs.TypeTree.{telescope_of};
ghost use Rattle.clf_sig.specs.Entry.{family_kind as kind_of_family};
ghost use Rattle.clf_sig.specs.Signature.{plain_signature};
ghost use Rattle.clf_rules.specs.Refusal.{family_arity};
ghost use Rattle.clf_decision.specs.Outcome.{passed, refused, at_part};
ghost use Rattle.clf_decision.specs.Formation.{kind_formed, type_formed, family_formed, indices_formed, telescope_formed};
ghost use Rattle.clf_decision.specs.Hereditary.{hereditary};
ghost use Rattle.clf_kernel.specs.Indices.{index_behind};
ghost use Rattle.clf_kernel.specs.Judge.{IsEntered, signature_of, context_of};
ghost use Rattle.clf_kernel.specs.Stops.{Gives};

use crate::judge::Judge;
use crate::putting::put_in_arguments;
use crate::refusal::{Cause, Stop, count, from_part, refuse};
use clf_sig::{Class, Signature};
use clf_syntax::{Head, Kind, Mode, Obj, TeleEntry, Ty};
use sqlite_items::Items;
use std::alloc::Global;

impl Judge<'_> {
    /// The arguments of a kind, each of which adds a persistent variable.
    #[tactic(auto, using(crate::proofs::Stops::stop_laws))]
    pub fn form_arguments(&mut self, args: &[Ty]) -> Result<(), Stop>
        ensures { Gives (λ x. x)
            (kind_formed hereditary (signature_of self.old) (context_of self.old) 0 (map plain_ty args.now))
            result }
    {
        let mut place = 0;
        for arg in args {
            self.form_entry(place, Mode::Persistent, arg)?;
            place += 1;
        }
        Ok(())
    }

    /// A type that adds a variable of this mode to the context, as the part with this number.
    #[cycle(form)]
    #[tactic(auto, using(crate::proofs::Stops::stop_laws))]
    fn form_entry(&mut self, place: usize, mode: Mode, ty: &Ty) -> Result<(), Stop>
        ensures formed { Gives (λ x. x)
            (at_part place (type_formed hereditary (signature_of self.old) (context_of self.old) (plain_ty ty.now)))
            result }
        ensures context { OnOk result (context_of self.new ≡ (mode, plain_ty ty.now) ∷ context_of self.old) }
        ensures entry { OnOk result (IsEntered self.old self.new) }
    {
        self.form_part(place, ty)?;
        self.enter_entry(mode, ty)
    }

    /// The type of the part with this number.
    #[cycle(form)]
    fn form_part(&mut self, place: usize, ty: &Ty) -> Result<(), Stop>
        ensures formed { Gives (λ x. x)
            (at_part place (type_formed hereditary (signature_of self.old) (context_of self.old) (plain_ty ty.now)))
            result }
        ensures kept { OnOk result (self.new ≡ self.old) }
    {
        match self.form_type(ty) {
            Ok(_) => Ok(()),
            Err(stop) => Err(from_part(self.alloc, place, stop)),
        }
    }

    /// A type, over one context that grows under its functions and telescopes.
    #[cycle(form)]
    #[tactic(auto, using(clf_syntax::specs::PlainTypes::plain_type_laws, crate::proofs::Stops::stop_laws))]
    pub fn form_type(&mut self, ty: &Ty) -> Result<(), Stop>
        ensures formed { Gives (λ x. x)
            (type_formed hereditary (signature_of self.old) (context_of self.old) (plain_ty ty.now)) result }
        ensures kept { OnOk result (self.new ≡ self.old) }
    {
        match ty {
            Ty::Fam { family, indices } => self.form_family(*family, indices.as_slice()),
            Ty::Fun { mode, dom, cod } => {
                self.form_entry(0, *mode, dom.get())?;
                self.form_part(1, cod.get())?;
                self.leave();
                Ok(())
            }
            Ty::With { left, right } => {
                self.form_part(0, left.get())?;
                self.form_part(1, right.get())
            }
            Ty::Top => Ok(()),
            Ty::Monad { tele } => self.form_telescope(tele.entries.as_slice()),
        }
    }

    /// The entries of a telescope, each of which adds its variable.
    #[cycle(form)]
    #[tactic(auto, using(crate::proofs::Stops::stop_laws))]
    fn form_telescope(&mut self, entries: &[TeleEntry]) -> Result<(), Stop>
        ensures formed { Gives (λ x. x) (telescope_formed hereditary (signature_of self.old) (context_of self.old) 0
            (telescope_of (map plain_tele_entry entries.now))) result }
        ensures kept { OnOk result (self.new ≡ self.old) }
    {
        let older = self.ctx.len();
        let mut place = 0;
        for entry in entries {
            self.form_entry(place, entry.mode, &entry.ty)?;
            place += 1;
        }
        self.leave_to(older);
        Ok(())
    }

    /// A family at its indices.
    #[tactic(auto, using(crate::proofs::Stops::stop_laws))]
    fn form_family(&mut self, family: u32, indices: &[Obj]) -> Result<(), Stop>
        ensures formed { Gives (λ x. x) (family_formed hereditary (signature_of self.old) (context_of self.old) family
            (map plain_obj indices.now) (kind_of_family (signature_of self.old) family)) result }
        ensures kept { OnOk result (self.new ≡ self.old) }
    {
        match family_kind(self.sig, family) {
            Some(kind) => {
                self.form_indices(indices, kind)?;
                same_arity(self.alloc, kind.args.len(), indices.len())
            }
            None => {
                let head = Head::Const(family);
                Err(refuse(self.alloc, Cause::UnknownHead { head }))
            }
        }
    }

    /// The indices that have an argument of the kind.
    #[tactic(auto, using(crate::proofs::Stops::stop_laws))]
    fn form_indices(&mut self, indices: &[Obj], kind: &Kind) -> Result<(), Stop>
        ensures formed { Gives (λ x. x) (indices_formed hereditary (signature_of self.old) (context_of self.old) 0
            (map plain_obj indices.now) (plain_kind kind.now)) result }
        ensures kept { OnOk result (self.new ≡ self.old) }
    {
        let mut rest = kind.copy(self.alloc)?.args;
        let mut place = 0;
        for obj in indices {
            if rest.is_empty() {
                return Ok(());
            }
            rest = self.form_index(place, obj, rest)?;
            place += 1;
        }
        Ok(())
    }

    /// One index, and the later arguments of the kind with it put for its own.
    #[tactic(auto, using(crate::proofs::Stops::stop_laws))]
    fn form_index(&mut self, place: usize, obj: &Obj, rest: Items<Ty>) -> Result<Items<Ty>, Stop>
        requires there { 0 < length rest }
        ensures outcome { Gives (map plain_ty) (index_behind hereditary (signature_of self.old) (context_of self.old)
            place (plain_obj obj.now) (map plain_ty rest)) result }
        ensures kept { OnOk result (self.new ≡ self.old) }
    {
        let start = self.persistent_alone()?;
        let args = rest.as_slice();
        self.check_part(place, obj, &args[0], start)?;
        put_in_arguments(self.alloc, obj, &args[0], &args[1..])
    }
}

/// There are as many indices as the kind has arguments.
#[tactic(auto, using(crate::proofs::Stops::stop_laws))]
fn same_arity(alloc: Global, wanted: usize, found: usize) -> Result<(), Stop>
    ensures { Gives (λ x. x) (if wanted == found then passed tt else refused [] (family_arity wanted found)) result }
{
    if wanted == found {
        return Ok(());
    }
    let wanted = count(alloc, wanted)?;
    let found = count(alloc, found)?;
    Err(refuse(alloc, Cause::FamilyArity { wanted, found }))
}

/// The kind of a family; `None` where none stands at this place.
fn family_kind(sig: &Signature, family: u32) -> Option<&Kind>
    ensures { option_map plain_kind (option_copied result) ≡ kind_of_family (plain_signature sig.now) family }
{
    match &sig.entry(family)?.class {
        Class::Family(kind) => Some(kind),
        Class::Constant(_) => None,
    }
}
