//! The reading of whole items, with new metavariables for what is left to be found.
ghost use Rattle.std.specs.Prelude.{◌≡◌, true, List, map, IfOk, OnOk, IfErr, [], Some};
ghost use Rattle.clf_syntax.specs.Plain.{plain_obj};
ghost use Rattle.clf_syntax.specs.PlainTypes.{plain_ty, plain_tele_entry};
ghost use Rattle.clf_syntax.specs.PlainSimple.{plain_simple};
ghost use Rattle.clf_syntax.specs.TypeTree.{telescope_of};
ghost use Rattle.clf_syntax.specs.Wide.{IsWant};
ghost use Rattle.clf_sig.specs.Core.{plain_core, traces};
ghost use Rattle.clf_sig.specs.Entry.{family_of};
ghost use Rattle.clf_sig.specs.Signature.{plain_class, plain_signature};
ghost use Rattle.celf_sugar.specs.Plain.{body_of, class_of, desugared_object, desugared_telescope, desugared_type};
ghost use Rattle.celf_explicit.specs.Types.{kind_of};
ghost use Rattle.celf_explicit.specs.Parts.{entry_type};
ghost use Rattle.celf_elaboration.specs.Names.{ImplicitVariable};
ghost use Rattle.celf_filled.specs.Laws.{ReadsWithNew};
ghost use Rattle.celf_filled.specs.Scopes.{plain_named, with_known_type};
ghost use Rattle.celf_filled.specs.States.{state_of};
ghost use Rattle.celf_filled.specs.WalkItems as spec;
ghost use Rattle.celf_filled.specs.WalkTypes as types;
ghost use Rattle.celf_filled.specs.Walk as walk;

use crate::objects::fill_object;
use crate::scope::Scope;
use crate::types::{fill_telescope, fill_type};
use celf_implicit::Implicit;
use celf_sugar::{PClass, PObj, PTele, PTy, PlainBody};
use clf_sig::{Class, Core, Entry, Signature};
use clf_syntax::{Kind, Obj, Shortage, Simple, Tele, TeleEntry, Ty, Want, erase};
use metavars::Store;
use sqlite_items::Items;
use std::alloc::{AllocError, Global};

/// The core of an item, and whether all that is left to be found in its text has been filled in. Where it has not, a
/// hole stands in the core.
#[derive(Drop)]
pub struct Filled {
    pub core: Core,
    pub whole: bool,
}

/// Reads an item over a signature and its implicit variables, which are constants past those of the signature.
///
/// New metavariables, numbered in order, are filled in for implicit arguments and for `_`, on the persistent locals. It
/// fails only where memory runs out or a number passes its range; then the store may have grown.
pub fn read_filled(
    sig: &Signature,
    variables: &[Implicit],
    store: &mut Store,
    body: &PlainBody,
) -> Result<Filled, Want>
    ensures made { IfOk result (λ f.
        (plain_core f.core, state_of store.new f.whole)
        ≡ spec.fill_body (plain_signature sig.now) (map plain_named variables.now) (body_of body.now)
        (state_of store.old true)) }
    ensures read { IfOk result (λ f.
        (vs : List ImplicitVariable) → map plain_named variables.now ≡ map with_known_type vs → f.whole ≡ true
        → ReadsWithNew (plain_signature sig.now) vs (body_of body.now) store.old store.new (plain_core f.core)) }
    ensures wanting { IfErr result IsWant }
{
    let mut whole = true;
    match fill_body(sig, variables, body, store, &mut whole) {
        Ok(core) => Ok(Filled { core, whole }),
        Err(short) => Err(short.want(store.alloc())),
    }
}

/// The core of what an item says.
fn fill_body(
    sig: &Signature,
    variables: &[Implicit],
    body: &PlainBody,
    store: &mut Store,
    whole: &mut bool,
) -> Result<Core, Shortage>
    ensures { IfOk result (λ core.
        (plain_core core, state_of store.new whole.new)
        ≡ spec.fill_body (plain_signature sig.now) (map plain_named variables.now) (body_of body.now)
        (state_of store.old whole.old)) }
{
    match body {
        PlainBody::Declare {
            name,
            implicit,
            class,
        } => {
            let name = name.copy(store.alloc())?;
            let class = fill_class(sig, variables, class, store, whole)?;
            Ok(Core::Declare {
                name,
                entry: Entry {
                    implicit: *implicit,
                    class,
                },
            })
        }
        PlainBody::Query {
            d: _,
            e: _,
            l: _,
            a: _,
            ty,
        } => Ok(Core::Query {
            ty: type_alone(sig, variables, ty, store, whole)?,
        }),
        PlainBody::Trace { n: _, tele } => {
            let entries = entries_alone(sig, variables, tele, store, whole)?;
            Ok(trace(entries))
        }
        PlainBody::Equal { left, right, ty } => {
            let ty = type_alone(sig, variables, ty, store, whole)?;
            let simple = erase(store.alloc(), &ty)?;
            let left = object_alone(sig, variables, &simple, left, store, whole)?;
            let right = object_alone(sig, variables, &simple, right, store, whole)?;
            Ok(Core::Equal { left, right, ty })
        }
        PlainBody::Check { obj, ty } => {
            let ty = type_alone(sig, variables, ty, store, whole)?;
            let simple = erase(store.alloc(), &ty)?;
            let obj = object_alone(sig, variables, &simple, obj, store, whole)?;
            Ok(Core::Check { obj, ty })
        }
    }
}

/// A type without locals.
fn type_alone(
    sig: &Signature,
    variables: &[Implicit],
    ty: &PTy,
    store: &mut Store,
    whole: &mut bool,
) -> Result<Ty, Shortage>
    ensures { IfOk result (λ a.
        (plain_ty a, state_of store.new whole.new)
        ≡ types.fill_type (plain_signature sig.now) (map plain_named variables.now) [] (desugared_type ty.now)
        (state_of store.old whole.old)) }
{
    let scope = Scope::new(store.alloc());
    fill_type(ty, sig, variables, &scope, store, whole)
}

/// The entries of a telescope without locals.
fn entries_alone(
    sig: &Signature,
    variables: &[Implicit],
    tele: &PTele,
    store: &mut Store,
    whole: &mut bool,
) -> Result<Items<TeleEntry>, Shortage>
    ensures made { IfOk result (λ es.
        map plain_tele_entry es
        ≡ (types.fill_telescope (plain_signature sig.now) (map plain_named variables.now)
        (types.no_bindings_yet [], state_of store.old whole.old) (desugared_telescope tele.now)).0.entries) }
    ensures left { OnOk result (state_of store.new whole.new
        ≡ (types.fill_telescope (plain_signature sig.now) (map plain_named variables.now)
        (types.no_bindings_yet [], state_of store.old whole.old) (desugared_telescope tele.now)).1) }
{
    let scope = Scope::new(store.alloc());
    fill_telescope(tele, sig, variables, &scope, store, whole)
}

/// An object without locals, at a simple type.
fn object_alone(
    sig: &Signature,
    variables: &[Implicit],
    simple: &Simple,
    obj: &PObj,
    store: &mut Store,
    whole: &mut bool,
) -> Result<Obj, Shortage>
    ensures made { IfOk result (λ o.
        plain_obj o
        ≡ (walk.fill_object (plain_signature sig.now) (map plain_named variables.now) []
        (Some (plain_simple simple.now)) (desugared_object obj.now) (state_of store.old whole.old)).0) }
    ensures left { OnOk result (state_of store.new whole.new
        ≡ (walk.fill_object (plain_signature sig.now) (map plain_named variables.now) []
        (Some (plain_simple simple.now)) (desugared_object obj.now) (state_of store.old whole.old)).1) }
{
    let scope = Scope::new(store.alloc());
    fill_object(obj, sig, variables, &scope, Some(simple), store, whole)
}

/// What is declared.
fn fill_class(
    sig: &Signature,
    variables: &[Implicit],
    class: &PClass,
    store: &mut Store,
    whole: &mut bool,
) -> Result<Class, Shortage>
    ensures { IfOk result (λ c.
        (plain_class c, state_of store.new whole.new)
        ≡ spec.fill_class (plain_signature sig.now) (map plain_named variables.now) (class_of class.now)
        (state_of store.old whole.old)) }
{
    match class {
        PClass::Family(tele) => {
            let entries = entries_alone(sig, variables, tele, store, whole)?;
            Ok(family(store.alloc(), entries.as_slice())?)
        }
        PClass::Constant(ty) => Ok(Class::Constant(type_alone(sig, variables, ty, store, whole)?)),
    }
}

/// A family, by the entries of its arguments.
#[tactic(auto, using(clf_syntax::specs::PlainTypes::plain_type_laws, celf_explicit::specs::Parts::kind_laws))]
fn family(alloc: Global, entries: &[TeleEntry]) -> Result<Class, AllocError>
    ensures { IfOk result
        (λ c. plain_class c ≡ family_of (kind_of (telescope_of (map plain_tele_entry entries.now)))) }
{
    let args = arguments(alloc, entries)?;
    Ok(Class::Family(Kind { args }))
}

/// The types of entries.
fn arguments(alloc: Global, entries: &[TeleEntry]) -> Result<Items<Ty>, AllocError>
    ensures { IfOk result (λ ts. map plain_ty ts ≡ map entry_type (map plain_tele_entry entries.now)) }
{
    let mut args = Items::new(alloc);
    for entry in entries {
        args.push(argument(alloc, entry)?)?;
    }
    Ok(args)
}

#[tactic(auto, using(clf_syntax::specs::PlainTypes::plain_type_laws))]
fn argument(alloc: Global, entry: &TeleEntry) -> Result<Ty, AllocError>
    ensures { IfOk result (λ t. plain_ty t ≡ entry_type (plain_tele_entry entry.now)) }
{
    entry.ty.copy(alloc)
}

#[tactic(auto, using(crate::proofs::Forms::telescope_made))]
fn trace(entries: Items<TeleEntry>) -> Core
    ensures { plain_core result ≡ traces (telescope_of (map plain_tele_entry entries)) }
{
    Core::Trace {
        tele: Tele { entries },
    }
}
