//! The core of an item, where all of it is written.
ghost use Rattle.std.specs.Prelude.{◌≡◌, [], map, IfOk, option_copied, option_map};
ghost use Rattle.clf_syntax.specs.Plain.{plain_obj};
ghost use Rattle.clf_syntax.specs.PlainTypes.{plain_ty, plain_tele, plain_tele_entry};
ghost use Rattle.clf_sig.specs.Core.{plain_core, declares, queries, traces, checks};
ghost use Rattle.clf_sig.specs.Entry.{constant_of, family_of};
ghost use Rattle.clf_sig.specs.Signature.{plain_class, plain_signature};
ghost use Rattle.celf_sugar.specs.Plain.{body_of, class_of, desugared_item, desugared_object, desugared_type};
ghost use Rattle.celf_sugar.specs.PlainTree.{equal, check};
ghost use Rattle.celf_places.specs.Combined.{combined};
ghost use Rattle.celf_places.specs.Locals.{plain_place};
ghost use Rattle.celf_explicit.specs.Objects.{read_object as read_object_of};
ghost use Rattle.celf_explicit.specs.Types.{kind_of, read_type as read_type_of};
ghost use Rattle.celf_explicit.specs.Parts.{entry_type};
ghost use Rattle.celf_explicit.specs.Explicit as spec;

use crate::objects::read_object;
use crate::types::{read_telescope, read_type};
use celf_places::{Locals, boxed, simple_of};
use celf_sugar::{PClass, PObj, PTy, Plain, PlainBody};
use celf_unknown::{UnknownName, first_unknown, unknown_fault};
use clf_sig::{Class, Core, Entry, Signature};
use clf_syntax::{Kind, Name, Obj, OrWide, Shortage, Simple, Tele, TeleEntry, Ty};
use sqlite_items::{Boxed, Items};
use std::alloc::{AllocError, Global};

/// The core of an item over a signature; none exactly where it is not explicit. The fault is the first name of the item
/// that has no meaning at its place.
pub fn explicit(
    alloc: Global,
    sig: &Signature,
    plain: &Plain,
) -> Result<Option<Core>, OrWide<UnknownName>>
    ensures { spec.IsReading (plain_signature sig.now) (desugared_item plain.now) result }
{
    match first_unknown(alloc, sig, plain)? {
        Some(name) => Err(unknown_fault(alloc, name)),
        None => match core_of_body(alloc, sig, &plain.body) {
            Ok(core) => Ok(core),
            Err(short) => Err(OrWide::from(short.want(alloc))),
        },
    }
}

/// The core of what an item says.
fn core_of_body(alloc: Global, sig: &Signature, body: &PlainBody) -> Result<Option<Core>, Shortage>
    ensures { IfOk result
        (λ core. option_map plain_core core ≡ spec.core_of_body (plain_signature sig.now) (body_of body.now)) }
{
    let mut locals = Locals::new(alloc);
    match body {
        PlainBody::Declare {
            name,
            implicit,
            class,
        } => declared(alloc, sig, name, *implicit, class),
        PlainBody::Query {
            d: _,
            e: _,
            l: _,
            a: _,
            ty,
        } => Ok(query(read_type(ty, alloc, sig, &mut locals)?)),
        PlainBody::Trace { n: _, tele } => Ok(trace(read_telescope(
            tele,
            alloc,
            sig,
            &mut locals,
        )?)),
        PlainBody::Equal { left, right, ty } => equation(alloc, sig, left, right, ty),
        PlainBody::Check { obj, ty } => checked(alloc, sig, obj, ty),
    }
}

/// The core of a declaration.
fn declared(
    alloc: Global,
    sig: &Signature,
    name: &Name,
    implicit: u32,
    class: &PClass,
) -> Result<Option<Core>, Shortage>
    ensures { IfOk result (λ core.
        option_map plain_core core
        ≡ option_map (λ c. declares name.now (spec.entry_of implicit c))
        (spec.read_class (plain_signature sig.now) (class_of class.now))) }
{
    let name = name.copy(alloc)?;
    let class = class_read(alloc, sig, class)?;
    Ok(declaration(name, implicit, class))
}

fn declaration(name: Name, implicit: u32, class: Option<Class>) -> Option<Core>
    ensures { option_map plain_core result
        ≡ option_map (λ c. declares name (spec.entry_of implicit c)) (option_map plain_class class) }
{
    let class = class?;
    Some(Core::Declare {
        name,
        entry: Entry { implicit, class },
    })
}

/// A kind, by the telescope of its arguments, or a type.
fn class_read(alloc: Global, sig: &Signature, class: &PClass) -> Result<Option<Class>, Shortage>
    ensures { IfOk result
        (λ c. option_map plain_class c ≡ spec.read_class (plain_signature sig.now) (class_of class.now)) }
{
    let mut locals = Locals::new(alloc);
    match class {
        PClass::Family(tele) => family(alloc, read_telescope(tele, alloc, sig, &mut locals)?),
        PClass::Constant(ty) => Ok(constant(read_type(ty, alloc, sig, &mut locals)?)),
    }
}

fn constant(ty: Option<Ty>) -> Option<Class>
    ensures { option_map plain_class result ≡ option_map constant_of (option_map plain_ty ty) }
{
    let ty = ty?;
    Some(Class::Constant(ty))
}

#[tactic(auto, using(clf_syntax::specs::PlainTypes::plain_type_laws, crate::specs::Parts::kind_laws))]
fn family(alloc: Global, tele: Option<Tele>) -> Result<Option<Class>, Shortage>
    ensures { IfOk result
        (λ c. option_map plain_class c ≡ option_map (λ s. family_of (kind_of s)) (option_map plain_tele tele)) }
{
    match tele {
        Some(tele) => {
            let args = arguments(alloc, tele.entries.as_slice());
            drop(tele);
            Ok(Some(Class::Family(Kind { args: args? })))
        }
        None => Ok(None),
    }
}

/// The types of entries.
fn arguments(alloc: Global, entries: &[TeleEntry]) -> Result<Items<Ty>, AllocError>
    ensures { IfOk result (λ ts. map plain_ty ts ≡ map entry_type (map plain_tele_entry entries.now)) }
{
    let mut args = Items::new(alloc);
    for entry in entries {
        args.push(argument(alloc, entry)?)?;
    }
    Ok(args)
}

#[tactic(auto, using(clf_syntax::specs::PlainTypes::plain_type_laws))]
fn argument(alloc: Global, entry: &TeleEntry) -> Result<Ty, AllocError>
    ensures { IfOk result (λ t. plain_ty t ≡ entry_type (plain_tele_entry entry.now)) }
{
    entry.ty.copy(alloc)
}

fn query(ty: Option<Ty>) -> Option<Core>
    ensures { option_map plain_core result ≡ option_map queries (option_map plain_ty ty) }
{
    let ty = ty?;
    Some(Core::Query { ty })
}

fn trace(tele: Option<Tele>) -> Option<Core>
    ensures { option_map plain_core result ≡ option_map traces (option_map plain_tele tele) }
{
    let tele = tele?;
    Some(Core::Trace { tele })
}

/// The core of an object at the simple type that is left of a type.
fn object_at(
    alloc: Global,
    sig: &Signature,
    simple: &Option<Boxed<Simple>>,
    obj: &PObj,
) -> Result<Option<Boxed<Obj>>, Shortage>
    ensures { IfOk result (λ o.
        option_map plain_obj o
        ≡ read_object_of (plain_signature sig.now) [] (plain_place simple.now) (desugared_object obj.now)) }
{
    let mut locals = Locals::new(alloc);
    boxed(
        alloc,
        read_object(obj, alloc, sig, place_of(simple), &mut locals),
    )
}

fn place_of(simple: &Option<Boxed<Simple>>) -> Option<&Simple>
    ensures { option_copied result ≡ simple.now }
{
    match simple {
        Some(simple) => Some(simple.get()),
        None => None,
    }
}

/// The core of a check.
fn checked(alloc: Global, sig: &Signature, obj: &PObj, ty: &PTy) -> Result<Option<Core>, Shortage>
    ensures { IfOk result (λ core.
        option_map plain_core core
        ≡ spec.core_of_body (plain_signature sig.now)
        (check (desugared_object obj.now) (desugared_type ty.now))) }
{
    let simple = boxed(alloc, simple_of(alloc, sig, ty))?;
    let obj = object_at(alloc, sig, &simple, obj)?;
    let ty = type_read(alloc, sig, ty)?;
    Ok(check_core(obj, ty))
}

/// The core of an equation.
fn equation(
    alloc: Global,
    sig: &Signature,
    left: &PObj,
    right: &PObj,
    ty: &PTy,
) -> Result<Option<Core>, Shortage>
    ensures { IfOk result (λ core.
        option_map plain_core core
        ≡ spec.core_of_body (plain_signature sig.now)
        (equal (desugared_object left.now) (desugared_object right.now) (desugared_type ty.now))) }
{
    let simple = boxed(alloc, simple_of(alloc, sig, ty))?;
    let left = object_at(alloc, sig, &simple, left)?;
    let right = object_at(alloc, sig, &simple, right)?;
    let ty = type_read(alloc, sig, ty)?;
    Ok(equation_core(left, right, ty))
}

/// The core of a type without locals.
fn type_read(alloc: Global, sig: &Signature, ty: &PTy) -> Result<Option<Boxed<Ty>>, Shortage>
    ensures { IfOk result
        (λ t. option_map plain_ty t ≡ read_type_of (plain_signature sig.now) [] (desugared_type ty.now)) }
{
    let mut locals = Locals::new(alloc);
    boxed(alloc, read_type(ty, alloc, sig, &mut locals))
}

fn check_core(obj: Option<Boxed<Obj>>, ty: Option<Boxed<Ty>>) -> Option<Core>
    ensures { option_map plain_core result ≡ combined checks (option_map plain_obj obj) (option_map plain_ty ty) }
{
    let obj = obj?;
    let ty = ty?;
    Some(Core::Check {
        obj: obj.into_inner(),
        ty: ty.into_inner(),
    })
}

fn equation_core(
    left: Option<Boxed<Obj>>,
    right: Option<Boxed<Obj>>,
    ty: Option<Boxed<Ty>>,
) -> Option<Core>
    ensures { option_map plain_core result
        ≡ combined spec.equates_both
        (combined spec.both_objects (option_map plain_obj left) (option_map plain_obj right))
        (option_map plain_ty ty) }
{
    let left = left?;
    let right = right?;
    let ty = ty?;
    Some(Core::Equal {
        left: left.into_inner(),
        right: right.into_inner(),
        ty: ty.into_inner(),
    })
}
