//! All solutions put in.
ghost use Rattle.std.specs.Prelude.{◌≡◌, map, IfErr, IfOk};
ghost use Rattle.clf_syntax.specs.TypeTree.{monad};
ghost use Rattle.clf_syntax.specs.Plain.{plain_obj};
ghost use Rattle.clf_syntax.specs.PlainTypes.{plain_ty, plain_tele, plain_kind};
ghost use Rattle.clf_syntax.specs.Wide.{IsWant};
ghost use Rattle.clf_sig.specs.Core.{plain_core};
ghost use Rattle.clf_sig.specs.Signature.{plain_class};
ghost use Rattle.metavars.specs.Becoming.{Each};
ghost use Rattle.metavars.specs.Stored.{additions};
ghost use Rattle.celf_solve.specs.Puts.{
  CanPutIn,
  ClassBecomes,
  ClassIsFormedIn,
  CoreBecomes,
  CoreIsFormedIn,
  EachIsFormedIn,
  HasPutIn,
  IsFormedIn,
  IsPutInto,
  IsTypedIn,
  KindBecomes,
  ObjectBecomes,
  TelescopeBecomes,
  TypeBecomes,
};

use crate::scene::Found;
use clf_sig::{Class, Core, Entry};
use clf_syntax::{Kind, Obj, OrWide, Tele, Ty, Want};
use metavars::Store;
use sqlite_items::Items;
use std::alloc::Global;

/// A tree and types with all solutions of a store put in. The store stays.
pub fn put_in(alloc: Global, core: Core, types: Items<Ty>, store: Store) -> Result<Found, Want>
    requires solved { HasPutIn (additions store) }
    requires tree { CoreIsFormedIn (additions store) (plain_core core) }
    requires types { EachIsFormedIn (additions store) (map plain_ty types) }
    ensures found { IfOk result (IsPutInto core types store) }
    ensures wanting { IfErr result IsWant }
{
    match core_in(alloc, &store, core) {
        Ok(core) => with_types(alloc, core, types, store),
        Err(want) => {
            drop(types);
            drop(store);
            Err(want)
        }
    }
}

/// What is found, with the types after all solutions are put in.
fn with_types(alloc: Global, core: Core, types: Items<Ty>, store: Store) -> Result<Found, Want>
    requires formed { EachIsFormedIn (additions store) (map plain_ty types) }
    ensures core { IfOk result (λ f. f.core ≡ core) }
    ensures store { IfOk result (λ f. f.store ≡ store) }
    ensures types { IfOk result (λ f.
        Each (TypeBecomes (additions store)) (map plain_ty types) (map plain_ty f.types)) }
    ensures wanting { IfErr result IsWant }
{
    match types_in(alloc, &store, types.as_slice()) {
        Ok(after) => {
            drop(types);
            Ok(Found {
                core,
                types: after,
                store,
            })
        }
        Err(want) => {
            drop(core);
            drop(types);
            drop(store);
            Err(want)
        }
    }
}

/// Types one by one. A solution has no free variable, so each may stand under the binders of those before it.
fn types_in(alloc: Global, store: &Store, types: &[Ty]) -> Result<Items<Ty>, Want>
    requires formed { EachIsFormedIn (additions store.now) (map plain_ty types.now) }
    ensures put_in { IfOk result (λ xs.
        Each (TypeBecomes (additions store.now)) (map plain_ty types.now) (map plain_ty xs)) }
    ensures wanting { IfErr result IsWant }
{
    let mut put = Items::new(alloc);
    for ty in types {
        put.push(type_in(store, ty)?)?;
    }
    Ok(put)
}

fn type_in(store: &Store, ty: &Ty) -> Result<Ty, Want>
    requires formed { IsFormedIn (additions store.now) (plain_ty ty.now) }
    ensures put_in { IfOk result (λ x. TypeBecomes (additions store.now) (plain_ty ty.now) (plain_ty x)) }
    ensures wanting { IfErr result IsWant }
{
    match store.instantiate_ty(ty) {
        Ok(instance) => Ok(instance),
        Err(OrWide::Fault(_)) => unreachable!(),
        Err(OrWide::NoMemory) => Err(Want::NoMemory),
        Err(OrWide::TooFar(wide)) => Err(Want::TooFar(wide)),
    }
}

fn object_in(store: &Store, obj: &Obj) -> Result<Obj, Want>
    requires typed { IsTypedIn (additions store.now) (plain_obj obj.now) }
    ensures put_in { IfOk result (λ x. ObjectBecomes (additions store.now) (plain_obj obj.now) (plain_obj x)) }
    ensures wanting { IfErr result IsWant }
{
    match store.instantiate(obj) {
        Ok(instance) => Ok(instance),
        Err(OrWide::Fault(_)) => unreachable!(),
        Err(OrWide::NoMemory) => Err(Want::NoMemory),
        Err(OrWide::TooFar(wide)) => Err(Want::TooFar(wide)),
    }
}

/// A telescope, as the one of a monad.
fn telescope_in(store: &Store, tele: Tele) -> Result<Tele, Want>
    requires solved { HasPutIn (additions store.now) }
    requires formed { IsFormedIn (additions store.now) (monad (plain_tele tele)) }
    ensures put_in { IfOk result (λ x. TelescopeBecomes (additions store.now) (plain_tele tele) (plain_tele x)) }
    ensures wanting { IfErr result IsWant }
{
    match type_in(store, &Ty::Monad { tele })? {
        Ty::Monad { tele } => Ok(tele),
        Ty::Fam { .. } | Ty::Fun { .. } | Ty::With { .. } | Ty::Top => unreachable!(),
    }
}

fn core_in(alloc: Global, store: &Store, core: Core) -> Result<Core, Want>
    requires solved { HasPutIn (additions store.now) }
    requires formed { CoreIsFormedIn (additions store.now) (plain_core core) }
    ensures put_in { IfOk result (λ x. CoreBecomes (additions store.now) (plain_core core) (plain_core x)) }
    ensures wanting { IfErr result IsWant }
{
    match core {
        Core::Declare { name, entry } => {
            let entry = entry_in(alloc, store, entry)?;
            Ok(Core::Declare { name, entry })
        }
        Core::Query { ty } => Ok(Core::Query {
            ty: type_in(store, &ty)?,
        }),
        Core::Trace { tele } => Ok(Core::Trace {
            tele: telescope_in(store, tele)?,
        }),
        Core::Equal { left, right, ty } => Ok(Core::Equal {
            ty: type_in(store, &ty)?,
            left: object_in(store, &left)?,
            right: object_in(store, &right)?,
        }),
        Core::Check { obj, ty } => Ok(Core::Check {
            ty: type_in(store, &ty)?,
            obj: object_in(store, &obj)?,
        }),
    }
}

/// The kind or the type of an entry. The count of implicit arguments stays.
fn entry_in(alloc: Global, store: &Store, entry: Entry) -> Result<Entry, Want>
    requires formed { ClassIsFormedIn (additions store.now) (plain_class entry.class) }
    ensures put_in { IfOk result (λ x.
        ClassBecomes (additions store.now) (plain_class entry.class) (plain_class x.class)) }
    ensures implicit { IfOk result (λ x. x.implicit ≡ entry.implicit) }
    ensures wanting { IfErr result IsWant }
{
    let Entry { implicit, class } = entry;
    Ok(Entry {
        implicit,
        class: class_in(alloc, store, class)?,
    })
}

fn class_in(alloc: Global, store: &Store, class: Class) -> Result<Class, Want>
    requires formed { ClassIsFormedIn (additions store.now) (plain_class class) }
    ensures put_in { IfOk result (λ x. ClassBecomes (additions store.now) (plain_class class) (plain_class x)) }
    ensures wanting { IfErr result IsWant }
{
    match class {
        Class::Family(kind) => Ok(Class::Family(kind_in(alloc, store, &kind)?)),
        Class::Constant(ty) => Ok(Class::Constant(type_in(store, &ty)?)),
    }
}

fn kind_in(alloc: Global, store: &Store, kind: &Kind) -> Result<Kind, Want>
    requires formed { EachIsFormedIn (additions store.now) (plain_kind kind.now) }
    ensures put_in { IfOk result (λ x. KindBecomes (additions store.now) (plain_kind kind.now) (plain_kind x)) }
    ensures wanting { IfErr result IsWant }
{
    Ok(Kind {
        args: types_in(alloc, store, kind.args.as_slice())?,
    })
}
