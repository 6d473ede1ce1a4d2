//! Substitution in types, telescopes and kinds.
ghost use Rattle.std.specs.Prelude.{◌≡◌, map};
ghost use Rattle.clf_syntax.specs.TypeTree.{telescope_of};
ghost use Rattle.clf_syntax.specs.Plain.{plain_obj};
ghost use Rattle.clf_syntax.specs.PlainTypes.{plain_ty, plain_tele, plain_tele_entry};
ghost use Rattle.hered_put.specs.Answers.{Answers};
ghost use Rattle.hered_put.specs.Environments.{environment_of};
ghost use Rattle.hered_put.specs.TypePieces as piece;

use crate::bound::Bound;
use crate::environment::Environment;
use crate::fault::PutFault;
use crate::object::put_object;
use clf_syntax::{Obj, Tele, TeleEntry, Ty};
use sqlite_items::{Boxed, Items};
use std::alloc::Global;

#[tactic(auto, using(crate::proofs::TypePieces::index_laws))]
fn put_indices(
    alloc: Global,
    indices: &[Obj],
    environment: &Environment<'_>,
    bound: Bound,
) -> Result<Items<Obj>, PutFault>
    ensures { Answers (λ ns. map plain_obj ns)
        (piece.indices_of bound.rank (environment_of environment.now) (map plain_obj indices.now)) result }
{
    let mut put = Items::new(alloc);
    for index in indices {
        put.push(put_object(alloc, index, environment, bound)?)?;
    }
    Ok(put)
}

#[tactic(auto, using(clf_syntax::specs::PlainTypes::plain_type_laws, crate::proofs::TypePieces::family_laws))]
fn put_family(
    alloc: Global,
    family: u32,
    indices: &[Obj],
    environment: &Environment<'_>,
    bound: Bound,
) -> Result<Ty, PutFault>
    ensures { Answers plain_ty (piece.family_of family
        (piece.indices_of bound.rank (environment_of environment.now) (map plain_obj indices.now))) result }
{
    Ok(Ty::Fam {
        family,
        indices: put_indices(alloc, indices, environment, bound)?,
    })
}

#[cycle(put_type)]
#[tactic(auto, using(clf_syntax::specs::PlainTypes::plain_type_laws, crate::proofs::TypePieces::type_laws))]
pub fn put_type(
    alloc: Global,
    ty: &Ty,
    environment: &Environment<'_>,
    bound: Bound,
) -> Result<Ty, PutFault>
    ensures { Answers plain_ty (piece.type_of bound.rank (environment_of environment.now) (plain_ty ty.now)) result }
{
    match ty {
        Ty::Fam { family, indices } => {
            put_family(alloc, *family, indices.as_slice(), environment, bound)
        }
        Ty::Fun { mode, dom, cod } => {
            let dom = put_type(alloc, dom.get(), environment, bound)?;
            let inner = environment.under(1)?;
            let cod = put_type(alloc, cod.get(), &inner, bound)?;
            Ok(Ty::Fun {
                mode: *mode,
                dom: Boxed::new(alloc, dom)?,
                cod: Boxed::new(alloc, cod)?,
            })
        }
        Ty::With { left, right } => {
            let left = put_type(alloc, left.get(), environment, bound)?;
            let right = put_type(alloc, right.get(), environment, bound)?;
            Ok(Ty::With {
                left: Boxed::new(alloc, left)?,
                right: Boxed::new(alloc, right)?,
            })
        }
        Ty::Top => Ok(Ty::Top),
        Ty::Monad { tele } => Ok(Ty::Monad {
            tele: put_telescope(alloc, tele, environment, bound)?,
        }),
    }
}

#[cycle(put_type)]
#[tactic(auto, using(clf_syntax::specs::PlainTypes::plain_type_laws, crate::proofs::TypePieces::type_laws))]
fn put_telescope(
    alloc: Global,
    tele: &Tele,
    environment: &Environment<'_>,
    bound: Bound,
) -> Result<Tele, PutFault>
    ensures { Answers plain_tele (piece.tele_of bound.rank (environment_of environment.now) (plain_tele tele.now))
        result }
{
    Ok(Tele {
        entries: put_tele_entries(alloc, tele.entries.as_slice(), environment, bound)?,
    })
}

/// In the rest of a telescope, each entry of which binds a variable in those after it.
#[cycle(put_type)]
#[tactic(auto, using(clf_syntax::specs::PlainTypes::plain_type_laws, crate::proofs::TypePieces::entries_laws))]
pub fn put_tele_entries(
    alloc: Global,
    entries: &[TeleEntry],
    environment: &Environment<'_>,
    bound: Bound,
) -> Result<Items<TeleEntry>, PutFault>
    ensures { Answers (λ es. telescope_of (map plain_tele_entry es)) (piece.tele_of bound.rank
        (environment_of environment.now) (telescope_of (map plain_tele_entry entries.now))) result }
{
    let mut inner = *environment;
    let mut put = Items::new(alloc);
    for entry in entries {
        put.push(put_tele_entry(alloc, entry, &inner, bound)?)?;
        inner = inner.under(1)?;
    }
    Ok(put)
}

#[cycle(put_type)]
#[tactic(auto, using(clf_syntax::specs::PlainTypes::plain_type_laws, crate::proofs::TypePieces::type_laws))]
fn put_tele_entry(
    alloc: Global,
    entry: &TeleEntry,
    environment: &Environment<'_>,
    bound: Bound,
) -> Result<TeleEntry, PutFault>
    ensures { Answers plain_tele_entry
        (piece.tele_entry_of bound.rank (environment_of environment.now) (plain_tele_entry entry.now)) result }
{
    Ok(TeleEntry {
        mode: entry.mode,
        ty: put_type(alloc, &entry.ty, environment, bound)?,
    })
}

/// In the rest of a kind, each argument of which binds a variable in those after it.
#[tactic(auto, using(crate::proofs::TypePieces::kind_laws))]
pub fn put_kind_args(
    alloc: Global,
    args: &[Ty],
    environment: &Environment<'_>,
    bound: Bound,
) -> Result<Items<Ty>, PutFault>
    ensures { Answers (λ ts. map plain_ty ts)
        (piece.kind_of bound.rank (environment_of environment.now) (map plain_ty args.now)) result }
{
    let mut inner = *environment;
    let mut put = Items::new(alloc);
    for arg in args {
        put.push(put_type(alloc, arg, &inner, bound)?)?;
        inner = inner.under(1)?;
    }
    Ok(put)
}
