//! Binders' heads in types become their variables.
ghost use Rattle.std.specs.Prelude.{◌≡◌, IfOk, map};
ghost use Rattle.clf_syntax.specs.Plain.{plain_obj};
ghost use Rattle.clf_syntax.specs.PlainTypes.{plain_ty, plain_tele, plain_tele_entry};
ghost use Rattle.clf_syntax.specs.TypeTree.{family as family_type, telescope_of};
ghost use Rattle.celf_front.specs.FrontHeads.{heads_by};
ghost use Rattle.celf_front.specs.Replaced as spec;

use crate::heads::{Front, deeper};
use crate::objects::front_object;
use clf_syntax::{Obj, Shortage, Tele, TeleEntry, Ty};
use sqlite_items::{Boxed, Items};
use std::alloc::Global;

fn front_indices(
    alloc: Global,
    indices: &[Obj],
    front: &Front<'_>,
    depth: u64,
) -> Result<Items<Obj>, Shortage>
    ensures { IfOk result (λ ns. map plain_obj ns
        ≡ map (spec.replaced (heads_by front.now) depth) (map plain_obj indices.now)) }
{
    let mut placed = Items::new(alloc);
    for index in indices {
        placed.push(front_object(alloc, index, front, depth)?)?;
    }
    Ok(placed)
}

#[tactic(auto, using(clf_syntax::specs::PlainTypes::plain_type_laws))]
fn front_family(
    alloc: Global,
    family: u32,
    indices: &[Obj],
    front: &Front<'_>,
    depth: u64,
) -> Result<Ty, Shortage>
    ensures { IfOk result (λ x. plain_ty x
        ≡ family_type family (map (spec.replaced (heads_by front.now) depth) (map plain_obj indices.now))) }
{
    Ok(Ty::Fam {
        family,
        indices: front_indices(alloc, indices, front, depth)?,
    })
}

#[cycle(front_type)]
#[tactic(auto, using(clf_syntax::specs::PlainTypes::plain_type_laws, crate::proofs::Replacing::replacing_type_laws))]
pub fn front_type(alloc: Global, ty: &Ty, front: &Front<'_>, depth: u64) -> Result<Ty, Shortage>
    ensures { IfOk result (λ x. plain_ty x
        ≡ spec.replaced_type (heads_by front.now) depth (plain_ty ty.now)) }
{
    match ty {
        Ty::Fam { family, indices } => {
            front_family(alloc, *family, indices.as_slice(), front, depth)
        }
        Ty::Fun { mode, dom, cod } => {
            let dom = front_type(alloc, dom.get(), front, depth)?;
            let cod = front_type(alloc, cod.get(), front, deeper(depth, 1)?)?;
            Ok(Ty::Fun {
                mode: *mode,
                dom: Boxed::new(alloc, dom)?,
                cod: Boxed::new(alloc, cod)?,
            })
        }
        Ty::With { left, right } => {
            let left = front_type(alloc, left.get(), front, depth)?;
            let right = front_type(alloc, right.get(), front, depth)?;
            Ok(Ty::With {
                left: Boxed::new(alloc, left)?,
                right: Boxed::new(alloc, right)?,
            })
        }
        Ty::Top => Ok(Ty::Top),
        Ty::Monad { tele } => Ok(Ty::Monad {
            tele: front_telescope(alloc, tele, front, depth)?,
        }),
    }
}

#[cycle(front_type)]
#[tactic(auto, using(clf_syntax::specs::PlainTypes::plain_type_laws, crate::proofs::Replacing::replacing_type_laws))]
fn front_telescope(
    alloc: Global,
    tele: &Tele,
    front: &Front<'_>,
    depth: u64,
) -> Result<Tele, Shortage>
    ensures { IfOk result (λ x. plain_tele x
        ≡ spec.replaced_telescope (heads_by front.now) depth (plain_tele tele.now)) }
{
    Ok(Tele {
        entries: front_entries(alloc, tele.entries.as_slice(), front, depth)?,
    })
}

#[cycle(front_type)]
#[tactic(auto, using(clf_syntax::specs::PlainTypes::plain_type_laws, crate::proofs::Replacing::replacing_type_laws))]
fn front_entries(
    alloc: Global,
    entries: &[TeleEntry],
    front: &Front<'_>,
    depth: u64,
) -> Result<Items<TeleEntry>, Shortage>
    ensures { IfOk result (λ es. telescope_of (map plain_tele_entry es)
        ≡ spec.replaced_telescope (heads_by front.now) depth (telescope_of (map plain_tele_entry entries.now))) }
{
    let mut inner = depth;
    let mut placed = Items::new(alloc);
    for entry in entries {
        placed.push(front_entry(alloc, entry, front, inner)?)?;
        inner = deeper(inner, 1)?;
    }
    Ok(placed)
}

#[cycle(front_type)]
#[tactic(auto, using(clf_syntax::specs::PlainTypes::plain_type_laws, crate::proofs::Replacing::replacing_type_laws))]
fn front_entry(
    alloc: Global,
    entry: &TeleEntry,
    front: &Front<'_>,
    depth: u64,
) -> Result<TeleEntry, Shortage>
    ensures { IfOk result (λ x. plain_tele_entry x
        ≡ spec.replaced_tele_entry (heads_by front.now) depth (plain_tele_entry entry.now)) }
{
    Ok(TeleEntry {
        mode: entry.mode,
        ty: front_type(alloc, &entry.ty, front, depth)?,
    })
}

pub fn front_arguments(
    alloc: Global,
    args: &[Ty],
    front: &Front<'_>,
    depth: u64,
) -> Result<Items<Ty>, Shortage>
    ensures { IfOk result (λ ts. map plain_ty ts
        ≡ spec.replaced_kind (heads_by front.now) depth (map plain_ty args.now)) }
{
    let mut inner = depth;
    let mut placed = Items::new(alloc);
    for arg in args {
        placed.push(front_type(alloc, arg, front, inner)?)?;
        inner = deeper(inner, 1)?;
    }
    Ok(placed)
}
