//! The metavariables of kinds and types by first occurrence.
ghost use Rattle.std.specs.Prelude.{◌∷◌, [], OnOk};
ghost use Rattle.clf_syntax.specs.PlainTypes.{plain_ty};
ghost use Rattle.clf_sig.specs.Signature.{plain_class};
ghost use Rattle.celf_front.specs.Occurring.{heads_in_type, heads_in_class};
ghost use Rattle.celf_front.specs.Metavariables.{metavariables, ListsMore};

use crate::occurring_types::{note_class, note_type};
use clf_sig::Class;
use clf_syntax::{Head, Ty};
use sqlite_items::Items;
use std::alloc::{AllocError, Global};

/// Lists the metavariables of a kind or a type that are not yet listed, by first occurrence.
pub fn list_of_class(
    alloc: Global,
    class: &Class,
    listed: &mut Items<u32>,
) -> Result<(), AllocError>
    ensures { OnOk result
        (ListsMore (metavariables (heads_in_class (plain_class class.now))) listed.old listed.new) }
{
    let mut heads = Items::new(alloc);
    note_class(class, &mut heads)?;
    list_heads(heads.as_slice(), listed)
}

/// Lists the metavariables of a type that are not yet listed, by first occurrence.
pub fn list_of_type(alloc: Global, ty: &Ty, listed: &mut Items<u32>) -> Result<(), AllocError>
    ensures { OnOk result (ListsMore (metavariables (heads_in_type (plain_ty ty.now))) listed.old listed.new) }
{
    let mut heads = Items::new(alloc);
    note_type(ty, &mut heads)?;
    list_heads(heads.as_slice(), listed)
}

fn list_heads(heads: &[Head], listed: &mut Items<u32>) -> Result<(), AllocError>
    ensures { OnOk result (ListsMore (metavariables heads.now) listed.old listed.new) }
{
    for head in heads {
        list_head(*head, listed)?;
    }
    Ok(())
}

fn list_head(head: Head, listed: &mut Items<u32>) -> Result<(), AllocError>
    ensures { OnOk result (ListsMore (metavariables (head ∷ [])) listed.old listed.new) }
{
    match head {
        Head::Meta(meta) => list_one(meta, listed),
        _ => Ok(()),
    }
}

fn list_one(meta: u32, listed: &mut Items<u32>) -> Result<(), AllocError>
    ensures { OnOk result (ListsMore (meta ∷ []) listed.old listed.new) }
{
    if listed.as_slice().contains(&meta) {
        return Ok(());
    }
    listed.push(meta)?;
    Ok(())
}
