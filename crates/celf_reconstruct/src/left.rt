//! The metavariables that are left in what is found.
ghost use Rattle.std.specs.Prelude.{◌≡◌, [], map, IfOk, OnOk};
ghost use Rattle.clf_syntax.specs.PlainTypes.{plain_ty, plain_tele_entry};
ghost use Rattle.clf_syntax.specs.TypeTree.{telescope_of};
ghost use Rattle.clf_sig.specs.Core.{plain_core};
ghost use Rattle.clf_printer.specs.Metas.{appearing_telescope, appearing_type};
ghost use Rattle.celf_reconstruct.specs.Left.{metavariables_in, metavariables_with};

use clf_printer::{note_class, note_object, note_type};
use clf_sig::Core;
use clf_syntax::{TeleEntry, Ty};
use std::alloc::{AllocError, Global};

/// The metavariables of a core and of types, each once, in the order of their first appearance.
pub fn metavariables(alloc: Global, core: &Core, types: &[Ty]) -> Result<Vec<u32>, AllocError>
    ensures { IfOk result
        (λ metas. metas.items ≡ metavariables_with (plain_core core.now) (map plain_ty types.now)) }
{
    let mut metas = Vec::new(alloc);
    note_core(&mut metas, core)?;
    for ty in types {
        note_type(&mut metas, ty)?;
    }
    Ok(metas)
}

#[tactic(auto, using(clf_syntax::specs::PlainTypes::plain_type_laws))]
fn note_core(metas: &mut Vec<u32>, core: &Core) -> Result<(), AllocError>
    requires none { metas.old.items ≡ [] }
    ensures { OnOk result (metas.new.items ≡ metavariables_in (plain_core core.now)) }
{
    match core {
        Core::Declare { entry, .. } => note_class(metas, &entry.class),
        Core::Query { ty } => note_type(metas, ty),
        Core::Trace { tele } => note_entries(metas, tele.entries.as_slice()),
        Core::Equal { left, right, ty } => {
            note_type(metas, ty)?;
            note_object(metas, left)?;
            note_object(metas, right)
        }
        Core::Check { obj, ty } => {
            note_type(metas, ty)?;
            note_object(metas, obj)
        }
    }
}

fn note_entries(metas: &mut Vec<u32>, entries: &[TeleEntry]) -> Result<(), AllocError>
    ensures { OnOk result (metas.new.items
        ≡ appearing_telescope metas.old.items (telescope_of (map plain_tele_entry entries.now))) }
{
    for entry in entries {
        note_entry(metas, entry)?;
    }
    Ok(())
}

#[tactic(auto, using(clf_syntax::specs::PlainTypes::plain_type_laws))]
fn note_entry(metas: &mut Vec<u32>, entry: &TeleEntry) -> Result<(), AllocError>
    ensures { OnOk result (metas.new.items ≡ appearing_type metas.old.items (plain_tele_entry entry.now).1) }
{
    note_type(metas, &entry.ty)
}
