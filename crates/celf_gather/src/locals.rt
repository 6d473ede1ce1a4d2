//! The variables in scope with their simple types.
ghost use Rattle.std.specs.Prelude.{◌≡◌, IfOk};
ghost use Rattle.clf_syntax.specs.PlainSimple.{plain_simple_entry};
ghost use Rattle.clf_syntax.specs.PlainTypes.{plain_tele_entry};
ghost use Rattle.use_contexts.specs.Marks.{context};
ghost use Rattle.gathering.specs.Setting.{simple_locals as locals_of};
ghost use Rattle.celf_constraints.specs.Equated.{plain_locals};
ghost use Rattle.celf_gather.specs.Walks.{erased_entry};

use clf_syntax::{SimpleEntry, TeleEntry, erase};
use std::alloc::{AllocError, Global};
use use_contexts::Ctx;

/// The modes and simple types of the variables, the oldest first. It fails only where memory runs out.
pub fn simple_locals(alloc: Global, ctx: &Ctx) -> Result<Vec<SimpleEntry>, AllocError>
    ensures { IfOk result (λ locals. plain_locals locals.items ≡ locals_of (context ctx.now)) }
{
    let mut locals = Vec::new(alloc);
    for entry in ctx.entries.as_slice() {
        locals.push(simple_entry(alloc, entry)?)?;
    }
    Ok(locals)
}

/// A variable with the erasure of its type.
#[tactic(auto, using(clf_syntax::specs::PlainTypes::plain_type_laws, clf_syntax::specs::PlainSimple::plain_simple_laws))]
fn simple_entry(alloc: Global, entry: &TeleEntry) -> Result<SimpleEntry, AllocError>
    ensures { IfOk result (λ e. plain_simple_entry e ≡ erased_entry (plain_tele_entry entry.now)) }
{
    Ok(SimpleEntry {
        mode: entry.mode,
        ty: erase(alloc, &entry.ty)?,
    })
}
