//! What is told where an item has no tree.
ghost use Rattle.clf_sig.specs.Signature.{plain_signature};
ghost use Rattle.metavars.specs.Stored.{constants as stored_constants};
ghost use Rattle.celf_conform.specs.Conforms.{IsOver};
ghost use Rattle.celf_reconstruct.specs.Steps.{IsFor, IsIllTyped};
ghost use Rattle.std.specs.Prelude.{◌≡◌, IfErr, IfOk, map};
ghost use Rattle.clf_syntax.specs.PlainSimple.{plain_simple};
ghost use Rattle.clf_syntax.specs.Wide.{IsWant};

use crate::naming::add_metas;
use crate::sides::mismatch;
use celf_conform::first_misfit;
use celf_replies::{Mismatch, Why};
use clf_sig::{Core, Signature};
use clf_syntax::{OrWide, Simple, Want};
use metavars::Store;
use sqlite_items::Items;
use std::alloc::Global;

/// Why an item is ill typed that is no tree as it is read, since something is left to be found that has no known simple
/// type: the first place that does not conform. These are the simple types of the constants.
pub fn misfit_of(
    alloc: Global,
    sig: &Signature,
    constants: &Items<Simple>,
    store: &Store,
    core: &Core,
) -> OrWide<Why>
    requires over { IsOver (plain_signature sig.now) (map plain_simple constants.now) }
    ensures { IsFor IsIllTyped result }
{
    match store_over(alloc, constants.as_slice(), store.metas()) {
        Ok(store) => misfit(alloc, sig, &store, core),
        Err(want) => OrWide::from(want),
    }
}

/// A store of its own, of these constants and metavariables: what is read in part says nothing of the constants of the
/// store in which it was read.
fn store_over(alloc: Global, constants: &[Simple], metas: &[Simple]) -> Result<Store, Want>
    ensures constants { IfOk result (λ s. stored_constants s ≡ map plain_simple constants.now) }
    ensures wanting { IfErr result IsWant }
{
    let mut store = Store::new(alloc, constants)?;
    add_metas(alloc, &mut store, metas)?;
    Ok(store)
}

fn misfit(alloc: Global, sig: &Signature, store: &Store, core: &Core) -> OrWide<Why>
    requires over { IsOver (plain_signature sig.now) (stored_constants store.now) }
    ensures { IsFor IsIllTyped result }
{
    match first_misfit(alloc, sig, store, core) {
        Ok(Some(misfit)) => ill_typed(mismatch(misfit)),
        Ok(None) => ill_typed(Mismatch::NotClosed),
        Err(_) => OrWide::NoMemory,
    }
}

/// That an item is ill typed for this.
fn ill_typed(mismatch: Mismatch) -> OrWide<Why>
    ensures { IsFor IsIllTyped result }
{
    OrWide::Fault(Why::IllTyped(mismatch))
}
