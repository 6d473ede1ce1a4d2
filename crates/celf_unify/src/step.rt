//! The steps of unification.
ghost use Rattle.std.specs.Prelude.{◌≡◌, IfErr, OnOk};
ghost use Rattle.clf_syntax.specs.Wide.{IsWant};
ghost use Rattle.metavars.specs.Stored.{IsPart};
ghost use Rattle.celf_unify.specs.Steps.{MayTake, Takes};

use crate::narrow::narrow;
use clf_syntax::{Obj, Want};
use metavars::Store;

/// A metavariable gets a solution, or becomes a new one on the arguments of the mask, the last argument first.
#[derive(Drop)]
pub enum Step {
    Assign { meta: u32, solution: Obj },
    Narrow { meta: u32, mask: Vec<bool> },
}

/// Takes a step. The store is only added to.
pub fn take(store: &mut Store, step: Step) -> Result<(), Want>
    requires may { MayTake store.old step }
    ensures taken { OnOk result (Takes store.old step store.new) }
    ensures part { IsPart store.old store.new }
    ensures wanting { IfErr result IsWant }
{
    match step {
        Step::Assign { meta, solution } => store.solve(meta, solution),
        Step::Narrow { meta, mask } => narrow(store, meta, mask.as_slice()),
    }
}
