//! Patterns against telescopes.
ghost use Rattle.clf_syntax.specs.PlainTypes.{plain_tele};
ghost use Rattle.clf_decision.specs.Checking.{pattern_left};
ghost use Rattle.clf_kernel.specs.Exact.{ChecksPattern};
ghost use Rattle.clf_kernel.specs.Stops.{Gives};

use crate::refusal::{Cause, Refusal, Stop, count, fault, refuse};
use clf_syntax::{Mode, OrWide, Tele, is_same_mode};
use std::alloc::Global;

/// Whether a pattern fits a telescope: it has as many modes as the telescope has entries, and the same.
///
/// It refuses where it does not, with an empty path and the number of entries or the first mode that differs.
#[tactic(auto, using(crate::proofs::Stops::answer_laws))]
pub fn check_pattern(alloc: Global, modes: &[Mode], tele: &Tele) -> Result<(), OrWide<Refusal>>
    ensures exact { ChecksPattern modes.now (plain_tele tele.now) result }
{
    match same_pattern(alloc, modes, tele) {
        Ok(_) => Ok(()),
        Err(stop) => Err(fault(stop)),
    }
}

/// Whether a pattern has as many modes as a telescope has entries, and the same.
#[tactic(auto, using(crate::proofs::Stops::stop_laws))]
pub fn same_pattern(alloc: Global, modes: &[Mode], tele: &Tele) -> Result<(), Stop>
    ensures { Gives (λ x. x) (pattern_left modes.now (plain_tele tele.now)) result }
{
    let entries = tele.entries.as_slice();
    if modes.len() != entries.len() {
        let wanted = count(alloc, entries.len())?;
        let found = count(alloc, modes.len())?;
        return Err(refuse(alloc, Cause::Width { wanted, found }));
    }
    let mut at = 0;
    while at < modes.len() {
        let wanted = entries[at].mode;
        let found = modes[at];
        if !is_same_mode(found, wanted) {
            return Err(refuse(alloc, Cause::ModeDiffers { wanted, found }));
        }
        at += 1;
    }
    Ok(())
}
