//! The ids of the variables of the right steps, and the candidates.
ghost use Rattle.std.specs.Prelude.{◌≡◌, IfOk, List, map, replicate};
ghost use Rattle.clf_syntax.specs.Plain.{plain_step};
ghost use Rattle.trace_equal.specs.Comparing as spec;
ghost use Rattle.trace_equal.specs.Places.{from_on};

use crate::tables::Run;
use clf_syntax::Step;
use sqlite_items::Items;
use std::alloc::{AllocError, Global};

/// For each right step the ids of the variables before it, and the ids of all variables of the right steps.
#[derive(Drop)]
pub struct Rights {
    pub before: Items<Run>,
    pub all: Run,
}

/// The variables of the steps have the ids from `fresh` on.
#[tactic(auto, using(clf_syntax::specs::Plain::plain_laws))]
pub fn right_ids(alloc: Global, steps: &[Step], fresh: u64) -> Result<Rights, AllocError>
    ensures before { IfOk result (λ rights. rights.before ≡ spec.runs_from fresh 0 (map plain_step steps.now)) }
    ensures all { IfOk result
        (λ rights. rights.all ≡ spec.run_of fresh (spec.count_from 0 (map plain_step steps.now))) }
{
    let mut before = Items::new(alloc);
    let mut count: usize = 0;
    for step in steps {
        before.push(Run {
            first: fresh,
            count,
        })?;
        let Some(next) = count.checked_add(step.modes.len()) else {
            return Err(AllocError);
        };
        count = next;
    }
    Ok(Rights {
        before,
        all: Run {
            first: fresh,
            count,
        },
    })
}

/// The numbers below `count`, in order.
#[tactic(auto, using(crate::proofs::ComparingLaws::number_laws))]
pub fn all_places(alloc: Global, count: usize) -> Result<Items<usize>, AllocError>
    ensures { IfOk result (λ places. places ≡ from_on 0 count) }
{
    let mut places = Items::new(alloc);
    for place in 0..count {
        places.push(place)?;
    }
    Ok(places)
}

/// The same candidates for so many steps.
pub fn each_with<'a>(
    alloc: Global,
    places: &'a [usize],
    count: usize,
) -> Result<Items<&'a [usize]>, AllocError>
    ensures { IfOk result (λ candidates. map (λ c. c.now) candidates ≡ replicate count places.now) }
{
    let mut candidates = Items::new(alloc);
    for _step in 0..count {
        candidates.push(places)?;
    }
    Ok(candidates)
}
