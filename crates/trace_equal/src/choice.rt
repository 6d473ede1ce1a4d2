//! The steps of the right side that are taken for those of the left.
ghost use Rattle.std.specs.Prelude.{◌≡◌, ◌∷◌, ◌++◌, [], ◌<◌, IfOk, OnOk, MatchOption, length, map, false, true, slice_set, replicate};
ghost use Rattle.trace_equal.specs.Choosing as spec;

use crate::tables::Run;
use sqlite_items::Items;
use std::alloc::{AllocError, Global};

/// A candidate that is taken for a left step: which number of the candidates comes after it, its place among the right
/// steps, and the ids of its variables.
#[derive(Clone, Copy, Debug)]
pub struct Taken {
    pub next: usize,
    pub place: usize,
    pub run: Run,
}

/// What is taken for the left steps so far, in their order, and which right steps are used by that.
#[derive(Drop)]
pub struct Choice {
    pub taken: Items<Taken>,
    pub used: Items<bool>,
}

impl Choice {
    /// Nothing is taken, of so many right steps.
    pub fn new(alloc: Global, count: usize) -> Result<Choice, AllocError>
        ensures taken { IfOk result (λ choice. choice.taken ≡ []) }
        ensures used { IfOk result (λ choice. choice.used ≡ replicate count false) }
    {
        let mut used = Items::new(alloc);
        for _step in 0..count {
            used.push(false)?;
        }
        Ok(Choice {
            taken: Items::new(alloc),
            used,
        })
    }

    pub fn is_free(&self, place: usize) -> bool
        ensures { result ≡ spec.is_free self.now.used place }
    {
        match self.used.get(place) {
            Some(used) => !*used,
            None => true,
        }
    }

    pub fn take(&mut self, taken: Taken) -> Result<(), AllocError>
        requires { taken.place < length self.old.used }
        ensures taken { OnOk result (self.new.taken ≡ self.old.taken ++ taken ∷ []) }
        ensures used { OnOk result (self.new.used ≡ slice_set self.old.used taken.place true) }
    {
        self.taken.push(taken)?;
        self.used.set(taken.place, true);
        Ok(())
    }

    /// The last one that was taken is given back.
    pub fn give_back(&mut self) -> Option<Taken>
        ensures taken { MatchOption result ((self.old.taken ≡ []) × (self.new ≡ self.old))
            (λ last. self.old.taken ≡ self.new.taken ++ last ∷ []) }
        ensures used { MatchOption result (self.new.used ≡ self.old.used)
            (λ last. self.new.used ≡ slice_set self.old.used last.place false) }
    {
        let last = self.taken.pop()?;
        if last.place < self.used.len() {
            self.used.set(last.place, false);
        }
        Some(last)
    }

    /// The places that are taken.
    pub fn places(&self, alloc: Global) -> Result<Items<usize>, AllocError>
        ensures { IfOk result (λ places. places ≡ map (λ taken. taken.place) self.now.taken) }
    {
        let mut places = Items::new(alloc);
        for taken in self.taken.as_slice() {
            places.push(taken.place)?;
        }
        Ok(places)
    }
}
