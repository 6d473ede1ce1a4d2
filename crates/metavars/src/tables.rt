//! The tables of a store.
ghost use Rattle.std.specs.Prelude.{◌≡◌, ◌+◌, ◌≤◌, ◌<◌, [], map, length, take, OnOk, OnErr};
ghost use Rattle.std.specs.Option.{option_copied, option_map};
ghost use Rattle.clf_syntax.specs.Plain.{plain_obj};
ghost use Rattle.store_laws.specs.Additions.{given};
ghost use Rattle.metavars.specs.Stored.{plain_added};
ghost use Rattle.metavars.specs.Tables as spec;

use clf_syntax::{Obj, Simple};
use sqlite_items::Items;
use std::alloc::{AllocError, Global};

/// One addition: a new metavariable, or the solution of one.
#[derive(Drop)]
pub enum Addition {
    New,
    Solved { meta: u32, object: Obj },
}

/// What was added, and what is looked up in it.
#[derive(Drop)]
pub struct Tables {
    pub added: Items<Addition>,
    /// The simple types of the metavariables, in order.
    pub metas: Items<Simple>,
    /// For each metavariable the place of its solution among what was added.
    pub solved_at: Items<Option<usize>>,
}

impl Tables {
    /// Nothing was added.
    pub fn empty(alloc: Global) -> Tables
        ensures tables { spec.AreTables result }
        ensures listed { spec.listed result ≡ [] }
    {
        Tables {
            added: Items::new(alloc),
            metas: Items::new(alloc),
            solved_at: Items::new(alloc),
        }
    }

    /// A new metavariable.
    pub fn add_new(&mut self, ty: Simple) -> Result<(), AllocError>
        ensures added { OnOk result (self.new ≡ spec.with_new self.old ty) }
        ensures unchanged { OnErr result (self.new ≡ self.old) }
    {
        self.added.push(Addition::New)?;
        match self.add_row(ty) {
            Ok(()) => Ok(()),
            Err(failed) => {
                self.added.pop();
                Err(failed)
            }
        }
    }

    /// What is looked up of a new metavariable.
    fn add_row(&mut self, ty: Simple) -> Result<(), AllocError>
        ensures added { OnOk result (self.new ≡ spec.with_row self.old ty) }
        ensures unchanged { OnErr result (self.new ≡ self.old) }
    {
        self.metas.push(ty)?;
        match self.solved_at.push(None) {
            Ok(()) => Ok(()),
            Err(failed) => {
                self.metas.pop();
                Err(failed)
            }
        }
    }

    /// The solution of a metavariable.
    pub fn add_solved(&mut self, meta: u32, object: Obj) -> Result<(), AllocError>
        requires { meta < length self.old.solved_at }
        ensures added { OnOk result (self.new ≡ spec.with_solved self.old meta object) }
        ensures unchanged { OnErr result (self.new ≡ self.old) }
    {
        let place = self.added.len();
        self.added.push(Addition::Solved { meta, object })?;
        self.solved_at.set(meta as usize, Some(place));
        Ok(())
    }

    /// Takes back all additions but so many.
    pub fn cut(&mut self, count: usize)
        requires tables { spec.AreTables self.old }
        requires count { count ≤ length self.old.added }
        ensures tables { spec.AreTables self.new }
        ensures listed { spec.listed self.new ≡ take count (spec.listed self.old) }
    {
        while self.added.len() > count {
            self.take_back();
        }
    }

    /// Takes back the last addition.
    fn take_back(&mut self)
        requires tables { spec.AreTables self.old }
        requires some { 0 < length self.old.added }
        ensures tables { spec.AreTables self.new }
        ensures one { length self.old.added ≡ length self.new.added + 1 }
        ensures listed { spec.listed self.new ≡ take (length self.new.added) (spec.listed self.old) }
    {
        match self.added.pop() {
            None => {}
            Some(Addition::New) => {
                self.metas.pop();
                self.solved_at.pop();
            }
            Some(Addition::Solved { meta, object: _ }) => {
                self.solved_at.set(meta as usize, None);
            }
        }
    }

    /// The solution of a metavariable.
    pub fn solution(&self, meta: u32) -> Option<&Obj>
        requires { spec.AreTables self.now }
        ensures { option_map plain_obj (option_copied result) ≡ given (map plain_added (spec.listed self.now)) meta }
    {
        match place_at(self.solved_at.as_slice(), meta) {
            None => None,
            Some(place) => object_at(self.added.as_slice(), place),
        }
    }
}

/// The place of a metavariable's solution.
fn place_at(solved_at: &[Option<usize>], meta: u32) -> Option<usize>
    ensures { result ≡ spec.place_in solved_at.now meta }
{
    match solved_at.get(meta as usize) {
        Some(place) => *place,
        None => None,
    }
}

/// The solution that was added at a place.
fn object_at(added: &[Addition], place: usize) -> Option<&Obj>
    ensures { option_copied result ≡ spec.object_in added.now place }
{
    match added.get(place)? {
        Addition::New => None,
        Addition::Solved { meta: _, object } => Some(object),
    }
}
