//! The local binders around a part of an object.
ghost use Rattle.std.specs.Prelude.{◌≡◌, ◌-◌, [], ◌∷◌, drop, length, IfOk, OnOk, option_copied, option_map};
ghost use Rattle.celf_places.specs.Locals.{plain_place, plain_locals};
ghost use Rattle.celf_places.specs.Heads as spec;

use celf_names::same_name;
use clf_syntax::{Head, Name, Shortage, Simple};
use sqlite_items::Items;
use std::alloc::{AllocError, Global};
use std::marker::Model;

/// A local binder: its name, if it has one, and its simple type, if that is known.
#[derive(Clone, Copy)]
pub struct Local<'a> {
    pub name: &'a Option<Name>,
    pub place: Option<&'a Simple>,
}

/// A head with its simple type, if that is known.
#[derive(Clone, Copy)]
pub struct Found<'a> {
    pub head: Head,
    pub place: Option<&'a Simple>,
}

impl<'a> Local<'a> {
    /// Whether the binder has a name.
    fn has_name(&self, name: &Name) -> bool
        ensures { result ≡ spec.has_name name.now (self.now.name.now, plain_place (option_copied self.now.place)) }
    {
        match self.name {
            Some(own) => same_name(name, own),
            None => false,
        }
    }
}

/// The local binders, which contracts see as their list, the newest first.
#[derive(Drop)]
pub struct Locals<'a> {
    locals: Items<Local<'a>>,
}

impl<'a> Model for Locals<'a> {
    ghost use Rattle.std.specs.Prelude.{List, map, reverse, option_copied};
    ghost use Rattle.std.specs.Coded.{coded_list, coded×, coded_ℕ, coded_option};
    ghost use Rattle.clf_syntax.specs.contracts.tree.Simple as simple;
    ghost use Rattle.celf_places.specs.Locals.{Declared};

    ghost Value = { List Declared };

    ghost coded = { coded_list (coded× (coded_option (coded_list coded_ℕ)) (coded_option simple.the_row.coded)) };

    ghost view = { λ s. reverse (map (λ l. (l.name.now, option_copied l.place)) s.locals) };
}

impl<'a> Locals<'a> {
    /// No binders.
    pub fn new(alloc: Global) -> Locals<'a>
        ensures { result ≡ [] }
    {
        Locals {
            locals: Items::new(alloc),
        }
    }

    /// Adds a binder.
    pub fn push(
        &mut self,
        name: &'a Option<Name>,
        place: Option<&'a Simple>,
    ) -> Result<(), AllocError>
        ensures { OnOk result (self.new ≡ (name.now, option_copied place.entry) ∷ self.old) }
    {
        self.locals.push(Local { name, place })
    }

    /// How many there are.
    pub fn len(&self) -> usize
        ensures { result ≡ length self.now }
    {
        self.locals.len()
    }

    /// Equal binders, to which others may be added. It fails only where memory runs out.
    pub fn copy(&self, alloc: Global) -> Result<Locals<'a>, AllocError>
        ensures { IfOk result (λ ls. ls ≡ self.now) }
    {
        let locals = Items::from_slice(alloc, self.locals.as_slice())?;
        Ok(Locals { locals })
    }

    /// Keeps the oldest binders alone, of this number at most.
    pub fn keep(&mut self, count: usize)
        ensures { self.new ≡ drop (length self.old - count) self.old }
    {
        while self.locals.len() > count {
            self.locals.pop();
        }
    }

    /// Drops the newest binder.
    pub fn pop(&mut self)
        ensures { self.new ≡ drop 1 self.old }
    {
        self.locals.pop();
    }

    /// The newest binder of a name, as a head. It fails only where its number would pass the greatest one.
    pub fn find(&self, name: &Name) -> Result<Option<Found<'a>>, Shortage>
        ensures { IfOk result (λ f.
            option_map (λ h. (h.head, plain_place (option_copied h.place))) f
            ≡ spec.local_from 0 name.now (plain_locals self.now)) }
    {
        let mut left = self.locals.len();
        let mut number: u32 = 0;
        while left > 0 {
            left -= 1;
            let local = self.locals.as_slice()[left];
            if local.has_name(name) {
                return Ok(Some(Found {
                    head: Head::Var(number),
                    place: local.place,
                }));
            }
            if number == u32::MAX {
                return Err(Shortage::Numbers);
            }
            number += 1;
        }
        Ok(None)
    }
}
