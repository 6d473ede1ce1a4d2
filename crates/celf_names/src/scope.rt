//! The names that are bound around a part of an item.
ghost use Rattle.std.specs.Prelude.{◌≡◌, ◌++◌, [], length, take, OnOk};
ghost use Rattle.clf_sig.specs.Signature.{plain_signature};
ghost use Rattle.clf_syntax.specs.Word.{same_bytes};
ghost use Rattle.celf_names.specs.Names.{is_bound, is_known as is_known_in, bound, bound_by_pattern};

use crate::meaning::{begins_with_capital, constant_named};
use celf_sugar::{PBinder, PName};
use clf_sig::Signature;
use clf_syntax::Name;
use sqlite_items::Items;
use std::alloc::{AllocError, Global};
use std::marker::Model;

/// Whether two names have the same bytes.
pub fn same_name(left: &Name, right: &Name) -> bool
    ensures { result ≡ same_bytes left.now right.now }
{
    right.as_str() == left.as_str()
}

/// The names that are bound, the newest last, which contracts see as their list.
#[derive(Drop)]
pub struct Scope<'a> {
    names: Items<&'a Name>,
}

impl<'a> Model for Scope<'a> {
    ghost use Rattle.std.specs.Prelude.{List, ℕ, map};
    ghost use Rattle.std.specs.Coded.{coded_list, coded_ℕ};

    ghost Value = { List (List ℕ) };

    ghost coded = { coded_list (coded_list coded_ℕ) };

    ghost view = { λ s. map (λ n. n.now) s.names };
}

impl<'a> Scope<'a> {
    /// No names.
    pub fn new(alloc: Global) -> Scope<'a>
        ensures { result ≡ [] }
    {
        Scope {
            names: Items::new(alloc),
        }
    }

    /// How many there are.
    pub fn len(&self) -> usize
        ensures { result ≡ length self.now }
    {
        self.names.len()
    }

    /// Whether a name is bound.
    pub fn binds(&self, name: &Name) -> bool
        ensures { result ≡ is_bound self.now name.now }
    {
        for bound in self.names.as_slice() {
            if same_name(name, bound) {
                return true;
            }
        }
        false
    }

    /// Whether the name of an object has a meaning.
    pub fn knows(&self, sig: &Signature, name: &PName) -> bool
        ensures { result ≡ is_known_in (plain_signature sig.now) self.now name.now }
    {
        let constant = constant_named(sig, name.name.as_str()).is_some();
        if name.dollar {
            constant
        } else {
            self.binds(&name.name) || constant || begins_with_capital(name.name.as_str())
        }
    }

    /// Binds a name, if there is one.
    pub fn bind(&mut self, name: &'a Option<Name>) -> Result<(), AllocError>
        ensures { OnOk result (self.new ≡ self.old ++ bound name.now) }
    {
        match name {
            Some(name) => self.names.push(name),
            None => Ok(()),
        }
    }

    /// Binds the names of a pattern.
    pub fn bind_pattern(&mut self, pattern: &'a [PBinder]) -> Result<(), AllocError>
        ensures { OnOk result (self.new ≡ self.old ++ bound_by_pattern pattern.now) }
    {
        for binder in pattern {
            self.bind(&binder.name)?;
        }
        Ok(())
    }

    /// Keeps the oldest ones alone, of this number at most.
    pub fn keep(&mut self, count: usize)
        ensures { self.new ≡ take count self.old }
    {
        while self.names.len() > count {
            self.names.pop();
        }
    }
}
