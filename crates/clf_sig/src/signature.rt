//! The signature.
ghost use Rattle.std.specs.Prelude.{◌≡◌, ◌≤◌, ◌<◌, [], is_some, false, ◌∷◌, ◌++◌, map, length, slice_get, option_copied, option_map, string_bytes, IfOk, OnOk, OnErr, IfSome, IsSome, IsTrue, ◌↔◌};
ghost use Rattle.clf_syntax.specs.PlainSimple.{plain_simple};
ghost use Rattle.clf_sig.specs.Entry.{entry_limit, names, IsNamed, HasDistinctNames, place_of, entry_at, class_at, simple_class, simple_types};
ghost use Rattle.clf_sig.specs.Signature.{entries, plain_class, plain_entry, plain_signature};

use crate::entry::{Class, Entry};
use clf_syntax::{Simple, erase};
use indexmap::IndexMap;
use std::alloc::{AllocError, Global};
use std::marker::Model;

/// The most entries that a signature has.
pub const MAX_ENTRIES: usize = 65_535;

/// Why a declaration was not added: its name is there, the signature is full, or memory ran out.
#[derive(Debug, Drop)]
pub enum AddFault {
    Duplicate,
    Full,
    NoMemory,
}

/// The declarations so far, which contracts see as the list of names and entries, oldest first.
#[derive(Drop)]
pub struct Signature {
    alloc: Global,
    declared: IndexMap<String, Entry>,
    simples: Vec<Simple>,
}

impl Model for Signature {
    ghost use Rattle.std.specs.Prelude.{◌≡◌, ◌≤◌, ℕ, map, length};
    ghost use Rattle.std.specs.Coded.{coded_list, coded×, coded_ℕ};
    ghost use Rattle.clf_syntax.specs.PlainSimple.{plain_simple};
    ghost use Rattle.clf_sig.specs.contracts.entry.Entry as entry;
    ghost use Rattle.clf_sig.specs.Entry.{entry_limit, simple_types};
    ghost use Rattle.clf_sig.specs.Signature.{Declared, plain_signature};
    ghost use Rattle.clf_sig.specs.Keys.{named};

    ghost Value = { Declared };

    ghost coded = { coded_list (coded× (coded_list coded_ℕ) entry.the_row.coded) };

    ghost view = { λ s. named s.declared.entries };

    ghost invariant = { λ s. (length s.declared.entries ≤ entry_limit)
        × (map plain_simple s.simples.items ≡ simple_types (plain_signature (named s.declared.entries))) };
}

impl Signature {
    /// A signature without entries.
    pub fn new(alloc: Global) -> Signature
        ensures { result ≡ [] }
    {
        Signature {
            alloc,
            declared: IndexMap::new(alloc),
            simples: Vec::new(alloc),
        }
    }

    /// How many entries there are. No two have the same name.
    pub fn len(&self) -> usize
        ensures len { result ≡ length self.now }
        ensures bounded { length self.now ≤ entry_limit }
        ensures distinct { HasDistinctNames (plain_signature self.now) }
    {
        self.declared.len()
    }

    /// Whether there are none.
    pub fn is_empty(&self) -> bool
        ensures { IsTrue result ↔ (self.now ≡ []) }
    {
        self.declared.is_empty()
    }

    /// The place of the entry of this name.
    pub fn find(&self, name: &str) -> Option<u32>
        ensures place { result ≡ place_of name.now (plain_signature self.now) }
        ensures found { IfSome result (λ k. slice_get (names (plain_signature self.now)) k ≡ Some name.now) }
        ensures is_named { IsSome result ↔ IsNamed name.now (plain_signature self.now) }
        ensures distinct { HasDistinctNames (plain_signature self.now) }
    {
        let place = self.declared.get_index_of(name)?;
        Some(place as u32)
    }

    /// The entry at this place.
    pub fn entry(&self, k: u32) -> Option<&Entry>
        ensures declared { option_copied result ≡ slice_get (entries self.now) k }
        ensures plain { option_map plain_entry (option_copied result) ≡ entry_at (plain_signature self.now) k }
        ensures class { option_map (λ e. plain_class e.class) (option_copied result)
            ≡ class_at (plain_signature self.now) k }
    {
        let (_, entry) = self.declared.get_index(k as usize)?;
        Some(entry)
    }

    /// The name of the entry at this place.
    pub fn name(&self, k: u32) -> Option<&str>
        ensures { option_copied result ≡ slice_get (names (plain_signature self.now)) k }
    {
        let (name, _) = self.declared.get_index(k as usize)?;
        Some(name.as_str())
    }

    /// The simple type of each entry, where `Top` stands for that of a family.
    pub fn simples(&self) -> &[Simple]
        ensures { map plain_simple result.now ≡ simple_types (plain_signature self.now) }
    {
        self.simples.as_slice()
    }

    /// Adds an entry after all others, and answers its place.
    pub fn add(&mut self, name: &str, entry: Entry) -> Result<u32, AddFault>
        ensures place { IfOk result (λ place. place ≡ length self.old) }
        ensures added { OnOk result (self.new ≡ self.old ++ (name.now, entry) ∷ []) }

        // A name that is there already is reported as such, even where the signature is full.
        ensures duplicate { (result ≡ Err AddFault.Duplicate) ↔ IsNamed name.now (plain_signature self.old) }
        ensures full { (result ≡ Err AddFault.Full)
            ↔ ((¬ IsNamed name.now (plain_signature self.old)) × (length self.old ≡ entry_limit)) }
        ensures unchanged { OnErr result (self.new ≡ self.old) }
    {
        if self.find(name).is_some() {
            drop(entry);
            return Err(AddFault::Duplicate);
        }
        let place = self.len();
        if place >= MAX_ENTRIES {
            drop(entry);
            return Err(AddFault::Full);
        }
        match self.put(name, entry) {
            Ok(()) => Ok(place as u32),
            Err(_) => Err(AddFault::NoMemory),
        }
    }

    /// Puts an entry of a new name after all others.
    fn put(&mut self, name: &str, entry: Entry) -> Result<(), AllocError>
        requires absent { is_some (place_of name.now (plain_signature self.old)) ≡ false }
        requires room { length self.old < entry_limit }
        ensures added { OnOk result (self.new ≡ self.old ++ (name.now, entry) ∷ []) }
        ensures unchanged { OnErr result (self.new ≡ self.old) }
    {
        let (key, simple) = match key_and_simple(self.alloc, name, &entry.class) {
            Ok(made) => made,
            Err(failed) => {
                drop(entry);
                return Err(failed);
            }
        };
        if let Err(failed) = self.simples.push(simple) {
            drop(failed);
            drop(key);
            drop(entry);
            return Err(AllocError);
        }
        match self.declared.insert(key, entry) {
            Ok(was) => {
                drop(was);
                Ok(())
            }
            Err(failed) => {
                drop(failed);
                drop(self.simples.pop());
                Err(AllocError)
            }
        }
    }
}

/// What the signature keeps of a new entry beside itself: its name, and the simple type that stands for its class.
fn key_and_simple(alloc: Global, name: &str, class: &Class) -> Result<(String, Simple), AllocError>
    ensures key { IfOk result (λ made. string_bytes made.0 ≡ name.now) }
    ensures simple { IfOk result (λ made. plain_simple made.1 ≡ simple_class (plain_class class.now)) }
{
    let key = String::from_str(alloc, name)?;
    let simple = simple_of(alloc, class)?;
    Ok((key, simple))
}

/// The simple type that stands for a class: that of a constant's type, and `Top` for a family.
#[tactic(auto, using(clf_syntax::specs::PlainSimple::plain_simple_laws))]
fn simple_of(alloc: Global, class: &Class) -> Result<Simple, AllocError>
    ensures { IfOk result (λ simple. plain_simple simple ≡ simple_class (plain_class class.now)) }
{
    match class {
        Class::Family(_) => Ok(Simple::Top),
        Class::Constant(ty) => erase(alloc, ty),
    }
}
