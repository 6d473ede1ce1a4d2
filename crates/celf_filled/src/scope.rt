//! The local binders around a part of an item, with their modes and simple types.
ghost use Rattle.std.specs.Prelude.{◌≡◌, ◌∷◌, [], map, reverse, IfOk, OnOk, option_copied, option_map};
ghost use Rattle.clf_syntax.specs.declared.tree.Head.TheVariants.{Var};
ghost use Rattle.clf_syntax.specs.PlainSimple.{plain_simple_entry};
ghost use Rattle.celf_places.specs.Locals.{plain_place, plain_locals};
ghost use Rattle.celf_places.specs.Heads as heads;
ghost use Rattle.celf_elaboration.specs.Readings.{with_pattern};
ghost use Rattle.celf_filled.specs.Scopes.{plain_scope, known_locals, declared_local};

use celf_names::same_name;
use celf_places::{marked, next_part};
use celf_sugar::PBinder;
use clf_syntax::{Mode, Name, Shortage, Simple, SimpleEntry};
use sqlite_items::Items;
use std::alloc::{AllocError, Global};
use std::marker::Model;

/// A local binder: its mode, its name, if it has one, and its simple type, if that is known.
#[derive(Clone, Copy)]
pub struct Local<'a> {
    pub mode: Mode,
    pub name: &'a Option<Name>,
    pub place: Option<&'a Simple>,
}

/// A local as a head: its number, and its simple type, if that is known.
#[derive(Clone, Copy)]
pub struct FoundLocal<'a> {
    pub number: u32,
    pub place: Option<&'a Simple>,
}

impl<'a> Local<'a> {
    /// Whether the binder has a name.
    fn has_name(&self, name: &Name) -> bool
        ensures { result ≡ heads.has_name name.now (self.now.name.now, plain_place (option_copied self.now.place)) }
    {
        match self.name {
            Some(own) => same_name(name, own),
            None => false,
        }
    }
}

/// The local binders, which contracts see as their list, the newest first.
#[derive(Drop)]
pub struct Scope<'a> {
    locals: Items<Local<'a>>,
}

impl<'a> Model for Scope<'a> {
    ghost use Rattle.std.specs.Prelude.{List, map, reverse, option_copied};
    ghost use Rattle.std.specs.Coded.{coded_list, coded×, coded_ℕ, coded_option};
    ghost use Rattle.clf_syntax.specs.contracts.tree.Simple as simple;
    ghost use Rattle.clf_syntax.specs.contracts.tree.Mode as mode;
    ghost use Rattle.celf_filled.specs.Scopes.{DeclaredScope};

    ghost Value = { DeclaredScope };

    ghost coded = { coded_list (coded× mode.the_row.coded
        (coded× (coded_option (coded_list coded_ℕ)) (coded_option simple.the_row.coded))) };

    ghost view = { λ s. reverse (map (λ l. (l.mode, (l.name.now, option_copied l.place))) s.locals) };
}

impl<'a> Scope<'a> {
    /// No binders.
    pub fn new(alloc: Global) -> Scope<'a>
        ensures { result ≡ [] }
    {
        Scope {
            locals: Items::new(alloc),
        }
    }

    /// Adds a binder.
    pub fn bind(
        &mut self,
        mode: Mode,
        name: &'a Option<Name>,
        place: Option<&'a Simple>,
    ) -> Result<(), AllocError>
        ensures { OnOk result (self.new ≡ (mode, (name.now, option_copied place.entry)) ∷ self.old) }
    {
        self.locals.push(Local { mode, name, place })
    }

    /// Adds the binders of a pattern for these entries.
    pub fn bind_pattern(
        &mut self,
        entries: &'a [SimpleEntry],
        pattern: &'a [PBinder],
    ) -> Result<(), AllocError>
        ensures { OnOk result (plain_scope self.new
            ≡ with_pattern (plain_scope self.old) (map plain_simple_entry entries.now) pattern.now) }
    {
        let mut wanted = entries;
        for binder in pattern {
            let next = next_part(wanted);
            self.bind(marked(binder.mode, next.mode), &binder.name, next.place)?;
            wanted = next.later;
        }
        Ok(())
    }

    /// Equal binders, to which others may be added. It fails only where memory runs out.
    pub fn copy(&self, alloc: Global) -> Result<Scope<'a>, AllocError>
        ensures { IfOk result (λ s. s ≡ self.now) }
    {
        let locals = Items::from_slice(alloc, self.locals.as_slice())?;
        Ok(Scope { locals })
    }

    /// These binders and one more.
    pub fn with(
        &self,
        alloc: Global,
        mode: Mode,
        name: &'a Option<Name>,
        place: Option<&'a Simple>,
    ) -> Result<Scope<'a>, AllocError>
        ensures { IfOk result (λ s. s ≡ (mode, (name.now, option_copied place.entry)) ∷ self.now) }
    {
        let mut inner = self.copy(alloc)?;
        inner.bind(mode, name, place)?;
        Ok(inner)
    }

    /// The newest binder of a name. It fails only where its number would pass the greatest one.
    pub fn find(&self, name: &Name) -> Result<Option<FoundLocal<'a>>, Shortage>
        ensures { IfOk result (λ f.
            option_map (λ h. (
              Var h.number,
              plain_place (option_copied h.place),
            )) f
            ≡ heads.local_from 0 name.now (plain_locals (map declared_local self.now))) }
    {
        let mut left = self.locals.len();
        let mut number: u32 = 0;
        while left > 0 {
            left -= 1;
            let local = self.locals.as_slice()[left];
            if local.has_name(name) {
                return Ok(Some(FoundLocal {
                    number,
                    place: local.place,
                }));
            }
            if number == u32::MAX {
                return Err(Shortage::Numbers);
            }
            number += 1;
        }
        Ok(None)
    }

    /// The modes and simple types of all binders, the oldest first, if all are known. It fails only where memory runs
    /// out.
    pub fn known(&self, alloc: Global) -> Result<Option<Items<SimpleEntry>>, AllocError>
        ensures { IfOk result (λ es.
            option_map (λ known. map plain_simple_entry (reverse known)) es ≡ known_locals (plain_scope self.now)) }
    {
        let mut known = Items::new(alloc);
        for local in self.locals.as_slice() {
            match known_entry(alloc, local)? {
                Some(entry) => known.push(entry)?,
                None => return Ok(None),
            }
        }
        Ok(Some(known))
    }
}

/// The mode and the simple type of a binder, if that is known.
#[tactic(auto, using(clf_syntax::specs::PlainSimple::plain_simple_laws))]
fn known_entry(alloc: Global, local: &Local<'_>) -> Result<Option<SimpleEntry>, AllocError>
    ensures { IfOk result (λ e.
        option_map plain_simple_entry e
        ≡ option_map (λ t. (local.now.mode, t)) (plain_place (option_copied local.now.place))) }
{
    match local.place {
        Some(simple) => Ok(Some(SimpleEntry {
            mode: local.mode,
            ty: simple.copy(alloc)?,
        })),
        None => Ok(None),
    }
}
