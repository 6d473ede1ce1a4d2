//! The local binders around a part of an item, with their modes.
ghost use Rattle.std.specs.Prelude.{◌≡◌, ◌∷◌, [], map, get_or, IfOk, OnOk, option_copied, option_map};
ghost use Rattle.clf_syntax.specs.declared.tree.Mode.TheVariants.{Linear};
ghost use Rattle.celf_places.specs.Locals.{plain_place, plain_locals};
ghost use Rattle.celf_places.specs.Heads.{local_from};
ghost use Rattle.clf_syntax.specs.PlainSimple.{plain_simple_entry};
ghost use Rattle.celf_implicit.specs.Scopes.{bind_pattern};
ghost use Rattle.celf_implicit.specs.Noting.{plain_binders};

use celf_places::{Found, Locals, marked, next_part};
use celf_sugar::PBinder;
use clf_syntax::{Mode, Name, Shortage, Simple, SimpleEntry};
use sqlite_items::Items;
use std::alloc::{AllocError, Global};
use std::marker::Model;

/// The local binders, and the mode of each, which contracts see as their lists, the newest first.
#[derive(Drop)]
pub struct Binders<'a> {
    locals: Locals<'a>,
    modes: Items<Mode>,
}

impl<'a> Model for Binders<'a> {
    ghost use Rattle.std.specs.Prelude.{List, reverse};
    ghost use Rattle.std.specs.Coded.{coded_list, coded×, coded_ℕ, coded_option};
    ghost use Rattle.clf_syntax.specs.contracts.tree.Simple as simple;
    ghost use Rattle.clf_syntax.specs.contracts.tree.Mode as mode;
    ghost use Rattle.clf_syntax.specs.declared.tree.Mode.{Mode};
    ghost use Rattle.celf_places.specs.Locals.{Declared};

    ghost Value = { List Declared × List Mode };

    ghost coded = { coded× (coded_list (coded× (coded_option (coded_list coded_ℕ)) (coded_option simple.the_row.coded)))
        (coded_list mode.the_row.coded) };

    ghost view = { λ s. (s.locals, reverse s.modes) };
}

impl<'a> Binders<'a> {
    /// No binders.
    pub fn new(alloc: Global) -> Binders<'a>
        ensures { result ≡ ([], []) }
    {
        Binders {
            locals: Locals::new(alloc),
            modes: Items::new(alloc),
        }
    }

    /// Adds a binder.
    pub fn bind(
        &mut self,
        mode: Mode,
        name: &'a Option<Name>,
        place: Option<&'a Simple>,
    ) -> Result<(), AllocError>
        ensures { OnOk result
            (self.new ≡ ((name.now, option_copied place.entry) ∷ self.old.0, mode ∷ self.old.1)) }
    {
        self.locals.push(name, place)?;
        self.modes.push(mode)
    }

    /// Adds the binders of a pattern for these entries.
    pub fn bind_pattern(
        &mut self,
        entries: &'a [SimpleEntry],
        pattern: &'a [PBinder],
    ) -> Result<(), AllocError>
        ensures { OnOk result (plain_binders self.new
            ≡ bind_pattern (map plain_simple_entry entries.now) pattern.now (plain_binders self.old)) }
    {
        let mut wanted = entries;
        for binder in pattern {
            let next = next_part(wanted);
            self.bind(marked(binder.mode, next.mode), &binder.name, next.place)?;
            wanted = next.later;
        }
        Ok(())
    }

    /// Equal binders, to which others may be added. It fails only where memory runs out.
    pub fn copy(&self, alloc: Global) -> Result<Binders<'a>, AllocError>
        ensures { IfOk result (λ s. s ≡ self.now) }
    {
        let locals = self.locals.copy(alloc)?;
        let modes = Items::from_slice(alloc, self.modes.as_slice())?;
        Ok(Binders { locals, modes })
    }

    /// These binders and one more.
    pub fn with(
        &self,
        alloc: Global,
        mode: Mode,
        name: &'a Option<Name>,
        place: Option<&'a Simple>,
    ) -> Result<Binders<'a>, AllocError>
        ensures { IfOk result
            (λ s. s ≡ ((name.now, option_copied place.entry) ∷ self.now.0, mode ∷ self.now.1)) }
    {
        let mut inner = self.copy(alloc)?;
        inner.bind(mode, name, place)?;
        Ok(inner)
    }

    /// The newest binder of a name, as a head. It fails only where its number would pass the greatest one.
    pub fn find(&self, name: &Name) -> Result<Option<Found<'a>>, Shortage>
        ensures { IfOk result (λ f.
            option_map (λ h. (h.head, plain_place (option_copied h.place))) f
            ≡ local_from 0 name.now (plain_locals self.now.0)) }
    {
        self.locals.find(name)
    }

    /// The mode of the binder with this number.
    pub fn mode_of(&self, number: u32) -> Mode
        ensures { result ≡ get_or self.now.1 number Linear }
    {
        let modes = self.modes.as_slice();
        let number = number as usize;
        if number < modes.len() {
            modes[modes.len() - 1 - number]
        } else {
            Mode::Linear
        }
    }
}
