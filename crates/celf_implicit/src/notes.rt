//! What is noted of the occurrences of a walk.
ghost use Rattle.std.specs.Prelude.{◌≡◌, Some, map, OnOk, IfOk, option_copied};
ghost use Rattle.celf_sugar.specs.Earliest.{sooner};
ghost use Rattle.celf_places.specs.Locals.{plain_place};
ghost use Rattle.celf_implicit.specs.Rounds.{begins};
ghost use Rattle.celf_implicit.specs.Answers.{plain_implicit};
ghost use Rattle.celf_implicit.specs.Noting as spec;

use crate::applied::{AppliedLocal, arguments, from_locals};
use crate::variable::{Implicit, Variable};
use celf_names::same_name;
use celf_sugar::PName;
use clf_syntax::{Name, Simple};
use sqlite_items::Items;
use std::alloc::{AllocError, Global};

/// The variables that a round determines so far, and of those that are not among the ones before it the first in the
/// text, and for each its first occurrence (without arguments and simple type).
#[derive(Drop)]
pub struct Notes {
    pub determined: Items<Implicit>,
    pub open_one: Option<Variable>,
    pub appeared: Items<Implicit>,
}

impl Notes {
    /// Nothing so far.
    pub fn new(alloc: Global) -> Notes
        ensures { spec.plain_notes result ≡ spec.nothing_noted }
    {
        Notes {
            determined: Items::new(alloc),
            open_one: None,
            appeared: Items::new(alloc),
        }
    }

    /// Notes an occurrence of a variable that is not among those before the round.
    pub fn note_open(&mut self, alloc: Global, name: &PName) -> Result<(), AllocError>
        ensures same { OnOk result (self.new.determined ≡ self.old.determined) }
        ensures open { OnOk result (self.new.open_one
            ≡ sooner begins self.old.open_one (Some (record { name = name.now.name; span = name.now.span }))) }
        ensures appeared { OnOk result (map plain_implicit self.new.appeared
            ≡ spec.with_one (map plain_implicit self.old.appeared) (spec.appearing name.now)) }
    {
        let sooner = match &self.open_one {
            Some(variable) => name.span.start < variable.span.start,
            None => true,
        };
        if sooner {
            self.open_one = Some(Variable {
                name: name.name.copy(alloc)?,
                span: name.span,
            });
        }
        keep_earlier(alloc, &mut self.appeared, name, &[], None)
    }

    /// Notes that an occurrence at distinct locals determines its variable, unless an earlier one is noted.
    pub fn note_determined(
        &mut self,
        alloc: Global,
        name: &PName,
        locals: &[AppliedLocal],
        place: Option<&Simple>,
    ) -> Result<(), AllocError>
        ensures same { OnOk result (self.new.open_one ≡ self.old.open_one) }
        ensures same_appeared { OnOk result (self.new.appeared ≡ self.old.appeared) }
        ensures determined { OnOk result (map plain_implicit self.new.determined
            ≡ spec.with_one (map plain_implicit self.old.determined)
            (spec.determined_name name.now (map spec.plain_applied locals.now)
            (plain_place (option_copied place.entry)))) }
    {
        keep_earlier(alloc, &mut self.determined, name, locals, place)
    }
}

/// Puts an occurrence at distinct locals among others, unless an earlier one of its variable is there.
fn keep_earlier(
    alloc: Global,
    noted: &mut Items<Implicit>,
    name: &PName,
    locals: &[AppliedLocal],
    place: Option<&Simple>,
) -> Result<(), AllocError>
    ensures { OnOk result (map plain_implicit noted.new
        ≡ spec.with_one (map plain_implicit noted.old)
        (spec.determined_name name.now (map spec.plain_applied locals.now)
        (plain_place (option_copied place.entry)))) }
{
    match place_in(noted, &name.name) {
        Some(index) => {
            if name.span.start < noted.as_slice()[index].start {
                let variable = determined_name(alloc, name, locals, place)?;
                noted.set(index, variable);
            }
            Ok(())
        }
        None => {
            let variable = determined_name(alloc, name, locals, place)?;
            noted.push(variable)
        }
    }
}

/// The place of the variable of a name among those that are noted.
fn place_in(noted: &Items<Implicit>, name: &Name) -> Option<usize>
    ensures { spec.IsPlaceOf name.now noted.now result }
{
    for (index, variable) in noted.as_slice().iter().enumerate() {
        if same_name(name, &variable.name) {
            return Some(index);
        }
    }
    None
}

/// What an occurrence at distinct locals says of its variable.
fn determined_name(
    alloc: Global,
    name: &PName,
    locals: &[AppliedLocal],
    place: Option<&Simple>,
) -> Result<Implicit, AllocError>
    ensures { IfOk result (λ x.
        plain_implicit x
        ≡ spec.determined_name name.now (map spec.plain_applied locals.now)
        (plain_place (option_copied place.entry))) }
{
    let arguments = arguments(alloc, locals)?;
    let simple = from_locals(alloc, locals, place)?;
    Ok(Implicit {
        name: name.name.copy(alloc)?,
        start: name.span.start,
        arguments,
        simple,
    })
}
