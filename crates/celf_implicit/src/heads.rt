//! Heads, and their simple types where some variables are determined.
ghost use Rattle.std.specs.Prelude.{◌≡◌, map, drop, IfOk, option_copied};
ghost use Rattle.clf_sig.specs.Entry.{entry_at};
ghost use Rattle.clf_sig.specs.Signature.{plain_signature};
ghost use Rattle.celf_places.specs.Locals.{plain_place};
ghost use Rattle.celf_implicit.specs.Variables as spec;
ghost use Rattle.celf_implicit.specs.Answers.{plain_implicit};
ghost use Rattle.celf_implicit.specs.Noting.{plain_binders};

use crate::binders::Binders;
use crate::variable::Implicit;
use celf_names::{begins_with_capital, constant_named, same_name};
use celf_places::function_parts;
use celf_sugar::PName;
use clf_sig::Signature;
use clf_syntax::{Name, Shortage, Simple, SimpleEntry};

/// Whether a name is that of an implicit variable.
fn is_variable(sig: &Signature, binders: &Binders, name: &PName) -> Result<bool, Shortage>
    ensures { IfOk result (λ is.
        is ≡ spec.is_variable (plain_signature sig.now) (plain_binders binders.now).locals name.now) }
{
    if name.dollar || !begins_with_capital(name.name.as_str()) {
        return Ok(false);
    }
    if constant_named(sig, name.name.as_str()).is_some() {
        return Ok(false);
    }
    Ok(binders.find(&name.name)?.is_none())
}

/// Whether a name is that of one of the variables.
fn is_among(found: &[Implicit], name: &Name) -> bool
    ensures { result ≡ spec.is_among (map plain_implicit found.now) name.now }
{
    for variable in found {
        if same_name(name, &variable.name) {
            return true;
        }
    }
    false
}

/// Whether a name is that of an implicit variable that is not among these.
pub fn is_open(
    sig: &Signature,
    found: &[Implicit],
    binders: &Binders,
    name: &PName,
) -> Result<bool, Shortage>
    ensures { IfOk result (λ is.
        is ≡ spec.is_open_name (plain_signature sig.now) (map plain_implicit found.now)
        (plain_binders binders.now).locals name.now) }
{
    Ok(is_variable(sig, binders, name)? && !is_among(found, &name.name))
}

/// The simple type of the variable of a name.
fn variable_place<'a>(found: &'a [Implicit], name: &Name) -> Option<&'a Simple>
    ensures { plain_place (option_copied result)
        ≡ spec.variable_place (map plain_implicit found.now) name.now }
{
    for variable in found {
        if same_name(name, &variable.name) {
            return match &variable.simple {
                Some(simple) => Some(simple.get()),
                None => None,
            };
        }
    }
    None
}

/// The simple type of a head.
pub fn head_place<'a>(
    sig: &'a Signature,
    found: &'a [Implicit],
    binders: &Binders<'a>,
    name: &PName,
) -> Result<Option<&'a Simple>, Shortage>
    ensures { IfOk result (λ t.
        plain_place (option_copied t)
        ≡ spec.head_place (plain_signature sig.now) (map plain_implicit found.now)
        (plain_binders binders.now).locals name.now) }
{
    if !name.dollar {
        if let Some(found) = binders.find(&name.name)? {
            return Ok(found.place);
        }
    }
    match constant_named(sig, name.name.as_str()) {
        Some(constant) => Ok(constant_place(sig, name.dollar, constant)),
        None if name.dollar => Ok(None),
        None => Ok(variable_place(found, &name.name)),
    }
}

/// How many arguments of an entry are not written.
pub fn left_out(sig: &Signature, dollar: bool, place: u32) -> u32
    ensures { result ≡ spec.left_out dollar (entry_at (plain_signature sig.now) place) }
{
    match sig.entry(place) {
        Some(entry) => { if dollar { 0 } else { entry.implicit } }
        None => 0,
    }
}

/// The simple type after so many arguments.
fn after_arguments<'a>(count: u32, place: Option<&'a Simple>) -> Option<&'a Simple>
    ensures { plain_place (option_copied result)
        ≡ spec.after_arguments count (plain_place (option_copied place.entry)) }
{
    let mut left = count;
    let mut place = place;
    while left > 0 {
        left -= 1;
        place = function_parts(place).codomain;
    }
    place
}

/// The simple type of a constant after its implicit arguments.
fn constant_place<'a>(sig: &'a Signature, dollar: bool, constant: u32) -> Option<&'a Simple>
    ensures { plain_place (option_copied result)
        ≡ spec.constant_place (plain_signature sig.now) dollar constant }
{
    after_arguments(
        left_out(sig, dollar, constant),
        sig.simples().get(constant as usize),
    )
}

/// The entries from a number on.
pub fn from_number<'a>(entries: &'a [SimpleEntry], number: u32) -> &'a [SimpleEntry]
    ensures { result.now ≡ drop number entries.now }
{
    let number = number as usize;
    if number < entries.len() {
        &entries[number..]
    } else {
        &[]
    }
}
