//! What the names of objects mean, with how many implicit arguments.
ghost use Rattle.std.specs.Prelude.{◌≡◌, map, IfOk, option_copied, option_map};
ghost use Rattle.clf_sig.specs.Entry.{entry_at};
ghost use Rattle.clf_sig.specs.Signature.{plain_signature};
ghost use Rattle.celf_names.specs.Names.{constant_named as constant_named_in};
ghost use Rattle.celf_places.specs.Locals.{plain_place};
ghost use Rattle.celf_elaboration.specs.Declarations.{declared_heads};
ghost use Rattle.celf_elaboration.specs.Names as names;
ghost use Rattle.celf_filled.specs.Scopes as spec;
ghost use Rattle.celf_filled.specs.Headed.{plain_meaning};

use crate::scope::Scope;
use celf_implicit::Implicit;
use celf_names::{constant_named, same_name};
use celf_sugar::PName;
use clf_sig::Signature;
use clf_syntax::{Head, Name, Shortage, Simple};
use sqlite_items::Boxed;

/// A head with its simple type, if that is known, and how many of its arguments are implicit.
#[derive(Clone, Copy)]
pub struct Meaning<'a> {
    pub head: Head,
    pub place: Option<&'a Simple>,
    pub implicit: u32,
}

/// What the name of an object means. It fails only where a number would pass the greatest one.
#[tactic(auto, using(crate::proofs::ScopeLaws::scope_laws))]
pub fn meaning_of<'a>(
    sig: &'a Signature,
    variables: &'a [Implicit],
    scope: &Scope<'a>,
    name: &PName,
) -> Result<Option<Meaning<'a>>, Shortage>
    ensures { IfOk result (λ m.
        option_map plain_meaning m
        ≡ spec.meaning_of (plain_signature sig.now) (map spec.plain_named variables.now) (spec.plain_scope scope.now)
        name.now) }
{
    if name.dollar {
        return Ok(constant_meaning(sig, true, &name.name));
    }
    match scope.find(&name.name)? {
        Some(found) => Ok(Some(Meaning {
            head: Head::Var(found.number),
            place: found.place,
            implicit: 0,
        })),
        None => outer_meaning(sig, variables, &name.name),
    }
}

/// That of a name that no local has.
fn outer_meaning<'a>(
    sig: &'a Signature,
    variables: &'a [Implicit],
    name: &Name,
) -> Result<Option<Meaning<'a>>, Shortage>
    ensures { IfOk result (λ m.
        option_map plain_meaning m
        ≡ spec.outer_meaning (plain_signature sig.now) (map spec.plain_named variables.now) name.now) }
{
    match constant_meaning(sig, false, name) {
        Some(constant) => Ok(Some(constant)),
        None => variable_meaning(sig, variables, name),
    }
}

/// That of a constant.
fn constant_meaning<'a>(sig: &'a Signature, dollar: bool, name: &Name) -> Option<Meaning<'a>>
    ensures { option_map plain_meaning result
        ≡ option_map (names.constant_meaning (plain_signature sig.now) dollar)
        (constant_named_in (plain_signature sig.now) name.now) }
{
    let constant = constant_named(sig, name.as_str())?;
    Some(Meaning {
        head: Head::Const(constant),
        place: sig.simples().get(constant as usize),
        implicit: implicit_arguments(sig, dollar, constant),
    })
}

/// How many arguments of an entry are implicit; none after `$`.
pub fn implicit_arguments(sig: &Signature, dollar: bool, place: u32) -> u32
    ensures { result ≡ spec.implicit_after dollar (entry_at (plain_signature sig.now) place) }
{
    if dollar {
        return 0;
    }
    match sig.entry(place) {
        Some(entry) => entry.implicit,
        None => 0,
    }
}

/// That of an implicit variable.
fn variable_meaning<'a>(
    sig: &'a Signature,
    variables: &'a [Implicit],
    name: &Name,
) -> Result<Option<Meaning<'a>>, Shortage>
    ensures { IfOk result (λ m.
        option_map plain_meaning m
        ≡ spec.variable_from (declared_heads (plain_signature sig.now)) 0 name.now
        (map spec.plain_named variables.now)) }
{
    for (index, variable) in variables.iter().enumerate() {
        if same_name(name, &variable.name) {
            return Ok(Some(Meaning {
                head: variable_head(sig, index)?,
                place: place_of(&variable.simple),
                implicit: 0,
            }));
        }
    }
    Ok(None)
}

/// The head that an implicit variable is: a constant past those of the signature.
fn variable_head(sig: &Signature, index: usize) -> Result<Head, Shortage>
    ensures { IfOk result (λ h. h ≡ declared_heads (plain_signature sig.now) index) }
{
    let limit = u32::MAX as usize;
    if index > limit || sig.len() + index > limit {
        return Err(Shortage::Numbers);
    }
    Ok(Head::Const((sig.len() + index) as u32))
}

/// The simple type in a box.
pub fn place_of(simple: &Option<Boxed<Simple>>) -> Option<&Simple>
    ensures { option_copied result ≡ simple.now }
{
    match simple {
        Some(simple) => Some(simple.get()),
        None => None,
    }
}
