//! The order in which implicit variables first appear in the text.
ghost use Rattle.std.specs.Prelude.{◌≡◌, ◌+◌, IfOk, IfErr, length, map};
ghost use Rattle.clf_syntax.specs.Wide.{IsWant};
ghost use Rattle.clf_sig.specs.Signature.{plain_signature};
ghost use Rattle.celf_sugar.specs.Plain.{desugared_item, body_of};
ghost use Rattle.celf_implicit.specs.Answers.{AreAll, plain_implicit};
ghost use Rattle.celf_implicit.specs.Appearance.{IsByAppearance};
ghost use Rattle.celf_implicit.specs.FirstBytes as spec;

use crate::items::notes_of_item;
use crate::notes::Notes;
use crate::variable::Implicit;
use celf_names::same_name;
use celf_sugar::{Plain, PlainBody};
use clf_sig::Signature;
use clf_syntax::{Name, Shortage, Want};
use sqlite_items::Items;
use std::alloc::{AllocError, Global};

/// The numbers of the implicit variables of an item, in the order in which they first appear in its text.
pub fn by_appearance(
    alloc: Global,
    sig: &Signature,
    plain: &Plain,
    variables: &[Implicit],
) -> Result<Items<u32>, Want>
    requires all { AreAll (plain_signature sig.now) (desugared_item plain.now).body variables.now }
    ensures order { IfOk result (IsByAppearance
        (plain_signature sig.now) (desugared_item plain.now).body (length variables.now)) }
    ensures wide { IfErr result IsWant }
{
    match order_of(alloc, sig, &plain.body, variables) {
        Ok(order) => Ok(order),
        Err(short) => Err(short.want(alloc)),
    }
}

fn order_of(
    alloc: Global,
    sig: &Signature,
    body: &PlainBody,
    variables: &[Implicit],
) -> Result<Items<u32>, Shortage>
    requires { AreAll (plain_signature sig.now) (body_of body.now) variables.now }
    ensures { IfOk result (IsByAppearance (plain_signature sig.now) (body_of body.now) (length variables.now)) }
{
    let Notes {
        determined: _,
        open_one: _,
        appeared,
    } = notes_of_item(alloc, sig, &[], body)?;
    let firsts = firsts_of(alloc, appeared.as_slice(), variables)?;
    Ok(by_bytes(alloc, firsts.as_slice())?)
}

/// The number of a variable, and its first byte.
#[derive(Clone, Copy)]
pub struct First {
    pub byte: u32,
    pub number: u32,
}

/// Each variable with its first byte, which stands among these.
fn firsts_of(
    alloc: Global,
    appeared: &[Implicit],
    variables: &[Implicit],
) -> Result<Items<First>, Shortage>
    ensures { IfOk result (λ firsts. firsts
        ≡ spec.numbered 0 (spec.bytes_in (map plain_implicit appeared.now) (map plain_implicit variables.now))) }
{
    let mut firsts = Items::new(alloc);
    let mut number = 0;
    for variable in variables {
        let byte = byte_of(appeared, &variable.name);
        firsts.push(First { byte, number })?;
        number = next_number(number)?;
    }
    Ok(firsts)
}

fn next_number(number: u32) -> Result<u32, Shortage>
    ensures { IfOk result (λ next. next ≡ number + 1) }
{
    match number.checked_add(1) {
        Some(next) => Ok(next),
        None => Err(Shortage::Numbers),
    }
}

/// The byte of the variable of a name; 0 where there is none.
fn byte_of(appeared: &[Implicit], name: &Name) -> u32
    ensures { result ≡ spec.byte_in (map plain_implicit appeared.now) name.now }
{
    for variable in appeared {
        if same_name(name, &variable.name) {
            return variable.start;
        }
    }
    0
}

/// The numbers, by bytes.
fn by_bytes(alloc: Global, firsts: &[First]) -> Result<Items<u32>, AllocError>
    ensures { IfOk result (spec.AreByBytes firsts.now) }
{
    let mut sorted = Vec::from_slice(alloc, firsts)?;
    sorted.sort_unstable_by_key(|first| first.byte);
    let numbers = numbers_of(alloc, sorted.as_slice())?;
    Ok(numbers)
}

fn numbers_of(alloc: Global, firsts: &[First]) -> Result<Items<u32>, AllocError>
    ensures { IfOk result (λ numbers. numbers ≡ map (λ f. f.number) firsts.now) }
{
    let mut numbers = Items::new(alloc);
    for first in firsts {
        numbers.push(first.number)?;
    }
    Ok(numbers)
}
