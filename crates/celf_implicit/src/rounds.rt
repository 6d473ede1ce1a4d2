//! The rounds in which implicit variables are determined.
ghost use Rattle.std.specs.Prelude.{◌≡◌, IfOk};
ghost use Rattle.clf_sig.specs.Signature.{plain_signature};
ghost use Rattle.celf_sugar.specs.Plain.{desugared_item, body_of};
ghost use Rattle.celf_implicit.specs.Answers.{IsAnswer, IsOutcome, unless_left};

use crate::items::notes_of_item;
use crate::notes::Notes;
use crate::variable::{Implicit, Variable};
use celf_sugar::{Plain, PlainBody};
use clf_sig::Signature;
use clf_syntax::{OrWide, Shortage};
use sqlite_items::Items;
use std::alloc::Global;

/// The implicit variables of an item, in the order in which they are determined; the fault is the first of them in the
/// text that is not determined.
pub fn implicit_variables(
    alloc: Global,
    sig: &Signature,
    plain: &Plain,
) -> Result<Items<Implicit>, OrWide<Variable>>
    ensures { IsAnswer (plain_signature sig.now) (desugared_item plain.now) result }
{
    match rounds_of(alloc, sig, &plain.body) {
        Ok(Ok(variables)) => Ok(variables),
        Ok(Err(variable)) => Err(OrWide::Fault(variable)),
        Err(short) => Err(OrWide::from(short.want(alloc))),
    }
}

/// Round after round, until one determines no variable.
fn rounds_of(
    alloc: Global,
    sig: &Signature,
    body: &PlainBody,
) -> Result<Result<Items<Implicit>, Variable>, Shortage>
    ensures { IfOk result (IsOutcome (plain_signature sig.now) (body_of body.now)) }
{
    let mut found = Items::new(alloc);
    loop {
        let Notes {
            determined,
            open_one,
            appeared: _,
        } = notes_of_item(alloc, sig, found.as_slice(), body)?;
        if determined.is_empty() {
            return Ok(outcome(found, open_one));
        }
        found.append(determined)?;
    }
}

/// The variables that were found, unless one is left.
fn outcome(found: Items<Implicit>, left: Option<Variable>) -> Result<Items<Implicit>, Variable>
    ensures { result ≡ unless_left found left }
{
    match left {
        Some(variable) => Err(variable),
        None => Ok(found),
    }
}
