//! A declaration with its binders in front.
ghost use Rattle.std.specs.Prelude.{◌≡◌, ◌+◌, ◌++◌, [], IfErr, IfOk, OnOk, length, map};
ghost use Rattle.std.specs.List.{range_with_len};
ghost use Rattle.clf_syntax.specs.PlainTypes.{plain_ty};
ghost use Rattle.clf_syntax.specs.Wide.{IsWant};
ghost use Rattle.clf_sig.specs.Core.{plain_core};
ghost use Rattle.clf_sig.specs.Signature.{plain_class, plain_entry, plain_signature};
ghost use Rattle.celf_sugar.specs.Plain.{desugared_item};
ghost use Rattle.celf_implicit.specs.Answers.{AreAll};
ghost use Rattle.celf_reconstruct.specs.Left.{metavariables_with};
ghost use Rattle.celf_reconstruct.specs.Posed.{IsDeclaration};
ghost use Rattle.celf_reconstruct.specs.Reconstructed.{AreBinders, IsDeclared, IsReconstruction};
ghost use Rattle.celf_reconstruct.specs.Steps.{AreWithin, HasFound, IsCircular, IsFor, name_in};

use celf_front::{Fronted, front_of};
use celf_implicit::{Implicit, by_appearance};
use celf_replies::Why;
use celf_solve::Found;
use celf_sugar::Plain;
use clf_sig::{Class, Core, Entry, Signature};
use clf_syntax::{Name, OrWide, Ty, Want};
use sqlite_items::Items;
use std::alloc::{AllocError, Global};

/// The declaration with its binders in front: as many unnamed ones, and the implicit variables.
pub fn declare(
    alloc: Global,
    sig: &Signature,
    plain: &Plain,
    variables: &[Implicit],
    unnamed: usize,
    found: Found,
) -> Result<Core, OrWide<Why>>
    requires all { AreAll (plain_signature sig.now) (desugared_item plain.now).body variables.now }
    requires found { HasFound (plain_signature sig.now) (desugared_item plain.now).body variables.now unnamed found }
    requires none { metavariables_with (plain_core found.core) (map plain_ty found.types) ≡ [] }
    requires declaration { IsDeclaration (plain_core found.core) }
    ensures { IsReconstruction (plain_signature sig.now) (desugared_item plain.now) result }
{
    let binders = binders_of(alloc, sig, plain, variables, unnamed)?;
    let Found { core, types, store } = found;
    drop(store);
    match core {
        Core::Declare { name, entry } => {
            match declared(
                alloc,
                sig,
                variables,
                binders.as_slice(),
                types.as_slice(),
                entry,
            ) {
                Ok(entry) => Ok(Core::Declare { name, entry }),
                Err(fault) => {
                    drop(name);
                    Err(fault)
                }
            }
        }
        Core::Query { .. } | Core::Trace { .. } | Core::Equal { .. } | Core::Check { .. } => {
            unreachable!()
        }
    }
}

/// The numbers of the binders: first those of the unnamed ones, and then those of the implicit variables, in the order
/// in which they first appear.
fn binders_of(
    alloc: Global,
    sig: &Signature,
    plain: &Plain,
    variables: &[Implicit],
    unnamed: usize,
) -> Result<Items<u32>, Want>
    requires all { AreAll (plain_signature sig.now) (desugared_item plain.now).body variables.now }
    ensures binders { IfOk result (AreBinders (plain_signature sig.now) (desugared_item plain.now).body
        (length variables.now) unnamed) }
    ensures wide { IfErr result IsWant }
{
    let order = by_appearance(alloc, sig, plain, variables)?;
    let mut binders = numbers_from(alloc, variables.len(), unnamed)?;
    add_numbers(&mut binders, order.as_slice())?;
    Ok(binders)
}

fn add_numbers(numbers: &mut Items<u32>, more: &[u32]) -> Result<(), AllocError>
    ensures { OnOk result (numbers.new ≡ numbers.old ++ more.now) }
{
    for number in more {
        numbers.push(*number)?;
    }
    Ok(())
}

/// So many numbers, from the first one on.
fn numbers_from(alloc: Global, first: usize, count: usize) -> Result<Items<u32>, Want>
    ensures numbers { IfOk result (λ all. all ≡ range_with_len first count) }
    ensures wide { IfErr result IsWant }
{
    let Some(end) = first.checked_add(count) else {
        return Err(Want::too_far(alloc));
    };
    let (Ok(first), Ok(end)) = (u32::try_from(first), u32::try_from(end)) else {
        return Err(Want::too_far(alloc));
    };
    let mut all = Items::new(alloc);
    for number in first..end {
        all.push(number)?;
    }
    Ok(all)
}

/// The entry with these binders in front, of these types.
fn declared(
    alloc: Global,
    sig: &Signature,
    variables: &[Implicit],
    binders: &[u32],
    types: &[Ty],
    entry: Entry,
) -> Result<Entry, OrWide<Why>>
    requires within { AreWithin (length types.now) binders.now }
    ensures declared { IfOk result (λ e. IsDeclared (plain_signature sig.now) (map plain_ty types.now) binders.now
        entry.implicit (plain_class entry.class) (plain_entry e)) }
    ensures circle { IfErr result
        (IsFor (IsCircular (plain_signature sig.now) variables.now (map plain_ty types.now) binders.now)) }
{
    match front_of(alloc, sig.len() as u32, binders, types, &entry.class)? {
        Fronted::Under(class) => {
            let written = entry.implicit;
            drop(entry);
            Ok(counted(alloc, types, written, class)?)
        }
        Fronted::Circle(circle) => {
            drop(entry);
            Err(OrWide::Fault(Why::Circular(names_of(alloc, variables, circle.as_slice())?)))
        }
    }
}

/// The entry of a class, in which binders of these types are implicit beside as many arguments as are written so.
fn counted(alloc: Global, types: &[Ty], written: u32, class: Class) -> Result<Entry, Want>
    ensures entry { IfOk result (λ e. e ≡ record { implicit = length types.now + written; class = class }) }
    ensures wide { IfErr result IsWant }
{
    match u32::try_from(types.len() as u64 + u64::from(written)) {
        Ok(implicit) => Ok(Entry { implicit, class }),
        Err(_) => {
            drop(class);
            Err(Want::too_far(alloc))
        }
    }
}

/// The names of the binders of these numbers; unnamed ones have none.
fn names_of(
    alloc: Global,
    variables: &[Implicit],
    numbers: &[u32],
) -> Result<Vec<Option<Name>>, AllocError>
    ensures { IfOk result (λ names. names.items ≡ map (name_in variables.now) numbers.now) }
{
    let mut names = Vec::new(alloc);
    for number in numbers {
        names.push(name_of(alloc, variables, *number)?)?;
    }
    Ok(names)
}

fn name_of(alloc: Global, variables: &[Implicit], number: u32) -> Result<Option<Name>, AllocError>
    ensures { IfOk result (λ name. name ≡ name_in variables.now number) }
{
    match variables.get(number as usize) {
        Some(variable) => Ok(Some(variable.name.copy(alloc)?)),
        None => Ok(None),
    }
}
