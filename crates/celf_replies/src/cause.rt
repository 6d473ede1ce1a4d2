//! Why the kernel refuses.
ghost use Rattle.std.specs.Prelude.{◌≡◌, ◌++◌, OnOk};
ghost use Rattle.clf_syntax.specs.Plain.{plain_obj};
ghost use Rattle.clf_sig.specs.Signature.{plain_signature};
ghost use Rattle.clf_kernel.specs.Answers.{plain_cause};
ghost use Rattle.clf_printer.specs.Text.{variable_text};
ghost use Rattle.clf_rules.specs.Refusal.{family_differs, index_differs};
ghost use Rattle.celf_replies.specs.Causes as spec;

use clf_kernel::Cause;
use clf_printer::{push_number, push_object, push_place, push_variable};
use clf_sig::Signature;
use clf_syntax::Obj;
use std::alloc::AllocError;

/// Writes the words of a cause.
pub fn push_cause(out: &mut Vec<u8>, sig: &Signature, cause: &Cause) -> Result<(), AllocError>
    ensures { OnOk result
        (out.new.items ≡ out.old.items ++ spec.cause_text (plain_signature sig.now) (plain_cause cause.now)) }
{
    match cause {
        Cause::NotFunction { .. } => out.extend_from_slice(b"not a function"),
        Cause::NotPair { .. } => out.extend_from_slice(b"not a pair"),
        Cause::NotTop { .. } => out.extend_from_slice(b"not a unit"),
        Cause::NotMonad { .. } => out.extend_from_slice(b"not a monad"),
        Cause::NotAtomic { .. } => out.extend_from_slice(b"not atomic"),
        Cause::NotClosed => out.extend_from_slice(b"not closed"),
        Cause::ModeDiffers { .. } => out.extend_from_slice(b"mode differs"),
        Cause::Width { .. } => out.extend_from_slice(b"width differs"),
        Cause::NotHeld { level } => push_level(out, b"not held ", *level),
        Cause::Unused { level } => push_level(out, b"unused ", *level),
        Cause::PairsDiffer { level } => push_level(out, b"pairs differ on ", *level),
        Cause::FamilyDiffers { found, wanted } => push_families(out, sig, *found, *wanted),
        Cause::IndexDiffers {
            scope,
            found,
            wanted,
        } => push_indices(out, sig, *scope, found, wanted),
        Cause::FamilyArity { .. } => out.extend_from_slice(b"family arity"),
        Cause::UnknownHead { .. } => out.extend_from_slice(b"unknown head"),
    }
}

/// Writes that two families differ.
fn push_families(
    out: &mut Vec<u8>,
    sig: &Signature,
    found: u32,
    wanted: u32,
) -> Result<(), AllocError>
    ensures { OnOk result
        (out.new.items ≡ out.old.items ++ spec.cause_text (plain_signature sig.now) (family_differs found wanted)) }
{
    out.extend_from_slice(b"family differs: ")?;
    push_place(out, sig, found)?;
    out.extend_from_slice(b" and ")?;
    push_place(out, sig, wanted)
}

/// Writes that two indices under so many variables differ.
fn push_indices(
    out: &mut Vec<u8>,
    sig: &Signature,
    scope: u32,
    found: &Obj,
    wanted: &Obj,
) -> Result<(), AllocError>
    ensures { OnOk result (out.new.items
        ≡ out.old.items
        ++ spec.cause_text (plain_signature sig.now)
        (index_differs scope (plain_obj found.now) (plain_obj wanted.now))) }
{
    let level = u64::from(scope);
    out.extend_from_slice(b"index differs: ")?;
    push_object(out, sig, &[], level, found)?;
    out.extend_from_slice(b" and ")?;
    push_object(out, sig, &[], level, wanted)
}

/// Writes words and a variable.
fn push_level(out: &mut Vec<u8>, words: &[u8], level: u32) -> Result<(), AllocError>
    ensures { OnOk result (out.new.items ≡ out.old.items ++ (words.now ++ variable_text level)) }
{
    out.extend_from_slice(words)?;
    push_variable(out, u64::from(level))
}

/// Writes the numbers of a path, with a stop between two of them.
pub fn push_path(out: &mut Vec<u8>, path: &[u32]) -> Result<(), AllocError>
    ensures { OnOk result (out.new.items ≡ out.old.items ++ spec.path_text path.now) }
{
    let [first, further @ ..] = path else {
        return Ok(());
    };
    push_number(out, u64::from(*first))?;
    push_stops(out, further)
}

/// Writes the numbers of a path, each after a stop.
#[tactic(auto, using(crate::proofs::Causes::path_laws))]
fn push_stops(out: &mut Vec<u8>, path: &[u32]) -> Result<(), AllocError>
    ensures { OnOk result (out.new.items ≡ out.old.items ++ spec.stops_text path.now) }
{
    for &place in path {
        out.push(b'.')?;
        push_number(out, u64::from(place))?;
    }
    Ok(())
}
