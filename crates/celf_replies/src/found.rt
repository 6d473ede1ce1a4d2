//! What is said of an item in which something is not written.
ghost use Rattle.std.specs.Prelude.{◌≡◌, ◌++◌, [], OnOk, codes, map};
ghost use Rattle.clf_sig.specs.Signature.{plain_signature};
ghost use Rattle.clf_printer.specs.Text.{when};
ghost use Rattle.celf_replies.specs.Reply.{plain_sides, plain_mismatch, family_differs, index_differs};
ghost use Rattle.celf_replies.specs.Found as spec;

use crate::reply::{Mismatch, Sides};
use clf_printer::{note_object, push_object, push_place};
use clf_sig::Signature;
use clf_syntax::Name;
use std::alloc::{AllocError, Global};

/// Writes what does not go together.
pub fn push_mismatch(
    alloc: Global,
    out: &mut Vec<u8>,
    sig: &Signature,
    mismatch: &Mismatch,
) -> Result<(), AllocError>
    ensures { OnOk result (out.new.items
        ≡ out.old.items ++ spec.mismatch_text (plain_signature sig.now) (plain_mismatch mismatch.now)) }
{
    match mismatch {
        Mismatch::NotFunction => out.extend_from_slice(b"not a function"),
        Mismatch::NotPair => out.extend_from_slice(b"not a pair"),
        Mismatch::NotTop => out.extend_from_slice(b"not a unit"),
        Mismatch::NotMonad => out.extend_from_slice(b"not a monad"),
        Mismatch::NotAtomic => out.extend_from_slice(b"not atomic"),
        Mismatch::NotClosed => out.extend_from_slice(b"not closed"),
        Mismatch::ModeDiffers => out.extend_from_slice(b"mode differs"),
        Mismatch::Width => out.extend_from_slice(b"width differs"),
        Mismatch::FamilyDiffers { found, wanted } => push_families(out, sig, *found, *wanted),
        Mismatch::UnknownHead => out.extend_from_slice(b"unknown head"),
        Mismatch::FamilyArity => out.extend_from_slice(b"family arity"),
        Mismatch::IndexDiffers(sides) => push_clash(alloc, out, sig, sides),
    }
}

/// Writes that two families differ.
fn push_families(
    out: &mut Vec<u8>,
    sig: &Signature,
    found: u32,
    wanted: u32,
) -> Result<(), AllocError>
    ensures { OnOk result (out.new.items
        ≡ out.old.items ++ spec.mismatch_text (plain_signature sig.now) (family_differs found wanted)) }
{
    out.extend_from_slice(b"family differs: ")?;
    push_place(out, sig, found)?;
    out.extend_from_slice(b" and ")?;
    push_place(out, sig, wanted)
}

/// Writes that two objects differ.
fn push_clash(
    alloc: Global,
    out: &mut Vec<u8>,
    sig: &Signature,
    sides: &Sides,
) -> Result<(), AllocError>
    ensures { OnOk result (out.new.items
        ≡ out.old.items
        ++ spec.mismatch_text (plain_signature sig.now) (index_differs (plain_sides sides.now))) }
{
    out.extend_from_slice(b"index differs: ")?;
    push_numbered(alloc, out, sig, sides)
}

/// Writes two sides whose metavariables are numbered for themselves.
fn push_numbered(
    alloc: Global,
    out: &mut Vec<u8>,
    sig: &Signature,
    sides: &Sides,
) -> Result<(), AllocError>
    ensures { OnOk result (out.new.items
        ≡ out.old.items
        ++ spec.sides_text (plain_signature sig.now) (spec.appearing_sides [] (plain_sides sides.now))
        (codes " and ") (plain_sides sides.now)) }
{
    let mut metas = Vec::new(alloc);
    note_sides(&mut metas, sides)?;
    push_sides(out, sig, metas.as_slice(), b" and ", sides)
}

/// Adds the metavariables that appear in two sides.
fn note_sides(metas: &mut Vec<u32>, sides: &Sides) -> Result<(), AllocError>
    ensures { OnOk result (metas.new.items ≡ spec.appearing_sides metas.old.items (plain_sides sides.now)) }
{
    note_object(metas, &sides.left)?;
    note_object(metas, &sides.right)
}

/// Writes two sides with a word between them.
fn push_sides(
    out: &mut Vec<u8>,
    sig: &Signature,
    metas: &[u32],
    between: &[u8],
    sides: &Sides,
) -> Result<(), AllocError>
    ensures { OnOk result (out.new.items
        ≡ out.old.items
        ++ spec.sides_text (plain_signature sig.now) metas.now between.now (plain_sides sides.now)) }
{
    let level = u64::from(sides.under);
    push_object(out, sig, metas, level, &sides.left)?;
    out.extend_from_slice(between)?;
    push_object(out, sig, metas, level, &sides.right)
}

/// Writes the equations that are left.
pub fn push_unresolved(
    alloc: Global,
    out: &mut Vec<u8>,
    sig: &Signature,
    equations: &[Sides],
) -> Result<(), AllocError>
    ensures { OnOk result (out.new.items
        ≡ out.old.items ++ spec.unresolved_text (plain_signature sig.now) (map plain_sides equations.now)) }
{
    let mut metas = Vec::new(alloc);
    note_equations(&mut metas, equations)?;
    push_equations(out, sig, metas.as_slice(), equations)
}

/// Adds the metavariables that appear in equations.
fn note_equations(metas: &mut Vec<u32>, equations: &[Sides]) -> Result<(), AllocError>
    ensures { OnOk result
        (metas.new.items ≡ spec.appearing_equations metas.old.items (map plain_sides equations.now)) }
{
    for sides in equations {
        note_sides(metas, sides)?;
    }
    Ok(())
}

/// Writes equations, with a comma between two of them.
fn push_equations(
    out: &mut Vec<u8>,
    sig: &Signature,
    metas: &[u32],
    equations: &[Sides],
) -> Result<(), AllocError>
    ensures { OnOk result (out.new.items
        ≡ out.old.items
        ++ spec.equations_text (plain_signature sig.now) metas.now (map plain_sides equations.now)) }
{
    let mut rest = equations;
    while let [sides, later @ ..] = rest {
        push_sides(out, sig, metas, b" = ", sides)?;
        push_comma(out, !later.is_empty())?;
        rest = later;
    }
    Ok(())
}

/// Writes a comma where something follows.
fn push_comma(out: &mut Vec<u8>, follows: bool) -> Result<(), AllocError>
    ensures { OnOk result (out.new.items ≡ out.old.items ++ when follows (codes ", ")) }
{
    if follows {
        out.extend_from_slice(b", ")?;
    }
    Ok(())
}

/// Writes the names of a circle, with a comma between two of them.
pub fn push_circle(out: &mut Vec<u8>, names: &[Option<Name>]) -> Result<(), AllocError>
    ensures { OnOk result (out.new.items ≡ out.old.items ++ spec.circle_text names.now) }
{
    let mut rest = names;
    while let [name, later @ ..] = rest {
        push_circle_name(out, name)?;
        push_comma(out, !later.is_empty())?;
        rest = later;
    }
    Ok(())
}

/// Writes the name of a variable, if it has one.
fn push_circle_name(out: &mut Vec<u8>, name: &Option<Name>) -> Result<(), AllocError>
    ensures { OnOk result (out.new.items ≡ out.old.items ++ spec.circle_name name.now) }
{
    match name {
        Some(name) => out.extend_from_slice(name.as_str().as_bytes()),
        None => out.extend_from_slice(b"_"),
    }
}
