//! The text of a run, as that of the closed object that it makes, and of its type.
ghost use Rattle.std.specs.Prelude.{◌≡◌, ◌≤◌, ◌<◌, ◌^◌, ◌++◌, codes, drop, length, map, IfOk, OnOk};
ghost use Rattle.clf_syntax.specs.Plain.{plain_expr, plain_obj};
ghost use Rattle.clf_syntax.specs.PlainTypes.{plain_tele, plain_tele_entry, plain_ty};
ghost use Rattle.clf_syntax.specs.TypeTree.{telescope_of};
ghost use Rattle.clf_sig.specs.Signature.{plain_signature};
ghost use Rattle.clf_printer.specs.Depth.{scope_depth, type_depth};
ghost use Rattle.clf_printer.specs.Judgment.{judgment_text};
ghost use Rattle.run_printer.specs.Runs as spec;

use clf_printer::{object_text, type_text};
use clf_sig::Signature;
use clf_syntax::{Expr, Obj, Tele, TeleEntry, Ty};
use sqlite_items::Boxed;
use std::alloc::{AllocError, Global};

/// The text of the closed object that binds what is there at the start, takes the steps of a run and answers its
/// result, and of its type, with a colon between. `finish` is the telescope of the result, under the variables of the
/// start.
///
/// It fails only where memory runs out, so what has a text nests fewer binders than 2^64.
pub fn run_text(
    alloc: Global,
    sig: &Signature,
    start: &Tele,
    run: &Expr,
    finish: &Tele,
) -> Result<Vec<u8>, AllocError>
    ensures text { IfOk result (λ text.
        text.items
        ≡ spec.run_text (plain_signature sig.now) (plain_tele start.now) (plain_expr run.now)
        (plain_tele finish.now)) }
    ensures object_depth { OnOk result
        (scope_depth (spec.run_object (plain_tele start.now) (plain_expr run.now)) < 2 ^ 64) }
    ensures type_depth { OnOk result
        (type_depth (spec.run_type (plain_tele start.now) (plain_tele finish.now)) < 2 ^ 64) }
{
    let entries = start.entries.as_slice();
    let obj = bound_object(alloc, entries, 0, run)?;
    let ty = bound_type(alloc, entries, 0, finish)?;
    let text = judgment(alloc, sig, &obj, &ty);
    // By calls: dropped at the end, each form of the trees would be a case of this function.
    drop(obj);
    drop(ty);
    text
}

/// The run, with the entries from a place on bound around it.
fn bound_object(
    alloc: Global,
    entries: &[TeleEntry],
    at: usize,
    run: &Expr,
) -> Result<Obj, AllocError>
    requires { at ≤ length entries.now }
    ensures { IfOk result (λ obj.
        plain_obj obj
        ≡ spec.run_object (telescope_of (map plain_tele_entry (drop at entries.now))) (plain_expr run.now)) }
{
    if at == entries.len() {
        let expr = Boxed::new(alloc, run.copy(alloc)?)?;
        return Ok(Obj::Mon { expr });
    }
    let entry = &entries[at];
    let body = Boxed::new(alloc, bound_object(alloc, entries, at + 1, run)?)?;
    Ok(Obj::Lam {
        mode: entry.mode,
        body,
    })
}

/// The monad of a telescope, with functions of the entries from a place on around it.
fn bound_type(
    alloc: Global,
    entries: &[TeleEntry],
    at: usize,
    finish: &Tele,
) -> Result<Ty, AllocError>
    requires { at ≤ length entries.now }
    ensures { IfOk result (λ ty.
        plain_ty ty
        ≡ spec.run_type (telescope_of (map plain_tele_entry (drop at entries.now))) (plain_tele finish.now)) }
{
    if at == entries.len() {
        return Ok(Ty::Monad {
            tele: finish.copy(alloc)?,
        });
    }
    let entry = &entries[at];
    let cod = Boxed::new(alloc, bound_type(alloc, entries, at + 1, finish)?)?;
    let dom = Boxed::new(alloc, entry.ty.copy(alloc)?)?;
    Ok(Ty::Fun {
        mode: entry.mode,
        dom,
        cod,
    })
}

/// The text of an object and of its type, with a colon between.
fn judgment(alloc: Global, sig: &Signature, obj: &Obj, ty: &Ty) -> Result<Vec<u8>, AllocError>
    ensures text { IfOk result
        (λ text. text.items ≡ judgment_text (plain_signature sig.now) (plain_obj obj.now) (plain_ty ty.now)) }
    ensures object_depth { OnOk result (scope_depth (plain_obj obj.now) < 2 ^ 64) }
    ensures type_depth { OnOk result (type_depth (plain_ty ty.now) < 2 ^ 64) }
{
    let mut text = object_text(alloc, sig, 0, &[], obj)?;
    let ty = type_text(alloc, sig, 0, &[], ty)?;
    text.extend_from_slice(b" : ")?;
    text.extend_from_slice(ty.as_slice())?;
    Ok(text)
}
