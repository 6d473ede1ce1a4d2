//! The metavariables that appear, in order.
ghost use Rattle.std.specs.Prelude.{◌≡◌, ◌==◌, OnOk, map};
ghost use Rattle.std.specs.List.{list_any};
ghost use Rattle.clf_syntax.specs.Plain.{plain_obj, plain_neutral, plain_elim, plain_expr, plain_entry};
ghost use Rattle.clf_syntax.specs.PlainTypes.{plain_ty, plain_tele_entry};
ghost use Rattle.clf_syntax.specs.Tree.{tuple_of};
ghost use Rattle.clf_syntax.specs.TypeTree.{telescope_of};
ghost use Rattle.clf_sig.specs.Signature.{plain_class};
ghost use Rattle.clf_printer.specs.Metas as spec;

use clf_sig::Class;
use clf_syntax::{Elim, Expr, Head, Neutral, Obj, TeleEntry, TupleEntry, Ty};
use std::alloc::AllocError;

fn has_appeared(metas: &[u32], meta: u32) -> bool
    ensures { result ≡ list_any (λ n. n == meta) metas.now }
{
    for known in metas {
        if *known == meta {
            return true;
        }
    }
    false
}

fn note_meta(metas: &mut Vec<u32>, meta: u32) -> Result<(), AllocError>
    ensures { OnOk result (metas.new.items ≡ spec.appeared metas.old.items meta) }
{
    if !has_appeared(metas, meta) {
        metas.push(meta)?;
    }
    Ok(())
}

fn note_head(metas: &mut Vec<u32>, head: Head) -> Result<(), AllocError>
    ensures { OnOk result (metas.new.items ≡ spec.appearing_head metas.old.items head) }
{
    match head {
        Head::Const(_) => Ok(()),
        Head::Var(_) => Ok(()),
        Head::Meta(meta) => note_meta(metas, meta),
    }
}

/// Adds the metavariables that appear in an object.
#[cycle(note_object)]
pub fn note_object(metas: &mut Vec<u32>, obj: &Obj) -> Result<(), AllocError>
    ensures { OnOk result (metas.new.items ≡ spec.appearing metas.old.items (plain_obj obj.now)) }
{
    match obj {
        Obj::Lam { mode: _, body } => note_object(metas, body.get()),
        Obj::Pair { left, right } => {
            note_object(metas, left.get())?;
            note_object(metas, right.get())
        }
        Obj::Unit => Ok(()),
        Obj::Mon { expr } => note_expression(metas, expr.get()),
        Obj::At { neutral } => note_neutral(metas, neutral),
        Obj::Hole => Ok(()),
    }
}

#[cycle(note_object)]
fn note_neutral(metas: &mut Vec<u32>, neutral: &Neutral) -> Result<(), AllocError>
    ensures { OnOk result (metas.new.items ≡ spec.appearing_neutral metas.old.items (plain_neutral neutral.now)) }
{
    note_head(metas, neutral.head)?;
    note_spine(metas, neutral.spine.as_slice())
}

#[cycle(note_object)]
fn note_spine(metas: &mut Vec<u32>, spine: &[Elim]) -> Result<(), AllocError>
    ensures { OnOk result (metas.new.items ≡ spec.appearing_spine metas.old.items (map plain_elim spine.now)) }
{
    for act in spine {
        note_elimination(metas, act)?;
    }
    Ok(())
}

#[cycle(note_object)]
fn note_elimination(metas: &mut Vec<u32>, act: &Elim) -> Result<(), AllocError>
    ensures { OnOk result (metas.new.items ≡ spec.appearing_elimination metas.old.items (plain_elim act.now)) }
{
    match act {
        Elim::Arg { mode: _, obj } => note_object(metas, obj),
        Elim::First => Ok(()),
        Elim::Second => Ok(()),
    }
}

#[cycle(note_object)]
fn note_expression(metas: &mut Vec<u32>, expr: &Expr) -> Result<(), AllocError>
    ensures { OnOk result (metas.new.items ≡ spec.appearing_expression metas.old.items (plain_expr expr.now)) }
{
    for step in expr.steps.as_slice() {
        note_neutral(metas, &step.rhs)?;
    }
    note_tuple(metas, expr.result.as_slice())
}

#[cycle(note_object)]
fn note_tuple(metas: &mut Vec<u32>, tuple: &[TupleEntry]) -> Result<(), AllocError>
    ensures { OnOk result
        (metas.new.items ≡ spec.appearing_tuple metas.old.items (tuple_of (map plain_entry tuple.now))) }
{
    for entry in tuple {
        note_object(metas, &entry.obj)?;
    }
    Ok(())
}

fn note_indices(metas: &mut Vec<u32>, indices: &[Obj]) -> Result<(), AllocError>
    ensures { OnOk result (metas.new.items ≡ spec.appearing_indices metas.old.items (map plain_obj indices.now)) }
{
    for index in indices {
        note_object(metas, index)?;
    }
    Ok(())
}

/// Adds the metavariables that appear in a type.
#[cycle(note_type)]
pub fn note_type(metas: &mut Vec<u32>, ty: &Ty) -> Result<(), AllocError>
    ensures { OnOk result (metas.new.items ≡ spec.appearing_type metas.old.items (plain_ty ty.now)) }
{
    match ty {
        Ty::Fam { family: _, indices } => note_indices(metas, indices.as_slice()),
        Ty::Fun { mode: _, dom, cod } => {
            note_type(metas, dom.get())?;
            note_type(metas, cod.get())
        }
        Ty::With { left, right } => {
            note_type(metas, left.get())?;
            note_type(metas, right.get())
        }
        Ty::Top => Ok(()),
        Ty::Monad { tele } => note_telescope(metas, tele.entries.as_slice()),
    }
}

#[cycle(note_type)]
fn note_telescope(metas: &mut Vec<u32>, entries: &[TeleEntry]) -> Result<(), AllocError>
    ensures { OnOk result (metas.new.items
        ≡ spec.appearing_telescope metas.old.items (telescope_of (map plain_tele_entry entries.now))) }
{
    for entry in entries {
        note_type(metas, &entry.ty)?;
    }
    Ok(())
}

fn note_kind(metas: &mut Vec<u32>, args: &[Ty]) -> Result<(), AllocError>
    ensures { OnOk result (metas.new.items ≡ spec.appearing_kind metas.old.items (map plain_ty args.now)) }
{
    for arg in args {
        note_type(metas, arg)?;
    }
    Ok(())
}

/// Adds the metavariables that appear in a class.
pub fn note_class(metas: &mut Vec<u32>, class: &Class) -> Result<(), AllocError>
    ensures { OnOk result (metas.new.items ≡ spec.appearing_class metas.old.items (plain_class class.now)) }
{
    match class {
        Class::Family(kind) => note_kind(metas, kind.args.as_slice()),
        Class::Constant(ty) => note_type(metas, ty),
    }
}
