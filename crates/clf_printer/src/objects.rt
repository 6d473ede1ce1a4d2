//! Objects and their parts.
ghost use Rattle.std.specs.Prelude.{◌≡◌, ◌≤◌, ◌++◌, ◌+◌, IfOk, OnOk, map, not, length, take};
ghost use Rattle.clf_syntax.specs.declared.tree.Head.{Head};
ghost use Rattle.clf_syntax.specs.Tree.{lam, head_alone, spine_on, tuple_of};
ghost use Rattle.clf_syntax.specs.Plain.{plain_obj, plain_neutral, plain_elim, plain_expr, plain_step, plain_entry};
ghost use Rattle.clf_sig.specs.Signature.{plain_signature};
ghost use Rattle.clf_printer.specs.Text as spec;
ghost use Rattle.clf_printer.specs.Spine as along;

use crate::words::{push_binder, push_head, push_if, push_mark, push_pattern, raised};
use clf_sig::Signature;
use clf_syntax::{Elim, Expr, Mode, Neutral, Obj, Step, TupleEntry};
use std::alloc::AllocError;

#[tactic(auto, using(crate::proofs::Texts::texts))]
fn is_argument(act: &Elim) -> bool
    ensures { result ≡ along.is_argument (plain_elim act.now) }
{
    match act {
        Elim::Arg { .. } => true,
        Elim::First => false,
        Elim::Second => false,
    }
}

/// Whether a head under the first eliminations of a spine is an application.
fn is_applied(spine: &[Elim], end: usize) -> bool
    requires { end ≤ length spine.now }
    ensures { (h : Head) →
        result ≡ spec.is_application (spine_on (map plain_elim (take end spine.now)) (head_alone h)) }
{
    end > 0 && is_argument(&spine[end - 1])
}

/// Whether an object needs no parentheses.
#[tactic(auto, using(crate::proofs::Texts::texts))]
fn is_atom(obj: &Obj) -> bool
    ensures { result ≡ spec.is_atom (plain_obj obj.now) }
{
    match obj {
        Obj::Lam { .. } => false,
        Obj::Pair { .. } => true,
        Obj::Unit => true,
        Obj::Mon { .. } => true,
        Obj::At { neutral } => !is_applied(neutral.spine.as_slice(), neutral.spine.len()),
        Obj::Hole => true,
    }
}

/// Writes what stands in front of a head: the projections, the last one first.
fn push_front(out: &mut Vec<u8>, spine: &[Elim]) -> Result<(), AllocError>
    ensures { OnOk result ((h : Head) →
        out.new.items
        ≡ out.old.items ++ along.front_text (spine_on (map plain_elim spine.now) (head_alone h))) }
{
    let mut end = spine.len();
    while end > 0 {
        end -= 1;
        push_projection(out, &spine[end], is_applied(spine, end))?;
    }
    Ok(())
}

/// Writes what an elimination puts in front of a neutral, which is an application or is not.
#[tactic(auto, using(crate::proofs::Texts::texts))]
fn push_projection(out: &mut Vec<u8>, act: &Elim, applied: bool) -> Result<(), AllocError>
    ensures { OnOk result (out.new.items ≡ out.old.items ++ along.projection_text applied (plain_elim act.now)) }
{
    match act {
        Elim::Arg { .. } => Ok(()),
        Elim::First => {
            out.extend_from_slice(b"#1 ")?;
            push_if(out, applied, b"(")
        }
        Elim::Second => {
            out.extend_from_slice(b"#2 ")?;
            push_if(out, applied, b"(")
        }
    }
}

/// Writes an object under so many binders.
#[cycle(push_object)]
pub fn push_object(
    out: &mut Vec<u8>,
    sig: &Signature,
    metas: &[u32],
    level: u64,
    obj: &Obj,
) -> Result<(), AllocError>
    ensures { OnOk result (out.new.items
        ≡ out.old.items ++ spec.object_text (plain_signature sig.now) metas.now level (plain_obj obj.now)) }
{
    match obj {
        Obj::Lam { mode, body } => push_lambda(out, sig, metas, level, *mode, body.get()),
        Obj::Pair { left, right } => {
            out.push(b'<')?;
            push_object(out, sig, metas, level, left.get())?;
            out.extend_from_slice(b", ")?;
            push_object(out, sig, metas, level, right.get())?;
            push_if(out, true, b">")
        }
        Obj::Unit => push_if(out, true, b"<>"),
        Obj::Mon { expr } => {
            out.push(b'{')?;
            push_expression(out, sig, metas, level, expr.get())?;
            push_if(out, true, b"}")
        }
        Obj::At { neutral } => push_neutral(out, sig, metas, level, neutral),
        Obj::Hole => push_if(out, true, b"_"),
    }
}

/// Writes a function.
#[cycle(push_object)]
fn push_lambda(
    out: &mut Vec<u8>,
    sig: &Signature,
    metas: &[u32],
    level: u64,
    mode: Mode,
    body: &Obj,
) -> Result<(), AllocError>
    ensures { OnOk result (out.new.items
        ≡ out.old.items
        ++ spec.object_text (plain_signature sig.now) metas.now level (lam mode (plain_obj body.now))) }
{
    out.push(b'\\')?;
    push_binder(out, level, mode)?;
    out.extend_from_slice(b". ")?;
    push_object(out, sig, metas, raised(level, 1)?, body)
}

/// Writes an object, in parentheses where it is no atom.
#[cycle(push_object)]
pub fn push_atom(
    out: &mut Vec<u8>,
    sig: &Signature,
    metas: &[u32],
    level: u64,
    obj: &Obj,
) -> Result<(), AllocError>
    ensures { OnOk result (out.new.items
        ≡ out.old.items
        ++ spec.grouped (not (spec.is_atom (plain_obj obj.now)))
        (spec.object_text (plain_signature sig.now) metas.now level (plain_obj obj.now))) }
{
    let grouped = !is_atom(obj);
    push_if(out, grouped, b"(")?;
    push_object(out, sig, metas, level, obj)?;
    push_if(out, grouped, b")")
}

#[cycle(push_object)]
fn push_neutral(
    out: &mut Vec<u8>,
    sig: &Signature,
    metas: &[u32],
    level: u64,
    neutral: &Neutral,
) -> Result<(), AllocError>
    ensures { OnOk result (out.new.items
        ≡ out.old.items
        ++ spec.neutral_text (plain_signature sig.now) metas.now level (plain_neutral neutral.now)) }
{
    let spine = neutral.spine.as_slice();
    push_front(out, spine)?;
    push_head(out, sig, metas, level, neutral.head)?;
    push_back(out, sig, metas, level, spine)
}

/// Writes what stands after a head.
#[cycle(push_object)]
fn push_back(
    out: &mut Vec<u8>,
    sig: &Signature,
    metas: &[u32],
    level: u64,
    spine: &[Elim],
) -> Result<(), AllocError>
    ensures { OnOk result ((h : Head) →
        out.new.items
        ≡ out.old.items
        ++ along.back_text (plain_signature sig.now) metas.now level
        (spine_on (map plain_elim spine.now) (head_alone h))) }
{
    let mut applied = false;
    for act in spine {
        push_elimination(out, sig, metas, level, act, applied)?;
        applied = is_argument(act);
    }
    Ok(())
}

/// Writes what an elimination adds after a neutral, which is an application or is not.
#[cycle(push_object)]
fn push_elimination(
    out: &mut Vec<u8>,
    sig: &Signature,
    metas: &[u32],
    level: u64,
    act: &Elim,
    applied: bool,
) -> Result<(), AllocError>
    ensures { OnOk result (out.new.items
        ≡ out.old.items
        ++ along.elimination_text (plain_signature sig.now) metas.now level applied (plain_elim act.now)) }
{
    match act {
        Elim::Arg { mode, obj } => {
            out.push(b' ')?;
            push_mark(out, *mode)?;
            push_atom(out, sig, metas, level, obj)
        }
        Elim::First => push_if(out, applied, b")"),
        Elim::Second => push_if(out, applied, b")"),
    }
}

#[cycle(push_object)]
fn push_expression(
    out: &mut Vec<u8>,
    sig: &Signature,
    metas: &[u32],
    level: u64,
    expr: &Expr,
) -> Result<(), AllocError>
    ensures { OnOk result (out.new.items
        ≡ out.old.items
        ++ spec.expression_text (plain_signature sig.now) metas.now level (plain_expr expr.now)) }
{
    let mut inner = level;
    for step in expr.steps.as_slice() {
        push_step(out, sig, metas, inner, step)?;
        inner = raised(inner, step.modes.len())?;
    }
    let result = expr.result.as_slice();
    push_tuple(out, sig, metas, inner, result)
}

#[cycle(push_object)]
fn push_step(
    out: &mut Vec<u8>,
    sig: &Signature,
    metas: &[u32],
    level: u64,
    step: &Step,
) -> Result<(), AllocError>
    ensures { OnOk result (out.new.items
        ≡ out.old.items
        ++ spec.step_text level (plain_step step.now).0
        (spec.neutral_text (plain_signature sig.now) metas.now level (plain_step step.now).1)) }
{
    out.extend_from_slice(b"let {")?;
    push_pattern(out, level, step.modes.as_slice())?;
    out.extend_from_slice(b"} = ")?;
    push_neutral(out, sig, metas, level, &step.rhs)?;
    push_if(out, true, b" in ")
}

#[cycle(push_object)]
fn push_tuple(
    out: &mut Vec<u8>,
    sig: &Signature,
    metas: &[u32],
    level: u64,
    tuple: &[TupleEntry],
) -> Result<(), AllocError>
    ensures { OnOk result (out.new.items
        ≡ out.old.items
        ++ spec.listed (length tuple.now) (spec.tuple_text (plain_signature sig.now) metas.now level
        (tuple_of (map plain_entry tuple.now)))) }
{
    push_if(out, tuple.is_empty(), b"1")?;
    push_if(out, tuple.len() > 1, b"[")?;
    push_entries(out, sig, metas, level, tuple)?;
    push_if(out, tuple.len() > 1, b"]")
}

#[cycle(push_object)]
fn push_entries(
    out: &mut Vec<u8>,
    sig: &Signature,
    metas: &[u32],
    level: u64,
    tuple: &[TupleEntry],
) -> Result<(), AllocError>
    ensures { OnOk result (out.new.items
        ≡ out.old.items
        ++ spec.tuple_text (plain_signature sig.now) metas.now level
        (tuple_of (map plain_entry tuple.now))) }
{
    let mut left = tuple.len();
    for entry in tuple {
        left -= 1;
        push_entry(out, sig, metas, level, entry)?;
        push_if(out, left > 0, b", ")?;
    }
    Ok(())
}

#[cycle(push_object)]
fn push_entry(
    out: &mut Vec<u8>,
    sig: &Signature,
    metas: &[u32],
    level: u64,
    entry: &TupleEntry,
) -> Result<(), AllocError>
    ensures { OnOk result (out.new.items
        ≡ out.old.items
        ++ spec.tuple_entry_text (plain_entry entry.now).0 (spec.is_atom (plain_entry entry.now).1)
        (spec.object_text (plain_signature sig.now) metas.now level (plain_entry entry.now).1)) }
{
    match entry.mode {
        Mode::Persistent => {
            out.push(b'!')?;
            push_atom(out, sig, metas, level, &entry.obj)
        }
        Mode::Affine => {
            out.push(b'@')?;
            push_atom(out, sig, metas, level, &entry.obj)
        }
        Mode::Linear => push_object(out, sig, metas, level, &entry.obj),
    }
}
