//! Two spines, gone along together.
ghost use Rattle.std.specs.Prelude.{◌≡◌, false, IfOk, Some, map, reverse};
ghost use Rattle.std.specs.Option.{option_map};
ghost use Rattle.clf_syntax.specs.declared.tree.Head.{Head as PlainHead};
ghost use Rattle.clf_syntax.specs.Plain.{plain_elim, plain_obj};
ghost use Rattle.clf_syntax.specs.PlainSimple.{plain_simple};
ghost use Rattle.clf_syntax.specs.Simple.{Assignment, SimplyTypedNeutral};
ghost use Rattle.clf_syntax.specs.Tree.{arg, first, head_alone, second, spine_on};
ghost use Rattle.clf_syntax.specs.TypeTree.{SimpleType};
ghost use Rattle.hered_subst.specs.TypedEnvironments.{is_metavariable};
ghost use Rattle.pattern_laws.specs.Equations.{Locals};
ghost use Rattle.celf_constraints.specs.Equated.{plain_equation, plain_locals};
ghost use Rattle.celf_unify.specs.Judged.{MatchesOn, Pairs};
ghost use Rattle.celf_unify.specs.Matching.{plain_matching};

use crate::parts::equation_of;
use crate::put_in::{copy_locals, with_equation};
use celf_constraints::Equation;
use clf_syntax::{Elim, Mode, Obj, Simple, SimpleEntry};
use std::alloc::{AllocError, Global};

/// The equations of the arguments so far, and the type of the neutral so far.
#[derive(Drop)]
pub struct Matching<'a> {
    parts: Vec<Equation>,
    ty: &'a Simple,
}

/// The equations of the arguments of two neutrals with the same head, the last one first, if the eliminations are the
/// same but for the arguments. `ty` is the type of the head.
pub fn argument_parts<'a>(
    alloc: Global,
    locals: &[SimpleEntry],
    left: &[Elim],
    right: &[Elim],
    ty: &'a Simple,
) -> Result<Option<Vec<Equation>>, AllocError>
    ensures { IfOk result (λ found. (g : Assignment) (h : PlainHead) (u : SimpleType)
        → g h ≡ Some (plain_simple ty.now) → is_metavariable h ≡ false
        → SimplyTypedNeutral g (spine_on (map plain_elim left.now) (head_alone h)) u
        → Pairs g (plain_locals locals.now) (spine_on (map plain_elim left.now) (head_alone h))
        (spine_on (map plain_elim right.now) (head_alone h))
        (option_map (λ v. map plain_equation v.items) found)) }
{
    if left.len() != right.len() {
        return Ok(None);
    }
    let mut state = Matching {
        parts: Vec::new(alloc),
        ty,
    };
    for place in 0..left.len() {
        match matched(alloc, locals, state, &left[place], &right[place])? {
            Some(next) => state = next,
            None => return Ok(None),
        }
    }
    Ok(Some(last_first(state)))
}

/// The equations, the last one first.
fn last_first<'a>(state: Matching<'a>) -> Vec<Equation>
    ensures { result.items ≡ reverse state.entry.parts.items }
{
    let Matching { mut parts, ty: _ } = state;
    parts.reverse();
    parts
}

/// One elimination more on both sides.
#[tactic(auto, using(clf_syntax::specs::Plain::plain_laws))]
fn matched<'a>(
    alloc: Global,
    locals: &[SimpleEntry],
    state: Matching<'a>,
    left: &Elim,
    right: &Elim,
) -> Result<Option<Matching<'a>>, AllocError>
    ensures { IfOk result (λ next. MatchesOn (plain_matching state.entry).0 (plain_matching state.entry).1
        (plain_locals locals.now) (plain_elim left.now) (plain_elim right.now) (option_map plain_matching next)) }
{
    match left {
        Elim::Arg { mode, obj } => argument(alloc, locals, state, *mode, obj, right),
        Elim::First => Ok(first_half(state, right)),
        Elim::Second => Ok(second_half(state, right)),
    }
}

/// The same, where an argument is on the left.
#[tactic(auto, using(clf_syntax::specs::Plain::plain_laws))]
fn argument<'a>(
    alloc: Global,
    locals: &[SimpleEntry],
    state: Matching<'a>,
    mode: Mode,
    obj: &Obj,
    right: &Elim,
) -> Result<Option<Matching<'a>>, AllocError>
    ensures { IfOk result (λ next. MatchesOn (plain_matching state.entry).0 (plain_matching state.entry).1
        (plain_locals locals.now) (arg mode (plain_obj obj.now)) (plain_elim right.now)
        (option_map plain_matching next)) }
{
    match right {
        Elim::Arg {
            mode: second,
            obj: other,
        } => {
            if mode == *second {
                arguments(alloc, locals, state, mode, obj, other)
            } else {
                drop(state);
                Ok(None)
            }
        }
        Elim::First | Elim::Second => {
            drop(state);
            Ok(None)
        }
    }
}

/// The same, where an argument of the same mode is on both sides.
#[tactic(auto, using(clf_syntax::specs::PlainSimple::plain_simple_laws))]
fn arguments<'a>(
    alloc: Global,
    locals: &[SimpleEntry],
    state: Matching<'a>,
    mode: Mode,
    obj: &Obj,
    other: &Obj,
) -> Result<Option<Matching<'a>>, AllocError>
    ensures { IfOk result (λ next. MatchesOn (plain_matching state.entry).0 (plain_matching state.entry).1
        (plain_locals locals.now) (arg mode (plain_obj obj.now)) (arg mode (plain_obj other.now))
        (option_map plain_matching next)) }
{
    let Matching { parts, ty } = state;
    match ty {
        Simple::Fun { mode: _, dom, cod } => {
            let part = equation_of(alloc, copy_locals(alloc, locals)?, obj, other, dom.get())?;
            Ok(Some(Matching {
                parts: with_equation(parts, part)?,
                ty: cod.get(),
            }))
        }
        Simple::Atom(_) | Simple::With { .. } | Simple::Top | Simple::Monad { .. } => {
            drop(parts);
            Ok(None)
        }
    }
}

/// The same, where the first projection is on the left.
#[tactic(auto, using(clf_syntax::specs::Plain::plain_laws))]
fn first_half<'a>(state: Matching<'a>, right: &Elim) -> Option<Matching<'a>>
    ensures { (ls : Locals) → MatchesOn (plain_matching state.entry).0 (plain_matching state.entry).1 ls first
        (plain_elim right.now) (option_map plain_matching result) }
{
    match right {
        Elim::First => first_part(state),
        Elim::Arg { .. } | Elim::Second => {
            drop(state);
            None
        }
    }
}

/// The same, where it is on both sides.
#[tactic(auto, using(clf_syntax::specs::PlainSimple::plain_simple_laws))]
fn first_part<'a>(state: Matching<'a>) -> Option<Matching<'a>>
    ensures { (ls : Locals) → MatchesOn (plain_matching state.entry).0 (plain_matching state.entry).1 ls first first
        (option_map plain_matching result) }
{
    let Matching { parts, ty } = state;
    match ty {
        Simple::With { left, right: _ } => Some(Matching {
            parts,
            ty: left.get(),
        }),
        Simple::Atom(_) | Simple::Fun { .. } | Simple::Top | Simple::Monad { .. } => {
            drop(parts);
            None
        }
    }
}

/// The same, where the second projection is on the left.
#[tactic(auto, using(clf_syntax::specs::Plain::plain_laws))]
fn second_half<'a>(state: Matching<'a>, right: &Elim) -> Option<Matching<'a>>
    ensures { (ls : Locals) → MatchesOn (plain_matching state.entry).0 (plain_matching state.entry).1 ls second
        (plain_elim right.now) (option_map plain_matching result) }
{
    match right {
        Elim::Second => second_part(state),
        Elim::Arg { .. } | Elim::First => {
            drop(state);
            None
        }
    }
}

/// The same, where it is on both sides.
#[tactic(auto, using(clf_syntax::specs::PlainSimple::plain_simple_laws))]
fn second_part<'a>(state: Matching<'a>) -> Option<Matching<'a>>
    ensures { (ls : Locals) → MatchesOn (plain_matching state.entry).0 (plain_matching state.entry).1 ls second second
        (option_map plain_matching result) }
{
    let Matching { parts, ty } = state;
    match ty {
        Simple::With { left: _, right } => Some(Matching {
            parts,
            ty: right.get(),
        }),
        Simple::Atom(_) | Simple::Fun { .. } | Simple::Top | Simple::Monad { .. } => {
            drop(parts);
            None
        }
    }
}
