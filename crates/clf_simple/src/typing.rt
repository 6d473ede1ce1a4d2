//! Simple typing, decided.
ghost use Rattle.std.specs.Prelude.{◌≡◌, ◌↔◌, [], ◌∷◌, IfOk, IsTrue, map};
ghost use Rattle.std.specs.Option.{option_map};
ghost use Rattle.clf_syntax.specs.Simple.{SimplyTyped, assigned, extended_by};
ghost use Rattle.clf_syntax.specs.Tree.{tuple_of};
ghost use Rattle.clf_syntax.specs.Plain.{plain_obj, plain_neutral, plain_elim, plain_expr, plain_step, plain_entry};
ghost use Rattle.clf_syntax.specs.PlainSimple.{plain_simple, plain_simple_entry, simple_telescope_of};
ghost use Rattle.hered_subst.specs.TypedEnvironments.{is_metavariable};
ghost use Rattle.clf_simple.specs.Decision as spec;
ghost use Rattle.clf_simple.specs.Scope.{head_types, scope};

use crate::same::{has_modes, same_type};
use crate::scope::{Heads, head_type, with_entries, with_local};
use clf_syntax::{
    Elim, Expr, Head, Mode, Neutral, Obj, Simple, SimpleEntry, Step, TupleEntry, is_same_mode,
};
use std::alloc::{AllocError, Global};

/// Whether an object has the simple type. The types of constants and metavariables are by their numbers, and `ctx` has
/// the variables, the newest last. A hole has none, and a metavariable may stand at a monad. It fails only where memory
/// runs out.
pub fn simply_typed(
    alloc: Global,
    consts: &[Simple],
    metas: &[Simple],
    ctx: &[SimpleEntry],
    obj: &Obj,
    ty: &Simple,
) -> Result<bool, AllocError>
    ensures { IfOk result (λ b.
        IsTrue b
        ↔ SimplyTyped (extended_by (simple_telescope_of (map plain_simple_entry ctx.now))
        (assigned (map plain_simple consts.now) (map plain_simple metas.now) [])) (plain_obj obj.now)
        (plain_simple ty.now)) }
{
    let heads = Heads { consts, metas };
    let locals = with_entries(Vec::new(alloc), ctx)?;
    check(alloc, &heads, locals.as_slice(), obj, ty)
}

/// Whether an object has the simple type.
#[cycle(check)]
#[tactic(auto, using(clf_syntax::specs::Plain::plain_laws, clf_syntax::specs::PlainSimple::plain_simple_laws))]
fn check<'a>(
    alloc: Global,
    heads: &Heads<'a>,
    locals: &[&'a Simple],
    obj: &Obj,
    ty: &'a Simple,
) -> Result<bool, AllocError>
    ensures { IfOk result
        (λ b. b ≡ spec.typed (head_types heads.now) (scope locals.now) (plain_obj obj.now) (plain_simple ty.now)) }
{
    match obj {
        Obj::Lam { mode, body } => check_lambda(alloc, heads, locals, *mode, body.get(), ty),
        Obj::Pair { left, right } => match ty {
            Simple::With {
                left: first,
                right: second,
            } => {
                if !check(alloc, heads, locals, left.get(), first.get())? {
                    return Ok(false);
                }
                check(alloc, heads, locals, right.get(), second.get())
            }
            Simple::Atom(_) | Simple::Fun { .. } | Simple::Top | Simple::Monad { .. } => Ok(false),
        },
        Obj::Unit => Ok(is_top(ty)),
        Obj::Mon { expr } => check_monadic(alloc, heads, locals, expr.get(), ty),
        Obj::At { neutral } => check_atomic(alloc, heads, locals, neutral, ty),
        Obj::Hole => Ok(false),
    }
}

#[tactic(auto, using(clf_syntax::specs::PlainSimple::plain_simple_laws))]
fn is_top(ty: &Simple) -> bool
    ensures { result ≡ spec.at_top (plain_simple ty.now) }
{
    match ty {
        Simple::Top => true,
        Simple::Atom(_) | Simple::Fun { .. } | Simple::With { .. } | Simple::Monad { .. } => false,
    }
}

#[cycle(check)]
#[tactic(auto, using(clf_syntax::specs::PlainSimple::plain_simple_laws))]
fn check_lambda<'a>(
    alloc: Global,
    heads: &Heads<'a>,
    locals: &[&'a Simple],
    mode: Mode,
    body: &Obj,
    ty: &'a Simple,
) -> Result<bool, AllocError>
    ensures { IfOk result (λ b.
        b
        ≡ spec.at_function mode (plain_simple ty.now)
        (λ d c. spec.typed (head_types heads.now) (d ∷ scope locals.now) (plain_obj body.now) c)) }
{
    match ty {
        Simple::Fun {
            mode: wanted,
            dom,
            cod,
        } => {
            if !is_same_mode(mode, *wanted) {
                return Ok(false);
            }
            let inner = with_local(alloc, locals, dom.get())?;
            check(alloc, heads, inner.as_slice(), body, cod.get())
        }
        Simple::Atom(_) | Simple::With { .. } | Simple::Top | Simple::Monad { .. } => Ok(false),
    }
}

#[cycle(check)]
#[tactic(auto, using(clf_syntax::specs::PlainSimple::plain_simple_laws))]
fn check_monadic<'a>(
    alloc: Global,
    heads: &Heads<'a>,
    locals: &[&'a Simple],
    expr: &Expr,
    ty: &'a Simple,
) -> Result<bool, AllocError>
    ensures { IfOk result (λ b.
        b
        ≡ spec.at_lax (plain_simple ty.now)
        (λ s. spec.expression_typed (head_types heads.now) (scope locals.now) (plain_expr expr.now) s)) }
{
    match ty {
        Simple::Monad { entries } => {
            check_expression(alloc, heads, locals, expr, entries.as_slice())
        }
        Simple::Atom(_) | Simple::Fun { .. } | Simple::With { .. } | Simple::Top => Ok(false),
    }
}

/// Whether a neutral may stand at the type, and has it.
#[cycle(check)]
#[tactic(auto, using(clf_syntax::specs::PlainSimple::plain_simple_laws, crate::proofs::Lists::neutral_head))]
fn check_atomic<'a>(
    alloc: Global,
    heads: &Heads<'a>,
    locals: &[&'a Simple],
    neutral: &Neutral,
    ty: &'a Simple,
) -> Result<bool, AllocError>
    ensures { IfOk result (λ b.
        b
        ≡ spec.stands_as (spec.is_meta (plain_neutral neutral.now))
        (spec.type_of (head_types heads.now) (scope locals.now) (plain_neutral neutral.now))
        (plain_simple ty.now)) }
{
    match infer(alloc, heads, locals, neutral)? {
        Some(found) => Ok(may_stand(neutral.head, ty) && same_type(found, ty)),
        None => Ok(false),
    }
}

#[tactic(auto, using(clf_syntax::specs::PlainSimple::plain_simple_laws))]
fn may_stand(head: Head, ty: &Simple) -> bool
    ensures { result ≡ spec.stands (is_metavariable head) (plain_simple ty.now) }
{
    match ty {
        Simple::Atom(_) => true,
        Simple::Monad { .. } => match head {
            Head::Meta(_) => true,
            Head::Const(_) | Head::Var(_) => false,
        },
        Simple::Fun { .. } | Simple::With { .. } | Simple::Top => false,
    }
}

/// The type of a neutral, if it has one.
#[cycle(check)]
#[tactic(auto, using(crate::proofs::Lists::neutral_typed))]
fn infer<'a>(
    alloc: Global,
    heads: &Heads<'a>,
    locals: &[&'a Simple],
    neutral: &Neutral,
) -> Result<Option<&'a Simple>, AllocError>
    ensures { IfOk result (λ r.
        option_map (λ t. plain_simple t.now) r
        ≡ spec.type_of (head_types heads.now) (scope locals.now) (plain_neutral neutral.now)) }
{
    match head_type(heads, locals, neutral.head) {
        Some(found) => infer_spine(alloc, heads, locals, neutral.spine.as_slice(), found),
        None => Ok(None),
    }
}

#[cycle(check)]
#[tactic(auto, using(crate::proofs::Lists::from_place))]
fn infer_spine<'a>(
    alloc: Global,
    heads: &Heads<'a>,
    locals: &[&'a Simple],
    spine: &[Elim],
    head: &'a Simple,
) -> Result<Option<&'a Simple>, AllocError>
    ensures { IfOk result (λ r.
        option_map (λ t. plain_simple t.now) r
        ≡ spec.spine_type (head_types heads.now) (scope locals.now) (map plain_elim spine.now)
        (plain_simple head.now)) }
{
    let mut found = head;
    for act in spine {
        match eliminate(alloc, heads, locals, act, found)? {
            Some(next) => found = next,
            None => return Ok(None),
        }
    }
    Ok(Some(found))
}

#[cycle(check)]
#[tactic(auto, using(clf_syntax::specs::Plain::plain_laws, clf_syntax::specs::PlainSimple::plain_simple_laws))]
fn eliminate<'a>(
    alloc: Global,
    heads: &Heads<'a>,
    locals: &[&'a Simple],
    act: &Elim,
    found: &'a Simple,
) -> Result<Option<&'a Simple>, AllocError>
    ensures { IfOk result (λ r.
        option_map (λ t. plain_simple t.now) r
        ≡ spec.elimination_type (head_types heads.now) (scope locals.now) (plain_elim act.now)
        (plain_simple found.now)) }
{
    match act {
        Elim::Arg { mode, obj } => apply(alloc, heads, locals, *mode, obj, found),
        Elim::First => Ok(first_type(found)),
        Elim::Second => Ok(second_type(found)),
    }
}

#[tactic(auto, using(clf_syntax::specs::PlainSimple::plain_simple_laws))]
fn first_type<'a>(found: &'a Simple) -> Option<&'a Simple>
    ensures { option_map (λ t. plain_simple t.now) result ≡ spec.first_type (plain_simple found.now) }
{
    match found {
        Simple::With { left, right: _ } => Some(left.get()),
        Simple::Atom(_) | Simple::Fun { .. } | Simple::Top | Simple::Monad { .. } => None,
    }
}

#[tactic(auto, using(clf_syntax::specs::PlainSimple::plain_simple_laws))]
fn second_type<'a>(found: &'a Simple) -> Option<&'a Simple>
    ensures { option_map (λ t. plain_simple t.now) result ≡ spec.second_type (plain_simple found.now) }
{
    match found {
        Simple::With { left: _, right } => Some(right.get()),
        Simple::Atom(_) | Simple::Fun { .. } | Simple::Top | Simple::Monad { .. } => None,
    }
}

/// The type of a function that is put to an argument.
#[cycle(check)]
#[tactic(auto, using(clf_syntax::specs::PlainSimple::plain_simple_laws))]
fn apply<'a>(
    alloc: Global,
    heads: &Heads<'a>,
    locals: &[&'a Simple],
    mode: Mode,
    obj: &Obj,
    found: &'a Simple,
) -> Result<Option<&'a Simple>, AllocError>
    ensures { IfOk result (λ r.
        option_map (λ t. plain_simple t.now) r
        ≡ spec.argued mode (plain_simple found.now)
        (λ d. spec.typed (head_types heads.now) (scope locals.now) (plain_obj obj.now) d)) }
{
    match found {
        Simple::Fun {
            mode: wanted,
            dom,
            cod,
        } => {
            if !is_same_mode(mode, *wanted) {
                return Ok(None);
            }
            if !check(alloc, heads, locals, obj, dom.get())? {
                return Ok(None);
            }
            Ok(Some(cod.get()))
        }
        Simple::Atom(_) | Simple::With { .. } | Simple::Top | Simple::Monad { .. } => Ok(None),
    }
}

/// Whether the steps are typed, and the tuple at the end at the entries.
#[cycle(check)]
#[tactic(auto, using(crate::proofs::Lists::expr_typed))]
fn check_expression<'a>(
    alloc: Global,
    heads: &Heads<'a>,
    locals: &[&'a Simple],
    expr: &Expr,
    entries: &'a [SimpleEntry],
) -> Result<bool, AllocError>
    ensures { IfOk result (λ b.
        b
        ≡ spec.expression_typed (head_types heads.now) (scope locals.now) (plain_expr expr.now)
        (simple_telescope_of (map plain_simple_entry entries.now))) }
{
    match steps_scope(alloc, heads, locals, expr.steps.as_slice())? {
        Some(inner) => check_tuple(
            alloc,
            heads,
            inner.as_slice(),
            expr.result.as_slice(),
            entries,
        ),
        None => Ok(false),
    }
}

/// The scope after the steps, if they are typed.
#[cycle(check)]
#[tactic(auto, using(crate::proofs::Lists::from_place))]
fn steps_scope<'a>(
    alloc: Global,
    heads: &Heads<'a>,
    locals: &[&'a Simple],
    steps: &[Step],
) -> Result<Option<Vec<&'a Simple>>, AllocError>
    ensures { IfOk result (λ r.
        option_map (λ v. scope v.items) r
        ≡ spec.steps_scope (head_types heads.now) (scope locals.now) (map plain_step steps.now)) }
{
    let mut inner = Vec::from_slice(alloc, locals)?;
    for step in steps {
        match step_scope(alloc, heads, inner, step)? {
            Some(next) => inner = next,
            None => return Ok(None),
        }
    }
    Ok(Some(inner))
}

#[cycle(check)]
#[tactic(auto, using(clf_syntax::specs::Plain::plain_laws, clf_syntax::specs::PlainSimple::plain_simple_laws))]
fn step_scope<'a>(
    alloc: Global,
    heads: &Heads<'a>,
    locals: Vec<&'a Simple>,
    step: &Step,
) -> Result<Option<Vec<&'a Simple>>, AllocError>
    ensures { IfOk result (λ r.
        option_map (λ v. scope v.items) r
        ≡ spec.step_scope (head_types heads.now) (scope locals.entry.items) (plain_step step.now)) }
{
    match infer(alloc, heads, locals.as_slice(), &step.rhs)? {
        Some(found) => open(locals, found, step.modes.as_slice()),
        None => Ok(None),
    }
}

/// The scope after a step whose right side has this type.
#[tactic(auto, using(clf_syntax::specs::PlainSimple::plain_simple_laws))]
fn open<'a>(
    locals: Vec<&'a Simple>,
    found: &'a Simple,
    modes: &[Mode],
) -> Result<Option<Vec<&'a Simple>>, AllocError>
    ensures { IfOk result (λ r.
        option_map (λ v. scope v.items) r
        ≡ spec.opened modes.now (plain_simple found.now) (scope locals.entry.items)) }
{
    match found {
        Simple::Monad { entries } => {
            if has_modes(entries.as_slice(), modes) {
                Ok(Some(with_entries(locals, entries.as_slice())?))
            } else {
                Ok(None)
            }
        }
        Simple::Atom(_) | Simple::Fun { .. } | Simple::With { .. } | Simple::Top => Ok(None),
    }
}

/// Whether the entries of a tuple are typed.
#[cycle(check)]
#[tactic(auto, using(crate::proofs::Lists::from_place))]
fn check_tuple<'a>(
    alloc: Global,
    heads: &Heads<'a>,
    locals: &[&'a Simple],
    tuple: &[TupleEntry],
    entries: &'a [SimpleEntry],
) -> Result<bool, AllocError>
    ensures { IfOk result (λ b.
        b
        ≡ spec.tuple_typed (head_types heads.now) (scope locals.now) (tuple_of (map plain_entry tuple.now))
        (simple_telescope_of (map plain_simple_entry entries.now))) }
{
    if tuple.len() != entries.len() {
        return Ok(false);
    }
    for place in 0..tuple.len() {
        if !check_entry(alloc, heads, locals, &tuple[place], &entries[place])? {
            return Ok(false);
        }
    }
    Ok(true)
}

#[cycle(check)]
#[tactic(auto, using(clf_syntax::specs::Plain::plain_laws, clf_syntax::specs::PlainSimple::plain_simple_laws))]
fn check_entry<'a>(
    alloc: Global,
    heads: &Heads<'a>,
    locals: &[&'a Simple],
    part: &TupleEntry,
    entry: &'a SimpleEntry,
) -> Result<bool, AllocError>
    ensures { IfOk result (λ b.
        b
        ≡ spec.entry_typed (head_types heads.now) (scope locals.now) (plain_entry part.now)
        (plain_simple_entry entry.now)) }
{
    if !is_same_mode(part.mode, entry.mode) {
        return Ok(false);
    }
    check(alloc, heads, locals, &part.obj, &entry.ty)
}
