//! Objects and expressions from their parts.
ghost use Rattle.std.specs.Prelude.{◌≡◌, IfOk, map};
ghost use Rattle.celf_surface.specs.Surface.{object_tree, form_tree, argument_tree, expression_tree, step_tree, steps_of, tuple_tree, lam as lambda_of, pair as pair_of, braces as braces_of, first as first_of, second as second_of};
ghost use Rattle.celf_grammar.specs.Grammar.{applied as applied_of};

use celf_surface::{SArg, SExpr, SMode, SObj, SObjForm, SStep, STuple, Span};
use clf_syntax::Name;
use sqlite_items::{Boxed, Items};
use std::alloc::{AllocError, Global};

/// An object of a form.
#[tactic(auto, using(celf_surface::specs::Surface::surface_laws))]
pub(crate) fn leaf(span: Span, form: SObjForm) -> SObj
    ensures { object_tree result ≡ form_tree form span }
{
    SObj { span, form }
}

/// A lambda.
#[tactic(auto, using(celf_surface::specs::Surface::surface_laws))]
pub(crate) fn lambda(
    alloc: Global,
    span: Span,
    mode: SMode,
    name: Option<Name>,
    body: SObj,
) -> Result<SObj, AllocError>
    ensures { IfOk result (λ o. object_tree o ≡ lambda_of span mode name (object_tree body)) }
{
    let body = Boxed::new(alloc, body)?;
    Ok(leaf(span, SObjForm::Lam { mode, name, body }))
}

/// A head with its arguments; without any it is the head.
#[tactic(auto, using(celf_surface::specs::Surface::surface_laws))]
pub(crate) fn applied(
    alloc: Global,
    span: Span,
    head: SObj,
    args: Items<SArg>,
) -> Result<SObj, AllocError>
    ensures { IfOk result (λ o. object_tree o ≡ applied_of span (object_tree head) (map argument_tree args)) }
{
    if args.is_empty() {
        return Ok(head);
    }
    let head = Boxed::new(alloc, head)?;
    Ok(leaf(span, SObjForm::App { head, args }))
}

/// A pair.
#[tactic(auto, using(celf_surface::specs::Surface::surface_laws))]
pub(crate) fn pair(span: Span, left: Boxed<SObj>, right: Boxed<SObj>) -> SObj
    ensures { object_tree result ≡ pair_of span (object_tree left) (object_tree right) }
{
    leaf(span, SObjForm::Pair { left, right })
}

/// An expression in braces.
#[tactic(auto, using(celf_surface::specs::Surface::surface_laws))]
pub(crate) fn braces(span: Span, expr: Boxed<SExpr>) -> SObj
    ensures { object_tree result ≡ braces_of span (expression_tree expr).0 (expression_tree expr).1 }
{
    leaf(span, SObjForm::Braces { expr })
}

/// A first projection.
#[tactic(auto, using(celf_surface::specs::Surface::surface_laws))]
pub(crate) fn first(alloc: Global, span: Span, body: SObj) -> Result<SObj, AllocError>
    ensures { IfOk result (λ o. object_tree o ≡ first_of span (object_tree body)) }
{
    let body = Boxed::new(alloc, body)?;
    Ok(leaf(span, SObjForm::First { body }))
}

/// A second projection.
#[tactic(auto, using(celf_surface::specs::Surface::surface_laws))]
pub(crate) fn second(alloc: Global, span: Span, body: SObj) -> Result<SObj, AllocError>
    ensures { IfOk result (λ o. object_tree o ≡ second_of span (object_tree body)) }
{
    let body = Boxed::new(alloc, body)?;
    Ok(leaf(span, SObjForm::Second { body }))
}

/// An expression.
#[tactic(auto, using(celf_surface::specs::Surface::surface_laws))]
pub(crate) fn expression(steps: Items<SStep>, tuple: STuple) -> SExpr
    ensures { expression_tree result ≡ (steps_of (map step_tree steps), tuple_tree tuple) }
{
    SExpr {
        steps,
        result: tuple,
    }
}
