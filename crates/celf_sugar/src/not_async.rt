//! Synchronous types where none may stand.
ghost use Rattle.std.specs.Prelude.{◌≡◌, true};
ghost use Rattle.celf_surface.specs.Surface.{surface};
ghost use Rattle.celf_sugar.specs.Earliest.{earliest};
ghost use Rattle.celf_sugar.specs.Faults.{start, misplaced as misplaced_at, not_async as not_asyncs};

use crate::earliest::sooner;
use celf_surface::{Arrow, SType, STypeForm, Span};

/// The first synchronous type in a type that stands where none may. `may` tells that one may stand here.
#[cycle(not_async)]
#[tactic(auto, using(crate::specs::SugarLists::written_type_laws, crate::proofs::EarliestLaws::earliest_laws))]
pub fn not_async(ty: &SType, may: bool) -> Option<Span>
    ensures { result ≡ earliest start (not_asyncs may (surface ty.now)) }
{
    match &ty.form {
        STypeForm::Pi { name: _, dom, rest } => {
            sooner(not_async(dom.get(), false), not_async(rest.get(), false))
        }
        STypeForm::Exists { name: _, dom, rest } => {
            let inside = sooner(not_async(dom.get(), false), not_async(rest.get(), true));
            sooner(misplaced(ty.span, may), inside)
        }
        STypeForm::Arrow { arrow, left, right } => {
            let left = not_async(left.get(), matches!(arrow, Arrow::Lolli));
            let right = not_async(right.get(), matches!(arrow, Arrow::BackLolli));
            sooner(left, right)
        }
        STypeForm::Tensor { left, right } => {
            let inside = sooner(
                not_async(left.get(), true),
                not_async_in_factors(right.get()),
            );
            sooner(misplaced(ty.span, may), inside)
        }
        STypeForm::Marked { mode: _, body } => {
            sooner(misplaced(ty.span, may), not_async(body.get(), false))
        }
        STypeForm::With { left, right } => {
            sooner(not_async(left.get(), false), not_async(right.get(), false))
        }
        STypeForm::TypeWord | STypeForm::Family { .. } | STypeForm::Top => None,
        STypeForm::One => misplaced(ty.span, may),
        STypeForm::Braces { body } => not_async(body.get(), true),
    }
}

/// The same in the later factors of a product, which may be many.
#[cycle(not_async)]
#[tactic(auto, using(crate::specs::SugarLists::written_type_laws, crate::proofs::EarliestLaws::earliest_laws))]
fn not_async_in_factors(factors: &SType) -> Option<Span>
    ensures { result ≡ earliest start (not_asyncs true (surface factors.now)) }
{
    let mut found = None;
    let mut rest = factors;
    while let STypeForm::Tensor { left, right } = &rest.form {
        found = sooner(found, not_async(left.get(), true));
        rest = right.get();
    }
    sooner(found, not_async(rest, true))
}

/// The span of a synchronous type, unless one may stand there.
fn misplaced(span: Span, may: bool) -> Option<Span>
    ensures { result ≡ earliest start (misplaced_at may span) }
{
    if may { None } else { Some(span) }
}
