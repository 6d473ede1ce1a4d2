//! The word `type` where no kind ends.
ghost use Rattle.std.specs.Prelude.{◌≡◌, false};
ghost use Rattle.celf_surface.specs.Surface.{surface};
ghost use Rattle.celf_sugar.specs.Earliest.{earliest};
ghost use Rattle.celf_sugar.specs.Faults.{start, kind_places};

use crate::earliest::sooner;
use celf_surface::{Arrow, SType, STypeForm, Span};

/// The first word `type` of a type that stands elsewhere than at the end of a declaration's kind.
/// `ends` tells that the type ends a declaration's type, with no arrow before it but `->`, `<-` and `Pi`.
#[cycle(kind_place)]
#[tactic(auto, using(crate::specs::SugarLists::written_type_laws, crate::proofs::EarliestLaws::earliest_laws))]
pub fn kind_place(ty: &SType, ends: bool) -> Option<Span>
    ensures { result ≡ earliest start (kind_places ends (surface ty.now)) }
{
    match &ty.form {
        STypeForm::Pi { name: _, dom, rest } => {
            sooner(kind_place(dom.get(), false), kind_place(rest.get(), ends))
        }
        STypeForm::Exists { name: _, dom, rest } => {
            sooner(kind_place(dom.get(), false), kind_place(rest.get(), false))
        }
        STypeForm::Arrow { arrow, left, right } => {
            let left = kind_place(left.get(), ends && matches!(arrow, Arrow::Back));
            let right = kind_place(right.get(), ends && matches!(arrow, Arrow::To));
            sooner(left, right)
        }
        STypeForm::Tensor { left, right } => sooner(
            kind_place(left.get(), false),
            kind_place_in_factors(right.get()),
        ),
        STypeForm::Marked { mode: _, body } => kind_place(body.get(), false),
        STypeForm::With { left, right } => {
            sooner(
                kind_place(left.get(), false),
                kind_place(right.get(), false),
            )
        }
        STypeForm::TypeWord => if ends { None } else { Some(ty.span) },
        STypeForm::Family { .. } | STypeForm::Top | STypeForm::One => None,
        STypeForm::Braces { body } => kind_place(body.get(), false),
    }
}

/// The same in the later factors of a product, which may be many.
#[cycle(kind_place)]
#[tactic(auto, using(crate::specs::SugarLists::written_type_laws, crate::proofs::EarliestLaws::earliest_laws))]
fn kind_place_in_factors(factors: &SType) -> Option<Span>
    ensures { result ≡ earliest start (kind_places false (surface factors.now)) }
{
    let mut found = None;
    let mut rest = factors;
    while let STypeForm::Tensor { left, right } = &rest.form {
        found = sooner(found, kind_place(left.get(), false));
        rest = right.get();
    }
    sooner(found, kind_place(rest, false))
}
