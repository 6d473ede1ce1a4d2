//! The persistent functions or arguments that a declaration's class begins with.
ghost use Rattle.std.specs.Prelude.{◌≡◌, ◌+◌, ◌-◌, ◌^◌, min, MatchOption};
ghost use Rattle.celf_sugar.specs.Plain.{desugared_type, class_of};
ghost use Rattle.celf_sugar.specs.Faults.{leading as leading_of};
ghost use Rattle.celf_sugar.specs.ClassLeading.{class_leading as class_leading_of};

use crate::plain::{PClass, PTy, PTyForm};
use clf_syntax::Mode;

/// How many arguments a family has, or how many persistent functions a constant's type begins with. The count stops at
/// the greatest `u64`.
#[tactic(auto, using(crate::specs::Plain::plain_laws, crate::proofs::LeadingLaws::leading_laws))]
pub fn class_leading(class: &PClass) -> u64
    ensures { result ≡ min (class_leading_of (class_of class.now)) (2 ^ 64 - 1) }
{
    match class {
        PClass::Family(tele) => tele.entries.len() as u64,
        PClass::Constant(ty) => leading(ty),
    }
}

fn leading(ty: &PTy) -> u64
    ensures { result ≡ min (leading_of (desugared_type ty.now)) (2 ^ 64 - 1) }
{
    let mut count: u64 = 0;
    let mut rest = ty;
    while let Some(next) = behind_persistent(rest) {
        count = count.saturating_add(1);
        rest = next;
    }
    count
}

/// The type after the persistent function that a type begins with.
#[tactic(auto, using(crate::specs::Plain::plain_laws))]
fn behind_persistent(ty: &PTy) -> Option<&PTy>
    ensures { MatchOption result (leading_of (desugared_type ty.now) ≡ 0)
        (λ next. leading_of (desugared_type ty.now) ≡ leading_of (desugared_type next.now) + 1) }
{
    match &ty.form {
        PTyForm::Fun {
            mode,
            name: _,
            dom: _,
            cod,
        } => match mode {
            Mode::Persistent => Some(cod.get()),
            Mode::Affine | Mode::Linear => None,
        },
        PTyForm::Family { .. } | PTyForm::With { .. } | PTyForm::Top | PTyForm::Monad { .. } => {
            None
        }
    }
}
