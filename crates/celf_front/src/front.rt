//! A kind or a type with binders in front.
ghost use Rattle.std.specs.Prelude.{◌≡◌, ◌<◌, ◌++◌, ℕ, map, length, reverse, slice_index, ◌∷◌, [], IfOk, IfErr};
ghost use Rattle.clf_syntax.specs.Wide.{IsWant};
ghost use Rattle.clf_syntax.specs.PlainTypes.{plain_ty, plain_kind};
ghost use Rattle.clf_sig.specs.Signature.{plain_class};
ghost use Rattle.celf_front.specs.FrontHeads.{heads_by};
ghost use Rattle.celf_front.specs.Replaced.{replaced_type, replaced_kind};
ghost use Rattle.celf_front.specs.BinderTypes.{binder_type as type_of_binder, binder_types as types_of_binders};
ghost use Rattle.celf_front.specs.BinderTypes.{functions_to};
ghost use Rattle.celf_front.specs.UnderFront.{IsUnderFront};

use crate::heads::Front;
use crate::types::{front_arguments, front_type};
use clf_sig::Class;
use clf_syntax::{Kind, Mode, Shortage, Ty, Want};
use sqlite_items::{Boxed, Items};
use std::alloc::{AllocError, Global};

/// The class with binders in front. The first numbers of constants are those of the signature; past these binder `x`
/// has the constant `first + x` and the type `types[x]`. The order says which binder comes first.
pub fn under_front(
    alloc: Global,
    first: u32,
    order: &[u32],
    types: &[Ty],
    class: &Class,
) -> Result<Class, Want>
    requires { (k : ℕ) → k < length order.now → slice_index order.now k < length types.now }
    ensures under { IfOk result (λ answer.
        IsUnderFront first (map plain_ty types.now) order.now (plain_class class.now) (plain_class answer)) }
    ensures wide { IfErr result IsWant }
{
    match class_under(alloc, first, order, types, class) {
        Ok(answer) => Ok(answer),
        Err(short) => Err(short.want(alloc)),
    }
}

fn class_under(
    alloc: Global,
    first: u32,
    order: &[u32],
    types: &[Ty],
    class: &Class,
) -> Result<Class, Shortage>
    requires { (k : ℕ) → k < length order.now → slice_index order.now k < length types.now }
    ensures { IfOk result (λ answer.
        IsUnderFront first (map plain_ty types.now) order.now (plain_class class.now) (plain_class answer)) }
{
    let binders = newest_first(alloc, order)?;
    let front = Front {
        first,
        binders: binders.as_slice(),
    };
    match class {
        Class::Family(kind) => Ok(Class::Family(kind_under(alloc, &front, types, kind)?)),
        Class::Constant(ty) => Ok(Class::Constant(type_under(alloc, &front, types, ty)?)),
    }
}

fn newest_first(alloc: Global, order: &[u32]) -> Result<Vec<u32>, AllocError>
    ensures { IfOk result (λ v. v.items ≡ reverse order.now) }
{
    let mut binders = Vec::from_slice(alloc, order)?;
    binders.reverse();
    Ok(binders)
}

/// The binders' types as functions to the type.
fn type_under(alloc: Global, front: &Front<'_>, types: &[Ty], ty: &Ty) -> Result<Ty, Shortage>
    requires { (k : ℕ) → k < length front.now.binders.now
        → slice_index front.now.binders.now k < length types.now }
    ensures { IfOk result (λ t. plain_ty t
        ≡ functions_to (types_of_binders front.now.first (map plain_ty types.now) front.now.binders.now)
        (replaced_type (heads_by front.now) 0 (plain_ty ty.now))) }
{
    let mut binders = binder_types(alloc, front, types)?;
    let mut under = front_type(alloc, ty, front, 0)?;
    while let Some(domain) = binders.pop() {
        under = function(alloc, domain, under)?;
    }
    Ok(under)
}

#[tactic(auto, using(clf_syntax::specs::PlainTypes::plain_type_laws))]
fn function(alloc: Global, dom: Ty, cod: Ty) -> Result<Ty, AllocError>
    ensures { IfOk result (λ t. plain_ty t ≡ functions_to (plain_ty dom ∷ []) (plain_ty cod)) }
{
    let dom = Boxed::new(alloc, dom)?;
    Ok(Ty::Fun {
        mode: Mode::Persistent,
        dom,
        cod: Boxed::new(alloc, cod)?,
    })
}

/// The binders' types as arguments before those of the kind.
fn kind_under(alloc: Global, front: &Front<'_>, types: &[Ty], kind: &Kind) -> Result<Kind, Shortage>
    requires { (k : ℕ) → k < length front.now.binders.now
        → slice_index front.now.binders.now k < length types.now }
    ensures { IfOk result (λ k. plain_kind k
        ≡ types_of_binders front.now.first (map plain_ty types.now) front.now.binders.now
        ++ replaced_kind (heads_by front.now) 0 (plain_kind kind.now)) }
{
    let mut args = binder_types(alloc, front, types)?;
    args.append(front_arguments(alloc, kind.args.as_slice(), front, 0)?)?;
    Ok(Kind { args })
}

/// The types of the binders, the oldest first.
fn binder_types(alloc: Global, front: &Front<'_>, types: &[Ty]) -> Result<Items<Ty>, Shortage>
    requires { (k : ℕ) → k < length front.now.binders.now
        → slice_index front.now.binders.now k < length types.now }
    ensures { IfOk result (λ ts. map plain_ty ts
        ≡ types_of_binders front.now.first (map plain_ty types.now) front.now.binders.now) }
{
    let mut made = Items::new(alloc);
    for number in (0..front.binders.len()).rev() {
        let earlier = Front {
            first: front.first,
            binders: &front.binders[number + 1..],
        };
        made.push(binder_type(alloc, &earlier, types, front.binders[number])?)?;
    }
    Ok(made)
}

/// The type of a binder after earlier ones.
fn binder_type(
    alloc: Global,
    earlier: &Front<'_>,
    types: &[Ty],
    binder: u32,
) -> Result<Ty, Shortage>
    requires { binder < length types.now }
    ensures { IfOk result (λ t. plain_ty t
        ≡ type_of_binder earlier.now.first (map plain_ty types.now) binder earlier.now.binders.now) }
{
    front_type(alloc, &types[binder as usize], earlier, 0)
}
