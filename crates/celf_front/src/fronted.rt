//! A kind or a type with its binders in front.
ghost use Rattle.std.specs.Prelude.{◌≡◌, ◌<◌, ℕ, length, map, slice_index, IfOk, IfErr};
ghost use Rattle.clf_syntax.specs.Wide.{IsWant};
ghost use Rattle.clf_syntax.specs.PlainTypes.{plain_ty};
ghost use Rattle.clf_sig.specs.Signature.{plain_class};
ghost use Rattle.celf_front.specs.Fronted.{IsFronted, at_places};

use crate::front::under_front;
use crate::mentions::needs_of;
use crate::placing::{Placing, place};
use clf_sig::Class;
use clf_syntax::{Ty, Want};
use sqlite_items::Items;
use std::alloc::{AllocError, Global};

/// What comes of binders in front.
#[derive(Drop)]
pub enum Fronted {
    /// The class with all of them in front.
    Under(Class),
    /// They have no order: the type of each of these mentions the next one, and that of the last one the first.
    Circle(Items<u32>),
}

/// The class with its binders in front, in the order that their types allow. The first numbers of constants are those
/// of the signature; past these binder `x` has the constant `first + x` and the type `types[x]`. The list of binders
/// says which one goes first where both may.
pub fn front_of(
    alloc: Global,
    first: u32,
    binders: &[u32],
    types: &[Ty],
    class: &Class,
) -> Result<Fronted, Want>
    requires { (k : ℕ) → k < length binders.now → slice_index binders.now k < length types.now }
    ensures fronted { IfOk result
        (IsFronted first (map plain_ty types.now) binders.now (plain_class class.now)) }
    ensures wide { IfErr result IsWant }
{
    let needs = needs_of(alloc, first, binders, types)?;
    match place(alloc, &needs)? {
        Placing::Order(order) => {
            let order = numbers_at(alloc, binders, order.as_slice())?;
            let class = under_front(alloc, first, order.as_slice(), types, class)?;
            Ok(Fronted::Under(class))
        }
        Placing::Circle(circle) => Ok(Fronted::Circle(numbers_at(
            alloc,
            binders,
            circle.as_slice(),
        )?)),
    }
}

/// The numbers of the binders at these places.
fn numbers_at(alloc: Global, binders: &[u32], places: &[u32]) -> Result<Items<u32>, AllocError>
    requires { (k : ℕ) → k < length places.now → slice_index places.now k < length binders.now }
    ensures { IfOk result (λ numbers. numbers ≡ at_places binders.now places.now) }
{
    let mut numbers = Items::new(alloc);
    for place in places {
        numbers.push(binders[*place as usize])?;
    }
    Ok(numbers)
}
