//! Products, whose factors are read one after another and nested at the end.
ghost use Rattle.std.specs.Prelude.{◌≡◌, IfOk, map};
ghost use Rattle.celf_surface.specs.Surface.{surface};
ghost use Rattle.celf_cursor.specs.Cursor.{state_of};
ghost use Rattle.celf_parser.specs.Product.{factor_of, product_of};

use crate::form::tensor;
use celf_cursor::{Cursor, span_from};
use celf_surface::SType;
use sqlite_items::{Boxed, Items};
use std::alloc::{AllocError, Global};

/// A factor with a `*` after it, and where it begins.
#[derive(Drop)]
pub struct Factor {
    pub at: Cursor,
    pub ty: Boxed<SType>,
}

/// The product of factors and of the last one, after which the product ends.
#[tactic(auto, using(crate::proofs::Products::product_steps))]
pub fn product(
    alloc: Global,
    bytes: &[u8],
    factors: Items<Factor>,
    last: Boxed<SType>,
    behind: Cursor,
) -> Result<Boxed<SType>, AllocError>
    ensures { IfOk result (λ t.
        surface t ≡ product_of (map (factor_of bytes.now) factors) (surface last) (state_of bytes.now behind)) }
{
    let mut left = factors;
    let mut product = last;
    while let Some(factor) = left.pop() {
        let span = span_from(bytes, factor.at, behind);
        product = tensor(alloc, span, factor.ty, product)?;
    }
    Ok(product)
}
