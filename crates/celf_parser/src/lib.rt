//! The items of a text in the whole language.
#![tactic(auto)]

mod arrow;
mod body;
mod bound;
mod fault;
mod form;
mod item;
mod leaf;
mod product;
mod types;

pub use fault::SyntaxFault;
pub use item::{NESTING, next_item};
