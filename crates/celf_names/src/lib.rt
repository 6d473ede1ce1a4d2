//! What names mean over a signature, and the names that are bound around a part of an item.
#![tactic(auto)]

mod meaning;
mod scope;

pub use meaning::{begins_with_capital, constant_named, family_named};
pub use scope::{Scope, same_name};
