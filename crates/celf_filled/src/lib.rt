//! The reading of items with new metavariables where something is left to be found, and types made of simple types.
#![tactic(auto)]

mod headed;
mod heads;
mod items;
mod laws;
mod objects;
mod places;
mod scope;
mod trees;
mod typed;
mod types;

pub use items::{Filled, read_filled};
pub use laws::{made_types_are_formed, whole_is_read};
pub use typed::typed_from;
