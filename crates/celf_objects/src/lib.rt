//! Objects, patterns and family names of a text, by recursive descent: a function for each production of the grammar.
#![tactic(auto)]

mod arguments;
mod atom;
mod binder;
mod expression;
mod kinds;
mod object;
mod pattern;
mod trees;
mod tuple;

pub use arguments::indices_at;
pub use atom::atom_at;
pub use binder::{binder_at, family_name_at, mark_at};
pub use object::{application_at, object_at};
pub use pattern::pattern_at;
