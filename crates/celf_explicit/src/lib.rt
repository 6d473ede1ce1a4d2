//! The explicit reading: what plain items say over a signature, where they leave nothing to be found.
#![tactic(auto)]

mod items;
mod laws;
mod objects;
mod trees;
mod types;

pub use items::explicit;
pub use laws::{core_where_explicit, known_where_read, simple_type_of_core, worked_cores};
