//! What printed lines spell: the one item that the line of a core is by the grammar, and the desugared tree that this
//! item has. Whole objects, types and kinds, with monads and indices; metavariables are left out, since no item has
//! any.
#![tactic(auto)]

mod laws;

pub use laws::{checks_are_spelled, entries_are_spelled, worked_trees};
