//! Laws of several calls of unification, of where solutions come from, and worked equations.
#![tactic(auto)]

mod laws;

pub use laws::{examples, in_turn, origins};
