//! Elaborations: that each well-formed one solves what is gathered, and is an instance of what unification makes of it.
#![tactic(auto)]

mod laws;

pub use laws::{declarations, solutions};
