//! What one side of an equation, a metavariable on distinct locals, makes of the other side.
#![tactic(auto)]

mod laws;

pub use laws::{answering, stepping};
