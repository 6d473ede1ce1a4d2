//! Laws of what solves the equations of metavariables on distinct locals.
#![tactic(auto)]

mod laws;

pub use laws::inverting;
