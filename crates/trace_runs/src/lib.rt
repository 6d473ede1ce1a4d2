//! Runs: states, and steps that lead from one to the next.
#![tactic(auto)]

mod laws;
mod state;
mod step;

pub use laws::{decided_runs, runs};
pub use state::after;
pub use step::replay;
