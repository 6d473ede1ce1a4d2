//! The first name of a plain item that has no meaning at its place.
#![tactic(auto)]

mod earliest;
mod fault;
mod laws;
mod unknown;

pub use fault::{UnknownName, unknown_fault};
pub use laws::worked_unknown;
pub use unknown::first_unknown;
