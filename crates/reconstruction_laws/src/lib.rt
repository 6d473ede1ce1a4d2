//! Laws that tie the pieces of reconstruction together.
#![tactic(auto)]

mod laws;

pub use laws::{example, explicit, families, found, readings, trees};
