//! Laws of types made of simple types: those read for implicit variables.
#![tactic(auto)]

mod laws;

pub use laws::{fresh, over_signature};
