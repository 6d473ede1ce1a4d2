//! Laws of what is found of an item, and of what clashes.
#![tactic(auto)]

mod laws;

pub use laws::{clashes, directives, general};
