//! Laws of trees: a plain tree tells the tree in memory, and renaming looks at what occurs.
#![tactic(auto)]

mod laws;

pub use laws::{occurrence, one_to_one};
