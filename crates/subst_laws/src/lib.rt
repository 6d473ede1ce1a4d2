//! Laws of substitution and instantiation over simply typed trees.
#![tactic(auto)]

mod laws;

pub use laws::{commuting, environments, instantiation, simple_types, under_binders};
