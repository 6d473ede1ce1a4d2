//! Laws of what conforms to simple types, and of what does not.
#![tactic(auto)]

mod laws;

pub use laws::{fitting, misfits};
