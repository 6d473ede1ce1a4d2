//! Laws of rests while the store grows.
#![tactic(auto)]

mod laws;

pub use laws::rests;
