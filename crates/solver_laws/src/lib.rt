//! Laws that the loop of unification rests on.
#![tactic(auto)]

mod laws;

pub use laws::{steps, work};
