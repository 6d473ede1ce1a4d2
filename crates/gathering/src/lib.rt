//! Gathering: the equations that are left of the rules of typing where objects are not known yet.
#![tactic(auto)]

mod laws;

pub use laws::{gathered, instances, items, kept, settings, typing};
