//! Laws of what is gathered of an item: that it is typed, and that unification may begin with it.
#![tactic(auto)]

mod laws;

pub use laws::{gathered, kept, readings, started};
