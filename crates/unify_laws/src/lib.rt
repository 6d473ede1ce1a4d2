//! Laws of unification: what its steps keep, what has no solution, and that it ends.
#![tactic(auto)]

mod laws;

pub use laws::{clashing, ending, following, progressing, solving};
