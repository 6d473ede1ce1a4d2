//! Laws of unification in flat systems.
#![tactic(auto)]

mod laws;

pub use laws::flat;
