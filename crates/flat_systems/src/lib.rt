//! Laws of flat systems in the work of unification.
#![tactic(auto)]

mod laws;

pub use laws::flat_systems;
