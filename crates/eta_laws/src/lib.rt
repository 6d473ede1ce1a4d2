//! Eta-long forms and their laws.
#![tactic(auto)]

mod laws;

pub use laws::eta_long;
