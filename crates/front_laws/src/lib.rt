//! Laws of binders in front.
#![tactic(auto)]

mod laws;

pub use laws::{front_in_order, front_variables};
