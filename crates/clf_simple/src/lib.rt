//! Simple typing, decided; and eta-long forms.
#![tactic(auto)]

mod expansion;
mod same;
mod scope;
mod typing;

pub use expansion::eta;
pub use typing::simply_typed;
