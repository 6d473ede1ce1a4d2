//! Equations between objects that may have metavariables, and what a single one of them allows.
#![tactic(auto)]

mod blank;
mod equation;
mod eta_head;
mod locals;
mod long_forms;
mod mentioned;
mod places;
mod spine;
mod ways;

pub use blank::is_blank;
pub use equation::{Equation, Equations};
pub use mentioned::mentions;
pub use places::{Place, Places, read_in_scope, read_places, scope_of};
pub use ways::ends;
