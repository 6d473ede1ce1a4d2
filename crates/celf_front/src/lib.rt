//! The binders in front of a declaration: their list, their order, and the kind or type with them in front.
#![tactic(auto)]

mod circle;
mod front;
mod fronted;
mod heads;
mod listed;
mod mentions;
mod metavariables;
mod needs;
mod objects;
mod occurring;
mod occurring_types;
mod placing;
mod types;

pub use front::under_front;
pub use fronted::{Fronted, front_of};
pub use mentions::needs_of;
pub use metavariables::{list_of_class, list_of_type};
pub use needs::Needs;
pub use placing::{Placing, place};
