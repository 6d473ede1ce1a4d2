//! The implicit variables of an item: which of them its text determines, in what order, and their simple types.
#![tactic(auto)]

mod appearance;
mod applied;
mod binders;
mod heads;
mod items;
mod laws;
mod notes;
mod objects;
mod rounds;
mod types;
mod variable;

pub use appearance::by_appearance;
pub use laws::{least_closed, worked_orders, worked_variables};
pub use rounds::implicit_variables;
pub use variable::{Argument, Implicit, Variable};
