//! Whether an item's core conforms to simple types, and what is wrong with it at the first place where it does not.
#![tactic(auto)]

mod formation;
mod item;
mod known;
mod leaf;
mod misfit;
mod scope;
mod walk;

pub use item::first_misfit;
pub use misfit::Misfit;
