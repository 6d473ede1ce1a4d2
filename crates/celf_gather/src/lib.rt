//! The equations of an item: what has to hold of the objects that are filled in.
#![tactic(auto)]

mod expression;
mod formation;
mod head;
mod item;
mod known;
mod leaf;
mod locals;
mod object;
mod putting;
mod spine;
mod stop;
mod tuple;
mod walk;

pub use item::gather;
