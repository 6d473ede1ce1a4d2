//! Elaborations of items: what a text says with objects filled in where it leaves something to be found.
#![tactic(auto)]

mod laws;

pub use laws::order;
