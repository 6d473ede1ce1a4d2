//! Trees up to exchange of independent steps.
#![tactic(auto)]

mod backtracking;
mod choice;
mod equality;
mod laws;
mod modes;
mod objects;
mod rights;
mod serving;
mod tables;

pub use equality::{equal, first_difference, independent, matching};
pub use laws::{exchange, matchings, matchings_by_places, outside_monads};
