//! Contexts, and which of their entries may still be used: holdings, and what the check of a part leaves of a row.
#![tactic(auto)]

mod context;
mod holding;
mod join;
mod laws;

pub use context::Ctx;
pub use holding::{Holding, NotHeld, State, take, weak};
pub use join::{Differ, Left, join_add, join_seq};
pub use laws::{rows_in_turn, rows_of_arguments, rows_of_pairs, rows_of_uses};
