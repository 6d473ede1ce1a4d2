//! Solutions of metavariables: the list of what is added to a store, and all solutions put in.
#![tactic(auto)]

mod laws;

pub use laws::{growing, putting_in};
