//! The tests of the store of metavariables, through its public calls.
#![tactic(auto)]

#[cfg(test)]
mod store;
#[cfg(test)]
mod trees;
