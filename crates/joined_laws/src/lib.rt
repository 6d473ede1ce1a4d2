//! Joined types, telescopes and kinds, and laws of joined trees under renaming and substitution.
#![tactic(auto)]

mod laws;

pub use laws::{joined, joined_results};
