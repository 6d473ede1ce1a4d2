//! What the check of an object leaves of a holding, and which refusal comes first, as functions on plain trees; that
//! they agree with the rules.
#![tactic(auto)]

mod laws;

pub use laws::{decided, one_leftover};
