//! Metavariables and their solutions.
#![tactic(auto)]

mod fresh;
mod instance;
mod instantiate;
mod laws;
mod store;
mod tables;
mod types;
mod value;

pub use instance::Untyped;
pub use laws::{new_metavariables, typed_stores};
pub use store::{Store, StoreMark};
