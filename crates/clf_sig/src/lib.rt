//! The signature: the list of the families and constants that are declared, oldest first, with distinct names.
#![tactic(auto)]

mod entry;
mod item;
mod signature;

pub use entry::{Class, Entry};
pub use item::Core;
pub use signature::{AddFault, MAX_ENTRIES, Signature};
