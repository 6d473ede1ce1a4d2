//! The grammar of the whole language, as relations between what is left of a text and the tree of what was read.
#![tactic(auto)]

mod laws;

pub use laws::{exact_verdicts, one_reading};
