//! That printed lines read back: that of an entry, and that of an object and its type, for the whole calculus.
#![tactic(auto)]

mod laws;

pub use laws::{
    check_lines_are_spelled, check_lines_read_back, entry_lines_are_spelled, entry_lines_read_back,
};
