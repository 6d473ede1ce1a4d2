//! The printed text of a run of steps, and that it reads back.
#![tactic(auto)]

mod laws;
mod text;

pub use laws::run_lines_read_back;
pub use text::run_text;
