//! Answers to the items of a file, from its bytes to the bytes printed.
#![tactic(auto)]

mod answer;
mod fault;
mod found;
mod judged;
mod laws;
mod name;
mod options;
mod status;
mod top;
mod turn;
mod words;

pub use answer::answer_item;
pub use laws::{each_task_has_a_reply, one_transcript, printed_lines_read_back};
pub use options::Options;
pub use status::Status;
pub use top::run;
