//! The tokens of a text.
#![tactic(auto)]

mod gap;
mod laws;
mod scan;
mod sign;
mod token;
mod word;

pub use laws::{longest_spelling_begins, worked_tokens};
pub use scan::next;
pub use token::{LexFault, Token, TokenKind};
