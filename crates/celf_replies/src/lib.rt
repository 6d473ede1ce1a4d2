//! Replies to items, and their text.
#![tactic(auto)]

mod cause;
mod found;
mod reply;
mod text;

pub use reply::{Mismatch, Reply, Sides, Why};
pub use text::reply_text;
