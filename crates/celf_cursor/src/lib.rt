//! Where a reading of the grammar stands in a text, and the taking of its tokens.
#![tactic(auto)]

mod cursor;
mod kind;
mod sign;
mod stop;
mod word;

pub use cursor::{Cursor, cursor_at, end_part, kind_of_next, span_from};
pub use sign::{close, open, open_star, take};
pub use stop::{Stop, unexpected};
pub use word::{take_constant, take_directive, take_name, take_number, take_one};
