//! The trees of the framework: kinds, types, objects and their parts, with names and the faults that every layer
//! shares.
#![tactic(auto)]

mod copy;
mod erasure;
mod fault;
mod identity;
mod laws;
mod modes;
mod name;
mod number;
mod occurs;
mod rename;
mod simple;
mod tree;
mod types;
mod word;

pub use erasure::erase;
pub use fault::{Or, OrWide, Shortage, TooFar, Want, Wide};
pub use identity::same;
pub use laws::renaming;
pub use modes::{Modes, is_same_mode};
pub use name::Name;
pub use occurs::{occurs_in_arguments, occurs_in_entries};
pub use rename::{Renaming, deeper};
pub use simple::copy_simples;
pub use tree::{
    Elim, Expr, Head, Kind, Mode, Neutral, Obj, Simple, SimpleEntry, Step, Tele, TeleEntry,
    TupleEntry, Ty,
};
pub use word::{
    all_digits, begins_word, goes_on, is_capital, is_digit, is_letter, is_name_byte, is_spelled,
    is_variable_word, name_byte_first,
};
