//! Typing of the concurrent logical framework.
#![tactic(auto)]

mod check;
mod entry;
mod expression;
mod formation;
mod head;
mod judge;
mod object;
mod parts;
mod pattern;
mod putting;
mod refusal;
mod rows;
mod scope;
mod spine;
mod trail;
mod tuple;

pub use entry::{check_entry, check_kind, check_type};
pub use object::{check_object, check_run, infer};
pub use pattern::check_pattern;
pub use refusal::{Cause, Inferred, Refusal};
