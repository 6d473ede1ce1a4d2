//! What is wanted at the places of an item: simple types, local binders, and heads with their simple types.
#![tactic(auto)]

mod heads;
mod in_box;
mod locals;
mod parts;
mod simple;

pub use heads::{arguments_of, family_of, head_of};
pub use in_box::boxed;
pub use locals::{Found, Locals};
pub use parts::{
    FunctionParts, NextPart, PairParts, behind_act, behind_spine, entries_at, function_parts,
    marked, next_part, pair_parts,
};
pub use simple::{bound_simple, bound_simples, simple_of};
