//! Laws of typing: what typed trees are, what they mention and use, and what their types are.
#![tactic(auto)]

mod laws;

pub use laws::{
    congruence, exchange, lost_types, mentions, one_type, simple_typing, splits, strengthening,
    used, weakening, worked_trees,
};
