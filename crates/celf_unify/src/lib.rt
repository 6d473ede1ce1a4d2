//! Unification: equations are solved as far as metavariables stand on distinct locals, and the others are left.
#![tactic(auto)]

mod answer;
mod apart;
mod examine;
mod gather;
mod invert;
mod narrow;
mod parts;
mod pass;
mod places;
mod put_in;
mod search;
mod side;
mod spines;
mod step;
mod verdict;
mod whole;

pub use answer::{Clash, Unified};
pub use whole::unify;
