//! Items in which something is not written: what is found for it, and what they come to then.
#![tactic(auto)]

mod answered;
mod declared;
mod known;
mod left;
mod misfit;
mod naming;
mod read;
mod settled;
mod sides;
mod whole;

pub use whole::reconstruct;
