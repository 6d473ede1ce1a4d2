//! What printed trees and lines mean: the explicit reading of what a core is printed as is the core.
#![tactic(auto)]

mod laws;

pub use laws::{lines_read_back, printed_trees_mean_themselves};
