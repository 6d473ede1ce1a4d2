//! The equations of a tree, solved, and the tree with all solutions put in.
#![tactic(auto)]

mod laws;
mod posing;
mod put;
mod scene;
mod settling;

pub use laws::{posed_and_settled, settled_is_formed};
pub use posing::pose;
pub use put::put_in;
pub use scene::{Found, Posed, Scene, Solved};
pub use settling::settle;
