//! The rules of the calculus: typing, well-formed kinds, types and signatures, and why a part is refused; worked
//! judgments; laws.
#![tactic(auto)]

mod laws;
mod worked;

pub use laws::{clean, longer_signatures, well_formed_signatures};
pub use worked::worked_judgments;
