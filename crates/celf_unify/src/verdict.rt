//! What is judged of one equation.

use crate::step::Step;
use celf_constraints::Equation;

/// The equation comes down to its parts, the last one first; it is stuck; its sides clash; or it allows a step.
#[derive(Drop)]
pub enum Verdict {
    Parts(Vec<Equation>),
    Left,
    Clash,
    Step(Step),
}
