//! What unification answers.
use celf_constraints::Equations;
use clf_syntax::Obj;

/// Two sides that differ, and how many locals and binders are around them.
#[derive(Drop)]
pub struct Clash {
    pub under: usize,
    pub left: Obj,
    pub right: Obj,
}

/// All equations are solved, or some are left, each of which is stuck, or they have no solution.
#[derive(Drop)]
pub enum Unified {
    Solved,
    Stuck(Equations),
    Clash(Clash),
}
