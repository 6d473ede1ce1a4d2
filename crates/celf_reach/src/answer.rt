//! The answers.

use celf_constraints::Places;

/// What an equation allows, looked at from one of its sides.
#[derive(Drop)]
pub enum Reach<'a> {
    /// The side is no metavariable on distinct locals, or the other side is out of reach.
    No,
    /// No instantiation joins the sides.
    Clash,
    /// Both sides are the same metavariable: it keeps the places of the mask.
    Same { mask: Vec<bool> },
    /// Foreign locals are taken from another metavariable, which keeps the places of the mask.
    Prune { meta: u32, mask: Vec<bool> },
    /// The other side may be given to the metavariable, which stands on these places.
    Assign(Places<'a>),
}
