//! Laws of trees, stated by functions that do nothing.
ghost use Rattle.tree_laws.specs.Laws.{LooksAtOccurring, OccursBefore, PlainIsOneToOne};

/// Different trees in memory have different plain trees, so what is said of the plain tree of a tree is said of that
/// tree alone.
pub fn one_to_one()
    ensures { PlainIsOneToOne }
{}

/// Renamings of types, telescopes and kinds look at the variables that occur alone, and what occurs after one comes
/// from what occurred before.
pub fn occurrence()
    ensures looks { LooksAtOccurring }
    ensures comes { OccursBefore }
{}
