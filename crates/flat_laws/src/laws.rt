//! Laws of flat systems, stated by functions that do nothing.
ghost use Rattle.flat_laws.specs.Laws.{FlatIsInverted, FlatIsNarrowed, FlatIsRenamed, FlatReaches};

/// In a flat system each metavariable is solved, and what the steps add is flat.
pub fn flat()
    ensures flat_reaches { FlatReaches }
    ensures flat_is_inverted { FlatIsInverted }
    ensures flat_is_narrowed { FlatIsNarrowed }
    ensures flat_is_renamed { FlatIsRenamed }
{}
