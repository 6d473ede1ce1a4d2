//! Laws of flat systems in the work of unification, stated by functions that do nothing.
ghost use Rattle.flat_systems.specs.Laws.{FlatAssigns, FlatGrows, FlatIsPutIn, FlatNarrows, FlatParts, NothingFlatIsLeft};

/// Each step keeps a flat system flat, and nothing of it is left at the end.
pub fn flat_systems()
    ensures flat_is_put_in { FlatIsPutIn }
    ensures flat_assigns { FlatAssigns }
    ensures flat_narrows { FlatNarrows }
    ensures flat_parts { FlatParts }
    ensures flat_grows { FlatGrows }
    ensures nothing_flat_is_left { NothingFlatIsLeft }
{}
