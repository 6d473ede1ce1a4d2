//! Laws of what conforms to simple types, stated by functions that do nothing.
ghost use Rattle.conform_laws.specs.Laws.{FitsGathers, GathersNothingMisfits};
ghost use Rattle.conform_laws.specs.Laws.{MisfitHasNoElaboration, MisfitHasNoFamilyElaboration};

/// Of a core that conforms something is gathered: so where nothing is, there is a misfit.
pub fn fitting()
    ensures gathers { FitsGathers }
    ensures misfits { GathersNothingMisfits }
{}

/// A declaration with a misfit has no well-formed elaboration.
pub fn misfits()
    ensures constants { MisfitHasNoElaboration }
    ensures families { MisfitHasNoFamilyElaboration }
{}
