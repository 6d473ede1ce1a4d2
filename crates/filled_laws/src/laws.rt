//! Laws of types made of simple types, stated by functions that do nothing.
ghost use Rattle.filled_laws.specs.Laws.{DeterminedHaveFamilies, FillingsHaveFamilies, FormedTypesHaveIndices};
ghost use Rattle.filled_laws.specs.Laws.{FreshTypesAreRead, NewHaveFamilies, NewInAreFinal, TracedHaveFamilies};
ghost use Rattle.filled_laws.specs.Laws.{TypesHaveErasures};

/// The types made of simple types may be those that are read for implicit variables, and their metavariables have final
/// results.
pub fn fresh()
    ensures results { NewInAreFinal }
    ensures erasures { TypesHaveErasures }
    ensures read { FreshTypesAreRead }
{}

/// The simple types of implicit variables and of metavariables have the families of the signature.
pub fn over_signature()
    ensures formed { FormedTypesHaveIndices }
    ensures determined { DeterminedHaveFamilies }
    ensures fresh { NewHaveFamilies }
    ensures filled { FillingsHaveFamilies }
    ensures traced { TracedHaveFamilies }
{}
