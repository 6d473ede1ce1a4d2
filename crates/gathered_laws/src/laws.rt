//! Laws of gathered items, stated by functions that do nothing.
ghost use Rattle.gathered_laws.specs.Laws.{CoreStaysFormed, EquationsStayTyped, FormedCoreHasNoHole};
ghost use Rattle.gathered_laws.specs.Laws.{FormedTypeHasNoVariables, GatheredCoreIsTyped, GatheredPartsAreTyped};
ghost use Rattle.gathered_laws.specs.Laws.{NewTypesAreFinal, ReadingHasNoHole, StartIsFresh, StartIsStore, StoreTypesTheSame};

/// What is gathered of a core without holes is typed, and so is the core.
pub fn gathered()
    ensures parts { GatheredPartsAreTyped }
    ensures core { GatheredCoreIsTyped }
{}

/// A reading with new metavariables has no holes, and these have final results.
pub fn readings()
    ensures whole { ReadingHasNoHole }
    ensures results { NewTypesAreFinal }
{}

/// A store whose metavariables are all new is one in which what is gathered may be unified.
pub fn started()
    ensures same { StoreTypesTheSame }
    ensures store { StartIsStore }
    ensures fresh { StartIsFresh }
    ensures closed { FormedTypeHasNoVariables }
{}

/// What is simply formed has no holes, and stays so under a typed environment.
pub fn kept()
    ensures whole { FormedCoreHasNoHole }
    ensures core { CoreStaysFormed }
    ensures equations { EquationsStayTyped }
{}
