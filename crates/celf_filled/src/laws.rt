//! What holds of the walks over items.
ghost use Rattle.celf_filled.specs.FormedTypes.{MadeTypesAreFormed};
ghost use Rattle.celf_filled.specs.Laws.{WholeIsRead};

/// What is made of an item is a reading of it with new metavariables, where all that is left to be found was filled in.
pub fn whole_is_read()
    ensures { WholeIsRead }
{}

/// The type that is made of a simple type is simply formed, where its families have their arguments and the new
/// metavariables their simple types.
pub fn made_types_are_formed()
    ensures { MadeTypesAreFormed }
{}
