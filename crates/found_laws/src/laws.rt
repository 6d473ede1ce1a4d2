//! Laws of what is found of an item, and of what clashes, stated by functions that do nothing.
ghost use Rattle.found_laws.specs.Directives.{ClashHasNoDirective, FoundDirectiveIsMostGeneral};
ghost use Rattle.found_laws.specs.Laws.{ClashHasNoElaboration, ClashHasNoFamilyElaboration};
ghost use Rattle.found_laws.specs.Laws.{FoundFamilyIsMostGeneral, FoundIsMostGeneral};

/// Where what is gathered of a declaration clashes, it has no well-formed elaboration.
pub fn clashes()
    ensures constants { ClashHasNoElaboration }
    ensures families { ClashHasNoFamilyElaboration }
{}

/// Each well-formed elaboration of a declaration is an instance of what is found of it.
pub fn general()
    ensures constants { FoundIsMostGeneral }
    ensures families { FoundFamilyIsMostGeneral }
{}

/// A directive whose equations clash has no well-formed elaboration, and each is an instance of what is found.
pub fn directives()
    ensures clash { ClashHasNoDirective }
    ensures general { FoundDirectiveIsMostGeneral }
{}
