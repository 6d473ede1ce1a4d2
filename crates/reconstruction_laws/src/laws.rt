//! Laws of the pieces of reconstruction, stated by functions that do nothing.
ghost use Rattle.reconstruction_laws.specs.Examples.{Worked};
ghost use Rattle.reconstruction_laws.specs.Laws.{DeclarationIsElaboration, ExplicitIsFilled, FamilyElaborationSolves};
ghost use Rattle.reconstruction_laws.specs.Laws.{FamilyElaborationsAreInstances, FamilyIsElaboration, FilledIsExplicit};
ghost use Rattle.reconstruction_laws.specs.Laws.{KindTreeConforms, ReadingsBecome, SolvedIsAllPutIn, TreeConforms};

/// Two readings of one text differ by their fillings alone.
pub fn readings()
    ensures { ReadingsBecome }
{}

/// The tree of a declaration is simply formed where one of its elaborations is well formed.
pub fn trees()
    ensures types { TreeConforms }
    ensures kinds { KindTreeConforms }
{}

/// What is found of a declaration, with its binders in front, is one of its elaborations.
pub fn found()
    ensures constants { DeclarationIsElaboration }
    ensures families { FamilyIsElaboration }
    ensures solved { SolvedIsAllPutIn }
{}

/// Well-formed elaborations of a family solve its equations, and are instances of its core.
pub fn families()
    ensures solves { FamilyElaborationSolves }
    ensures instances { FamilyElaborationsAreInstances }
{}

/// What is explicit has one reading with fillings, without any, and that is its core.
pub fn explicit()
    ensures filled { ExplicitIsFilled }
    ensures back { FilledIsExplicit }
{}

/// A declaration with something to be found, worked out by hand.
pub fn example()
    ensures { Worked }
{}
