//! Laws of joined trees, stated by functions that do nothing.
ghost use Rattle.joined_laws.specs.Laws.{JoinedInstances, JoinedKeepsTypes, JoinedPut, JoinedTypesLaws, JoinedUnder, RenamingKeepsJoined, Respects};

/// To be joined is an equivalence, also of types, telescopes, kinds and lists. Renamings keep it, and joined trees have
/// the same simple types.
pub fn joined()
    ensures equivalence { JoinedTypesLaws }
    ensures renamed { RenamingKeepsJoined }
    ensures typed { JoinedKeepsTypes }
{}

/// Joined objects, put for the heads of joined trees, give joined trees. Which environments put joined objects.
pub fn joined_results()
    ensures results { Respects }
    ensures put { JoinedPut }
    ensures under { JoinedUnder }
    ensures instances { JoinedInstances }
{}
