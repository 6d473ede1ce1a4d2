//! Laws of the rules, each stated by a function that does nothing.
ghost use Rattle.clf_rules.specs.Laws.{EachFollows, EntriesWellFormed, Extended, LongerSignatures, MentionsNothingUnheld, NamesDiffer, WellFormedIsClean};

/// A well-formed signature grows by declarations that may follow it, and no two of its names are the same.
#[tactic(auto, using(crate::proofs::Signatures::signature_laws))]
pub fn well_formed_signatures()
    ensures extended { Extended }
    ensures each { EachFollows }
    ensures names { NamesDiffer }
    ensures entries { EntriesWellFormed }
{}

/// What holds over a signature holds over each longer one.
#[tactic(auto, using(crate::proofs::Signatures::signature_laws))]
pub fn longer_signatures()
    ensures { LongerSignatures }
{}

/// Linear and affine variables occur in no well-formed type.
#[tactic(auto, using(crate::proofs::Held::clean_laws))]
pub fn clean()
    ensures objects { MentionsNothingUnheld }
    ensures types { WellFormedIsClean }
{}
