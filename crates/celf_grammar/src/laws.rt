//! Laws of the grammar, stated by functions that do nothing.
ghost use Rattle.celf_grammar.specs.Faults.{BehindIsOne, TreeInAnyRoom, TreeIsOne, VerdictIsOnly, VerdictIsTrue};

/// What the machine says of the tokens from a state on is what the grammar says of them: an item stands there, or a
/// token is the first with which no item goes on, or opens the first part for which there is no room, or the tokens end
/// before the item does.
#[tactic(auto, using(crate::proofs::Verdicts::verdict_laws))]
pub fn exact_verdicts()
    ensures truth { VerdictIsTrue }
    ensures only { VerdictIsOnly }
{}

/// An item is read in one way: from a state on it has one tree, and the same is left after it, however much room there
/// is.
#[tactic(auto, using(crate::proofs::MoreRoom::reading_laws))]
pub fn one_reading()
    ensures tree { TreeIsOne }
    ensures behind { BehindIsOne }
    ensures room { TreeInAnyRoom }
{}
