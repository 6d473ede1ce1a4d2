//! Laws of what the checks answer, each stated by a function that does nothing.
ghost use Rattle.clf_decision.specs.Laws.{EntriesAreDecided, ExpressionsAreDecided, InferredIsOne, KindsAreDecided, LeftoverIsOne, NeutralsAreDecided, ObjectsAreDecided, SlackIsIdle, TypesAreDecided};

/// What the rules leave of a holding is one.
pub fn one_leftover()
    ensures leftover { LeftoverIsOne }
    ensures inferred { InferredIsOne }
    ensures slack { SlackIsIdle }
{}

/// Typing and formation are decided, in words of the rules alone, and where they fail there is one refusal that
/// explains it.
pub fn decided()
    ensures objects { ObjectsAreDecided }
    ensures neutrals { NeutralsAreDecided }
    ensures expressions { ExpressionsAreDecided }
    ensures types { TypesAreDecided }
    ensures kinds { KindsAreDecided }
    ensures entries { EntriesAreDecided }
{}
