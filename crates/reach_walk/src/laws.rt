//! Laws of the answers, stated by functions that do nothing.
ghost use Rattle.reach_walk.specs.Laws.{AnswersReach, ClashHasNone, NothingFound, PatternMentions, PruneNarrows, SameNarrows};

/// Where the equation reaches, and where it does not.
pub fn answering()
    ensures answers_reach { AnswersReach }
    ensures nothing_found { NothingFound }
{}

/// What the answers give the steps of unification.
pub fn stepping()
    ensures clash_has_none { ClashHasNone }
    ensures prune_narrows { PruneNarrows }
    ensures same_narrows { SameNarrows }
    ensures pattern_mentions { PatternMentions }
{}
