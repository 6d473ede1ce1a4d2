//! Laws of exchange, stated by functions that do nothing.
ghost use Rattle.trace_equal.specs.Laws.{AllPlacesCover, FirstIsFound, FirstIsFoundUnderTables, IndependenceInWords, JoinedHasMatching, JoinedIsEquivalence, JoinedIsSameOutside, JoinedMatches, JoinedWithoutSteps, IsJoinedDecides};

/// Trees are joined exactly where they match, and without steps exactly where they are identical.
#[tactic(auto, using(crate::proofs::Joined::exchange_laws))]
pub fn exchange()
    ensures matching { JoinedMatches }
    ensures independence { IndependenceInWords }
    ensures equivalence { JoinedIsEquivalence }
    ensures stepless { JoinedWithoutSteps }
{}

/// Joined trees are the same outside of their monadic objects, which are joined.
#[tactic(auto, using(crate::proofs::Outside::outside_laws))]
pub fn outside_monads()
    ensures { JoinedIsSameOutside }
{}

/// Expressions are joined exactly where they have a matching, and the search finds the first one.
#[tactic(auto, using(crate::proofs::FirstMatching::matching_laws))]
pub fn matchings()
    ensures exists { JoinedHasMatching }
    ensures first { FirstIsFound }
    ensures joined { IsJoinedDecides }
{}

/// Under tables that number the variables, the search by places finds the first matching too, and all places are
/// candidates.
#[tactic(auto, using(crate::proofs::Ids::table_laws))]
pub fn matchings_by_places()
    ensures found { FirstIsFoundUnderTables }
    ensures all { AllPlacesCover }
{}
