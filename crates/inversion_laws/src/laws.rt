//! Laws of inversion, stated by functions that do nothing.
ghost use Rattle.inversion_laws.specs.Laws.{CircleSolved, DistinctAreLocals, InvertedIsTyped, SolutionIsForced, SolutionIsFound, TwoTypes};

/// An equation of a metavariable on distinct locals has one solution, and what does not hold.
pub fn inverting()
    ensures forced { SolutionIsForced }
    ensures found { SolutionIsFound }
    ensures typed { InvertedIsTyped }
    ensures distinct { DistinctAreLocals }
    ensures two_types { TwoTypes }
    ensures circle_solved { CircleSolved }
{}
