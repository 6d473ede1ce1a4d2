//! Laws that the loop of unification rests on, stated by functions that do nothing.
ghost use Rattle.solver_laws.specs.Laws.{AssignIsAllowed, NarrowIsAllowed, PutInIsOpen, WorkAssigns, WorkBegins, WorkClashes, WorkEnds, WorkIsReduced, WorkNarrows, WorkReduces, WorkStarts, WorkTakes};

/// When a step may be taken, and what is put in after it.
pub fn steps()
    ensures assign_is_allowed { AssignIsAllowed }
    ensures narrow_is_allowed { NarrowIsAllowed }
    ensures put_in_is_open { PutInIsOpen }
{}

/// How the work goes on, and how it ends.
pub fn work()
    ensures starts { WorkStarts }
    ensures begins { WorkBegins }
    ensures takes { WorkTakes }
    ensures assigns { WorkAssigns }
    ensures narrows { WorkNarrows }
    ensures reduces { WorkReduces }
    ensures ends { WorkEnds }
    ensures clashes { WorkClashes }
    ensures is_reduced { WorkIsReduced }
{}
