//! Laws of unification, stated by functions that do nothing.
ghost use Rattle.unify_laws.specs.Laws.{AssignIsLighter, AssignKeeps, AssignProgresses, AssignSettles, GroundClashes, HeadClashes, InsideClashes, JoinedSolved, LamsFollow, NarrowIsLighter, NarrowProgresses, NeutralsClash, NoneBack, PairsFollow, PartsFollow, ProgressStarts, PruneKeeps, PutInFollows, SameKeeps};

/// What the steps that solve metavariables keep.
pub fn solving()
    ensures assign_keeps { AssignKeeps }
    ensures assign_settles { AssignSettles }
    ensures prune_keeps { PruneKeeps }
    ensures same_keeps { SameKeeps }
{}

/// What has no solution.
pub fn clashing()
    ensures head_clashes { HeadClashes }
    ensures inside_clashes { InsideClashes }
    ensures neutrals_clash { NeutralsClash }
    ensures ground_clashes { GroundClashes }
    ensures none_back { NoneBack }
{}

/// What follows from equations.
pub fn following()
    ensures lams_follow { LamsFollow }
    ensures pairs_follow { PairsFollow }
    ensures parts_follow { PartsFollow }
    ensures put_in_follows { PutInFollows }
    ensures joined_solved { JoinedSolved }
{}

/// The invariant holds at the start and goes on.
pub fn progressing()
    ensures progress_starts { ProgressStarts }
    ensures assign_progresses { AssignProgresses }
    ensures narrow_progresses { NarrowProgresses }
{}

/// Unification ends.
pub fn ending()
    ensures assign_is_lighter { AssignIsLighter }
    ensures narrow_is_lighter { NarrowIsLighter }
{}
