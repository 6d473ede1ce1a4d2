//! Laws of runs, each stated by a function that does nothing.
ghost use Rattle.trace_runs.specs.Laws.{ExpressionBeginsWithRun, RunGivesExpression, RunIsOne, RunsAreDecided, RunsInTurn, RunsKeepStarts};

/// A run is the beginning of an expression, and a run goes on where another one ends.
#[tactic(auto, using(crate::proofs::RunLaws::run_laws))]
pub fn runs()
    ensures expression { RunGivesExpression }
    ensures begins { ExpressionBeginsWithRun }
    ensures in_turn { RunsInTurn }
{}

/// The steps from a state are a run to one state, from which a check may start, or one refusal says why they are none.
#[tactic(auto, using(crate::proofs::RunLaws::run_laws))]
pub fn decided_runs()
    ensures one { RunIsOne }
    ensures starts { RunsKeepStarts }
    ensures decided { RunsAreDecided }
{}
