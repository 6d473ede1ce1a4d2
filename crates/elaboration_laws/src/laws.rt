//! Laws of elaborations, stated by functions that do nothing.
ghost use Rattle.elaboration_laws.specs.General.{SolutionsAreInstances};
ghost use Rattle.elaboration_laws.specs.Laws.{ElaborationsAreInstances, WellFormedElaborationSolves};

/// What unification finds is most general.
pub fn solutions()
    ensures { SolutionsAreInstances }
{}

/// Well-formed elaborations of a declared type solve its equations, and are instances of its core.
pub fn declarations()
    ensures solves { WellFormedElaborationSolves }
    ensures instances { ElaborationsAreInstances }
{}
