//! Laws of what is posed and settled, stated by functions that do nothing.
ghost use Rattle.celf_solve.specs.Laws.{PosedAndSettled, SettledIsFormed};

/// What is gathered of a tree and then settled is solved, or comes down to stuck equations, or has no solution.
pub fn posed_and_settled()
    ensures { PosedAndSettled }
{}

/// What is simply formed stays so with all solutions put in.
pub fn settled_is_formed()
    ensures { SettledIsFormed }
{}
