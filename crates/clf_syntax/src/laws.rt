//! Laws of renaming, stated by a function that does nothing.
ghost use Rattle.clf_syntax.specs.Laws.{RenamingAndOccurrence, RenamingsCompose, ShiftIsRenaming};

/// The shift is a renaming, renamings compose, and a renaming looks at the variables that occur alone.
pub fn renaming()
    ensures shift { ShiftIsRenaming }
    ensures compose { RenamingsCompose }
    ensures occurrence { RenamingAndOccurrence }
{}
