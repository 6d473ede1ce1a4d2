//! What the printed lines spell.

ghost use Rattle.celf_spelling.specs.Laws.{ChecksAreSpelled, EntriesAreSpelled};
ghost use Rattle.celf_spelling.specs.Worked.{WorkedTrees};

/// The line of an entry is one item, in one way, wherever there is room for all parts that its tokens open. It has no
/// fault, and its desugared tree is the one that the entry is printed as: the name, the number of implicit arguments,
/// and the kind or type. The families and constants of the entry have names that can be declared, its variables are
/// numbered below 2 ^ 64, and it has fewer than 2 ^ 32 implicit arguments, and no more than persistent ones in front.
pub fn entries_are_spelled()
    ensures { EntriesAreSpelled }
{}

/// What is printed of an object under no binders and of a type is, after `#check`, one item in one way, wherever there
/// is room for all parts that its tokens open. It has no fault, and its desugared tree asks of the tree that the object
/// is printed as whether it has the type that the type is printed as. Families and constants have names that can be
/// declared, and variables are numbered below
/// 2 ^ 64.
pub fn checks_are_spelled()
    ensures { ChecksAreSpelled }
{}

/// Each form of an object, a type, a telescope and a kind is printed as the tree that is worked out for it by hand.
pub fn worked_trees()
    ensures { WorkedTrees }
{}
