//! Laws of rows with slack. The functions do nothing: their contracts are the laws.
ghost use Rattle.use_contexts.specs.Laws.{InTurn, InPairs, Apart, OfUses, OfNothing, OfScopes, OfAffineArguments, OfPersistentArguments};

/// A row that two checks in turn leave stands for exactly the parts that are shared between them.
pub fn rows_in_turn()
    ensures { InTurn }
{}

/// A row that the two checks of a pair leave stands for exactly the parts that suit both.
pub fn rows_of_pairs()
    ensures joined { InPairs }
    ensures apart { Apart }
{}

/// Rows at uses of variables, at what uses nothing or anything, and at the ends of scopes.
pub fn rows_of_uses()
    ensures used { OfUses }
    ensures idle { OfNothing }
    ensures scopes { OfScopes }
{}

/// Rows of arguments, by what their modes may use.
pub fn rows_of_arguments()
    ensures affine { OfAffineArguments }
    ensures persistent { OfPersistentArguments }
{}
