//! Laws of what printed trees and lines mean, stated by functions that do nothing.
ghost use Rattle.celf_meaning.specs.Laws.{ChecksMeanThemselves, EntriesMeanThemselves, PlacesDoNotMatter, PrintableChecksReadBack, PrintableEntriesReadBack};

/// Over a well-formed signature, and for the whole calculus, the explicit reading of the tree that a well-formed entry
/// is printed as gives the entry, and that of the tree that a typed object and its well-formed type are printed as
/// gives both. The reading looks at no place.
pub fn printed_trees_mean_themselves()
    ensures places { PlacesDoNotMatter }
    ensures entries { EntriesMeanThemselves }
    ensures checks { ChecksMeanThemselves }
{}

/// So the line of a well-formed entry is one item, in one way, that declares the entry, and what is printed of a typed
/// object and its type is, after `#check`, one item that asks for both, wherever there is room enough for its nested
/// parts. Their names can be declared, their variables are numbered below 2 ^ 64, and an entry has fewer than 2 ^ 32
/// implicit arguments.
pub fn lines_read_back()
    ensures entries { PrintableEntriesReadBack }
    ensures checks { PrintableChecksReadBack }
{}
