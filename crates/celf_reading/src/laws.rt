//! What holds of the printed lines.

ghost use Rattle.celf_reading.specs.Lines.{CheckLinesAreSpelled, CheckLinesReadBack, EntryLinesAreSpelled, EntryLinesReadBack};

/// Over a well-formed signature, for the whole calculus, the line of a well-formed entry under a name that can be
/// declared spells the entry. Fewer than 2 ^ 32 of its arguments are implicit, and no part of it has 2 ^ 64 or more
/// variables bound around it.
pub fn entry_lines_are_spelled()
    ensures { EntryLinesAreSpelled }
{}

/// Over a well-formed signature, for the whole calculus, what is printed of an object and its type spells, after
/// `#check`, the question whether the object has the type. The type is well formed, the object has it by the rules, and
/// no part of both has
/// 2 ^ 64 or more variables bound around it.
pub fn check_lines_are_spelled()
    ensures { CheckLinesAreSpelled }
{}

/// Over a well-formed signature, for the whole calculus, the line of a well-formed entry under a name that can be
/// declared reads back, by the explicit reading, as that declaration. Fewer than 2 ^ 32 of its arguments are implicit,
/// and no part of it has 2 ^ 64 or more variables bound around it.
pub fn entry_lines_read_back()
    ensures { EntryLinesReadBack }
{}

/// Over a well-formed signature, for the whole calculus, what is printed of an object and its type reads back, after
/// `#check`, as the question whether this object has this type. The type is well formed, the object has it by the
/// rules, and no part of both has 2 ^ 64 or more variables bound around it.
pub fn check_lines_read_back()
    ensures { CheckLinesReadBack }
{}
