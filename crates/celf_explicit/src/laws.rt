//! What holds of the definitions of the reading.
ghost use Rattle.celf_explicit.specs.Laws.{CoreWhereExplicit, KnownWhereRead, SimpleTypeOfCore};
ghost use Rattle.celf_explicit.specs.Examples.{WorkedCores};
ghost use Rattle.celf_surface.specs.declared.surface.Span.{Span};

/// An item has a core exactly where each of its names has a meaning and it is explicit.
pub fn core_where_explicit()
    ensures { CoreWhereExplicit }
{}

/// Where an item has a core, no name in it is without a meaning.
pub fn known_where_read()
    ensures { KnownWhereRead }
{}

/// What is left of a written type without its indices is the simple type of its core.
pub fn simple_type_of_core()
    ensures { SimpleTypeOfCore }
{}

/// Some items have the cores that are worked out for them by hand.
pub fn worked_cores()
    ensures { (s : Span) → WorkedCores s }
{}
