//! What is without its sugar, by example.
ghost use Rattle.celf_surface.specs.declared.surface.Span.{Span};
ghost use Rattle.celf_sugar.specs.Worked.{WorkedTypes};

/// Each row of the table of sugar for types means what is worked out for it by hand.
pub fn worked_sugar()
    ensures { (s : Span) → WorkedTypes s }
{}
