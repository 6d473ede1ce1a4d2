//! What the definition of the first unknown name comes to.
ghost use Rattle.celf_unknown.specs.Worked.{WorkedUnknown};
ghost use Rattle.celf_surface.specs.declared.surface.Span.{Span};

/// Some items lack the meanings that are worked out for them by hand.
pub fn worked_unknown()
    ensures { (s : Span) → WorkedUnknown s }
{}
