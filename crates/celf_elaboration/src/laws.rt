//! Laws of elaborations of items, stated by functions that do nothing.
ghost use Rattle.celf_elaboration.specs.Laws.{OrderIsOne};

/// The binders in front have at most one order.
pub fn order()
    ensures { OrderIsOne }
{}
