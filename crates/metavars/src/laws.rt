//! Laws of new metavariables and of stores, stated by functions that do nothing.
ghost use Rattle.metavars.specs.Laws.{FreshIsTyped, StoreIsTyped};

/// The object made of new metavariables has its simple type.
pub fn new_metavariables()
    ensures { FreshIsTyped }
{}

/// The simple types that a store has type it.
pub fn typed_stores()
    ensures { StoreIsTyped }
{}
