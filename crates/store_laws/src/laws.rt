//! Laws of solutions, stated by functions that do nothing.
ghost use Rattle.store_laws.specs.Laws.{StoreGrows, StoreIsCut, StoreIsPutIn};

/// The solutions of a store may all be put in.
pub fn putting_in()
    ensures { StoreIsPutIn }
{}

/// A store stays one with what is added, and with what is taken back.
pub fn growing()
    ensures more { StoreGrows }
    ensures less { StoreIsCut }
{}
