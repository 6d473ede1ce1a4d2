//! Laws of binders in front, stated by functions that do nothing.
ghost use Rattle.front_laws.specs.Laws.{BindersHaveVariables, BindersStand};

/// Where a binder's type mentions neither itself nor a newer binder, its variable has the type that comes of it with
/// variables put for all binders.
pub fn front_variables()
    ensures { BindersHaveVariables }
{}

/// In the order that their types allow each binder has a variable, which is put for its constant and has the type that
/// comes of the binder's own.
pub fn front_in_order()
    ensures { BindersStand }
{}
