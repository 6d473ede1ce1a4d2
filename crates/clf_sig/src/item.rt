//! The cores of items: what an item says once its sugar and its implicit parts are written out.
use crate::entry::Entry;
use clf_syntax::{Name, Obj, Tele, Ty};

/// An item's core.
#[derive(Drop)]
pub enum Core {
    /// A declaration of a family or a constant.
    Declare { name: Name, entry: Entry },
    /// A question for the objects of a type.
    Query { ty: Ty },
    /// A run from a telescope.
    Trace { tele: Tele },
    /// A question whether two objects of a type are equal.
    Equal { left: Obj, right: Obj, ty: Ty },
    /// A check of an object against a type.
    Check { obj: Obj, ty: Ty },
}
