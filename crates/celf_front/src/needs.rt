//! Which binder's type mentions which.
ghost use Rattle.std.specs.Prelude.{◌≡◌};
ghost use Rattle.celf_front.specs.Needs as spec;

use sqlite_items::Items;

/// Which binder's type mentions which: a row for each binder, in the order of their list, with a flag for each binder.
#[derive(Drop)]
pub struct Needs {
    pub rows: Items<Items<bool>>,
}

impl Needs {
    /// Whether the type of a binder mentions another one, or itself.
    pub fn mentions(&self, binder: u32, other: u32) -> bool
        ensures { result ≡ spec.mentions self.now binder other }
    {
        match self.rows.get(binder as usize) {
            Some(row) => flag_of(row.as_slice(), other),
            None => false,
        }
    }
}

/// The flag at a place; none is set past the end.
pub fn flag_of(flags: &[bool], place: u32) -> bool
    ensures { result ≡ spec.flag flags.now place }
{
    match flags.get(place as usize) {
        Some(flag) => *flag,
        None => false,
    }
}
