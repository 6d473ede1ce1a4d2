//! Where a type stands.
ghost use Rattle.std.specs.Prelude.{◌≡◌};
ghost use Rattle.clf_printer.specs.Text as spec;

/// How closely a place binds.
#[derive(Clone, Copy)]
pub enum Place {
    /// A whole type, or the right of an arrow.
    Whole,
    /// The left of an arrow, the right of `&`, or an entry of a telescope.
    Operand,
    /// The left of `&`.
    Factor,
}

/// Whether a function stands in parentheses there.
pub fn groups_function(place: Place) -> bool
    ensures { result ≡ spec.groups_function place }
{
    match place {
        Place::Whole => false,
        Place::Operand => true,
        Place::Factor => true,
    }
}

/// Whether a pair stands in parentheses there.
pub fn groups_pair(place: Place) -> bool
    ensures { result ≡ spec.groups_pair place }
{
    match place {
        Place::Whole => false,
        Place::Operand => false,
        Place::Factor => true,
    }
}
