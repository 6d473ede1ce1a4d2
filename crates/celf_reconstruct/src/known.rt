//! Implicit variables whose simple types are known.
ghost use Rattle.std.specs.Prelude.{◌≡◌};
ghost use Rattle.celf_reconstruct.specs.Known as spec;

use celf_implicit::Implicit;

/// Whether the simple types of all implicit variables are known.
pub fn are_known(variables: &[Implicit]) -> bool
    ensures { result ≡ spec.are_known variables.now }
{
    for variable in variables {
        if !is_known(variable) {
            return false;
        }
    }
    true
}

fn is_known(variable: &Implicit) -> bool
    ensures { result ≡ spec.is_known variable.now }
{
    variable.simple.is_some()
}
