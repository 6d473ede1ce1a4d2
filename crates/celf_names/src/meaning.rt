//! What a name means over a signature.
ghost use Rattle.std.specs.Prelude.{◌≡◌};
ghost use Rattle.clf_sig.specs.Signature.{plain_signature};
ghost use Rattle.celf_names.specs.Names as spec;

use clf_sig::{Class, Signature};

/// The family of a name.
pub fn family_named(sig: &Signature, name: &str) -> Option<u32>
    ensures { result ≡ spec.family_named (plain_signature sig.now) name.now }
{
    let place = sig.find(name)?;
    match &sig.entry(place)?.class {
        Class::Family(_) => Some(place),
        Class::Constant(_) => None,
    }
}

/// The constant of a name.
pub fn constant_named(sig: &Signature, name: &str) -> Option<u32>
    ensures { result ≡ spec.constant_named (plain_signature sig.now) name.now }
{
    let place = sig.find(name)?;
    match &sig.entry(place)?.class {
        Class::Family(_) => None,
        Class::Constant(_) => Some(place),
    }
}

/// Whether a name is that of an implicit variable, which begins with a capital letter.
pub fn begins_with_capital(name: &str) -> bool
    ensures { result ≡ spec.begins_with_capital name.now }
{
    match name.as_bytes().first() {
        Some(byte) => 65 <= *byte && *byte <= 90,
        None => false,
    }
}
