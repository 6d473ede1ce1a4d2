//! The earliest name.
ghost use Rattle.std.specs.Prelude.{◌≡◌, option_copied};
ghost use Rattle.celf_sugar.specs.Earliest.{sooner as sooner_of};
ghost use Rattle.celf_unknown.specs.Unknown.{place};

use celf_sugar::PName;

/// Of two names the one that begins earlier, and the first where they begin at one byte.
pub fn sooner<'a>(first: Option<&'a PName>, other: Option<&'a PName>) -> Option<&'a PName>
    ensures { option_copied result ≡ sooner_of place (option_copied first.entry) (option_copied other.entry) }
{
    match (first, other) {
        (None, other) => other,
        (Some(first), None) => Some(first),
        (Some(first), Some(other)) => {
            if other.span.start < first.span.start {
                Some(other)
            } else {
                Some(first)
            }
        }
    }
}
