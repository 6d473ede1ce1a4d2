//! Numbers of variables under binders.
ghost use Rattle.std.specs.Prelude.{◌≡◌, ◌≤◌, ℕ, ◌+◌, min};

/// One more than the greatest number of a variable.
///
/// A number under binders may pass it. It is then kept as this one, which no variable has.
pub const BEYOND: u64 = 0x1_0000_0000;

/// A number under so many binders more.
pub fn under(number: u64, binders: usize) -> u64
    requires { number ≤ BEYOND }
    ensures within { result ≤ BEYOND }
    ensures same { (n : ℕ) → min n BEYOND ≡ number → min (n + binders) BEYOND ≡ result }
{
    if binders as u64 >= BEYOND - number {
        BEYOND
    } else {
        number + binders as u64
    }
}
