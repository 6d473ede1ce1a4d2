//! Whether modes are the same.
ghost use Rattle.std.specs.Prelude.{◌≡◌};
ghost use Rattle.clf_syntax.specs.Modes.{same_modes};

use clf_syntax::{Mode, is_same_mode};

#[tactic(auto, using(crate::proofs::ComparingLaws::mode_laws))]
pub fn are_same_modes(left: &[Mode], right: &[Mode]) -> bool
    ensures { result ≡ same_modes left.now right.now }
{
    if left.len() != right.len() {
        return false;
    }
    for i in 0..left.len() {
        if !is_same_mode(left[i], right[i]) {
            return false;
        }
    }
    true
}
