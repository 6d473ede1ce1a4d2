//! What is read, if it can be.
ghost use Rattle.std.specs.Prelude.{◌≡◌, IfOk, Ok};

use clf_syntax::Shortage;
use sqlite_items::Boxed;
use std::alloc::Global;

/// What has been read, in a box. In its box a tree is dropped by a call: dropped in place, each of its forms would be a
/// case of the function that reads on.
pub fn boxed<T: Drop>(
    alloc: Global,
    read: Result<Option<T>, Shortage>,
) -> Result<Option<Boxed<T>>, Shortage>
    ensures { IfOk result (λ b. read ≡ Ok b) }
{
    match read? {
        Some(tree) => Ok(Some(Boxed::new(alloc, tree)?)),
        None => Ok(None),
    }
}
