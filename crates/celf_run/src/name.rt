//! What stands against the name of a declaration.
ghost use Rattle.std.specs.Prelude.{◌≡◌, IfOk, option_copied, option_map};
ghost use Rattle.clf_sig.specs.Signature.{plain_signature};
ghost use Rattle.celf_sugar.specs.Plain.{desugared_item};
ghost use Rattle.celf_replies.specs.Reply.{plain_why};
ghost use Rattle.celf_run.specs.Allowed.{declared_name as declared_name_of};
ghost use Rattle.celf_run.specs.Answering.{NameVerdict};

use celf_replies::Why;
use celf_sugar::{Plain, PlainBody};
use clf_sig::{MAX_ENTRIES, Signature};
use clf_syntax::Name;
use std::alloc::{AllocError, Global};

/// Why the name of an item may not be declared; none where it may be, or where the item declares none.
pub fn barred_name(alloc: Global, sig: &Signature, plain: &Plain) -> Result<Option<Why>, AllocError>
    ensures { IfOk result
        (λ why. NameVerdict (plain_signature sig.now) (desugared_item plain.now) (option_map plain_why why)) }
{
    let Some(name) = declared_name(plain) else {
        return Ok(None);
    };
    if sig.find(name.as_str()).is_some() {
        return Ok(Some(Why::Duplicate(name.copy(alloc)?)));
    }
    if sig.len() == MAX_ENTRIES {
        return Ok(Some(Why::Full));
    }
    Ok(None)
}

/// The name that an item declares.
fn declared_name(plain: &Plain) -> Option<&Name>
    ensures { option_copied result ≡ declared_name_of (desugared_item plain.now).body }
{
    match &plain.body {
        PlainBody::Declare { name, .. } => Some(name),
        PlainBody::Query { .. }
        | PlainBody::Trace { .. }
        | PlainBody::Equal { .. }
        | PlainBody::Check { .. } => None,
    }
}
