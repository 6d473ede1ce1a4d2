//! Items in which something is not written.
ghost use Rattle.std.specs.Prelude.{◌≡◌, None, IfOk, IfErr, OnErr};
ghost use Rattle.clf_sig.specs.Signature.{plain_signature};
ghost use Rattle.clf_syntax.specs.Wide.{IsWant};
ghost use Rattle.clf_rules.specs.WellFormed.{WellFormedSignature};
ghost use Rattle.celf_sugar.specs.Plain.{desugared_item};
ghost use Rattle.celf_unknown.specs.Unknown.{first_unknown};
ghost use Rattle.celf_replies.specs.Reply.{plain_why, plain_reply};
ghost use Rattle.celf_run.specs.Allowed.{HasHidden, NamePasses, PlainAllowed, holding};
ghost use Rattle.celf_run.specs.Answering.{MayBeDeclared, refused_for, reply_of_found, why_of_found};

use crate::judged::answer_core;
use crate::options::Options;
use celf_reconstruct::reconstruct;
use celf_replies::{Reply, Why};
use celf_sugar::Plain;
use clf_sig::Signature;
use clf_syntax::{OrWide, Want};
use std::alloc::Global;

/// Answers an item in which something is not written, and whose names all have a meaning.
pub fn answer_found(
    alloc: Global,
    sig: &mut Signature,
    options: &Options,
    plain: &Plain,
) -> Result<Reply, Want>
    requires formed { WellFormedSignature (plain_signature sig.old) }
    requires name { MayBeDeclared (desugared_item plain.now) }
    requires passes { NamePasses (plain_signature sig.old) (desugared_item plain.now) }
    requires known { first_unknown (plain_signature sig.old) (desugared_item plain.now) ≡ None }
    requires hidden { HasHidden (plain_signature sig.old) (desugared_item plain.now) }
    ensures allowed { IfOk result (λ reply.
        PlainAllowed options.now (holding (plain_signature sig.old)) (desugared_item plain.now)
        (plain_reply reply) (holding (plain_signature sig.new))) }
    ensures formed { WellFormedSignature (plain_signature sig.new) }
    ensures unchanged { OnErr result (sig.new ≡ sig.old) }
    ensures wide { IfErr result IsWant }
{
    let at = plain.span.start;
    match reconstruct(alloc, sig, plain) {
        Ok(core) => match answer_core(alloc, sig, options, at, core) {
            Ok(reply) => Ok(said_of_found(reply)),
            Err(want) => Err(want),
        },
        Err(OrWide::Fault(why)) => Ok(declined(at, why)),
        Err(OrWide::NoMemory) => Err(Want::NoMemory),
        Err(OrWide::TooFar(wide)) => Err(Want::TooFar(wide)),
    }
}

/// The refusal of an item that begins at this byte.
fn declined(at: u32, why: Why) -> Reply
    ensures { plain_reply result ≡ refused_for at (plain_why why) }
{
    Reply::Refused { at, why }
}

/// The reply, in which a refusal by the rules is said to be one of what was found.
fn said_of_found(reply: Reply) -> Reply
    ensures { plain_reply result ≡ reply_of_found (plain_reply reply) }
{
    match reply {
        Reply::Refused { at, why } => Reply::Refused {
            at,
            why: rejected(why),
        },
        other => other,
    }
}

fn rejected(why: Why) -> Why
    ensures { plain_why result ≡ why_of_found (plain_why why) }
{
    match why {
        Why::Kernel(refusal) => Why::Rejected(refusal),
        other => other,
    }
}
