//! Answers to items.
ghost use Rattle.std.specs.Prelude.{◌≡◌, IfOk, IfErr, OnErr};
ghost use Rattle.clf_sig.specs.Signature.{plain_signature};
ghost use Rattle.celf_surface.specs.Surface.{written_item};
ghost use Rattle.celf_parser.specs.Place.{HasDeclarableName};
ghost use Rattle.celf_sugar.specs.Plain.{desugared_item};
ghost use Rattle.clf_rules.specs.WellFormed.{WellFormedSignature};
ghost use Rattle.celf_replies.specs.Reply.{plain_reply, refused};
ghost use Rattle.celf_run.specs.Allowed.{Allowed, PlainAllowed, NamePasses, holding};
ghost use Rattle.celf_run.specs.Answering.{MayBeDeclared, unknown_refusal};
ghost use Rattle.celf_run.specs.Source.{written};
ghost use Rattle.clf_syntax.specs.Wide.{IsWant};

use crate::fault::sugar_refusal;
use crate::found::answer_found;
use crate::judged::answer_core;
use crate::name::barred_name;
use crate::options::Options;
use celf_explicit::explicit;
use celf_replies::{Reply, Why};
use celf_sugar::{Plain, desugar};
use celf_surface::Item;
use celf_unknown::UnknownName;
use clf_sig::Signature;
use clf_syntax::{OrWide, Want};
use std::alloc::Global;

/// Answers one item. Only an accepted declaration changes the signature.
///
/// The signature is well formed, and stays so. The name of a declaration is one that may be declared, as in every item
/// of a text.
pub fn answer_item(
    alloc: Global,
    sig: &mut Signature,
    options: &Options,
    item: &Item,
) -> Result<Reply, Want>
    requires formed { WellFormedSignature (plain_signature sig.old) }
    requires name { HasDeclarableName (written_item item.now).body }
    ensures allowed { IfOk result (λ reply.
        Allowed options.now (holding (plain_signature sig.old)) (written (written_item item.now))
        (plain_reply reply) (holding (plain_signature sig.new))) }
    ensures formed { WellFormedSignature (plain_signature sig.new) }
    ensures unchanged { OnErr result (sig.new ≡ sig.old) }
    ensures wide { IfErr result IsWant }
{
    match desugar(alloc, item) {
        Ok(plain) => {
            let reply = answer_plain(alloc, sig, options, &plain);
            // By a call: dropped at the end, each form of its trees would be a case of this function.
            drop(plain);
            reply
        }
        Err(fault) => sugar_refusal(fault),
    }
}

/// Answers an item without sugar.
fn answer_plain(
    alloc: Global,
    sig: &mut Signature,
    options: &Options,
    plain: &Plain,
) -> Result<Reply, Want>
    requires formed { WellFormedSignature (plain_signature sig.old) }
    requires name { MayBeDeclared (desugared_item plain.now) }
    ensures allowed { IfOk result (λ reply.
        PlainAllowed options.now (holding (plain_signature sig.old)) (desugared_item plain.now)
        (plain_reply reply) (holding (plain_signature sig.new))) }
    ensures formed { WellFormedSignature (plain_signature sig.new) }
    ensures unchanged { OnErr result (sig.new ≡ sig.old) }
    ensures wide { IfErr result IsWant }
{
    let at = plain.span.start;
    match barred_name(alloc, sig, plain) {
        Ok(None) => answer_named(alloc, sig, options, plain),
        Ok(Some(why)) => Ok(Reply::Refused { at, why }),
        Err(_) => Err(Want::NoMemory),
    }
}

/// Answers an item against whose name nothing stands.
fn answer_named(
    alloc: Global,
    sig: &mut Signature,
    options: &Options,
    plain: &Plain,
) -> Result<Reply, Want>
    requires formed { WellFormedSignature (plain_signature sig.old) }
    requires name { MayBeDeclared (desugared_item plain.now) }
    requires passes { NamePasses (plain_signature sig.old) (desugared_item plain.now) }
    ensures allowed { IfOk result (λ reply.
        PlainAllowed options.now (holding (plain_signature sig.old)) (desugared_item plain.now)
        (plain_reply reply) (holding (plain_signature sig.new))) }
    ensures formed { WellFormedSignature (plain_signature sig.new) }
    ensures unchanged { OnErr result (sig.new ≡ sig.old) }
    ensures wide { IfErr result IsWant }
{
    let at = plain.span.start;
    match explicit(alloc, sig, plain) {
        Ok(Some(core)) => answer_core(alloc, sig, options, at, core),
        Ok(None) => answer_found(alloc, sig, options, plain),
        Err(OrWide::Fault(unknown)) => Ok(unknown_name(unknown)),
        Err(OrWide::NoMemory) => Err(Want::NoMemory),
        Err(OrWide::TooFar(wide)) => Err(Want::TooFar(wide)),
    }
}

/// The refusal of an item that has a name without a meaning.
fn unknown_name(unknown: UnknownName) -> Reply
    ensures { plain_reply result ≡ refused (unknown_refusal unknown.span.start unknown.name) }
{
    let UnknownName { name, span } = unknown;
    Reply::Refused {
        at: span.start,
        why: Why::UnknownName(name),
    }
}
