//! One turn of a run: what comes next in a text is answered, and the reply is written.
ghost use Rattle.std.specs.Prelude.{ℕ, ◌≡◌, ◌<◌, ◌≤◌, false, length, IfOk, IfErr, IfSome, IfNone, OnErr};
ghost use Rattle.clf_sig.specs.Signature.{plain_signature};
ghost use Rattle.celf_lexer.specs.Tokens.{size_limit};
ghost use Rattle.celf_source.specs.Count.{Rose};
ghost use Rattle.clf_rules.specs.WellFormed.{WellFormedSignature};
ghost use Rattle.celf_replies.specs.Reply.{plain_reply, is_refusal};
ghost use Rattle.clf_syntax.specs.Wide.{IsWant};
ghost use Rattle.celf_run.specs.Allowed.{holding};
ghost use Rattle.celf_run.specs.Source.{IsOver};
ghost use Rattle.celf_run.specs.Turning.{Answers, Writes, Turns, EndsWide, place_in, status_of, turn_behind};

use crate::answer::answer_item;
use crate::fault::syntax_refusal;
use crate::options::Options;
use crate::status::Status;
use celf_parser::next_item;
use celf_replies::{Reply, reply_text};
use celf_source::{Sink, WriteAllFault, write_all};
use clf_sig::Signature;
use clf_syntax::Want;
use std::alloc::Global;

/// How a turn ends.
#[derive(Drop)]
pub enum Turn {
    /// The reply is no refusal, and what comes next is sought from this byte on.
    Next(u32),
    /// The run is over.
    Ended(Status),
}

/// A reply, and the byte after what it answers.
#[derive(Drop)]
struct Answer {
    reply: Reply,
    end: u32,
}

/// Answers what comes next in a text from byte `at` on.
pub fn next_turn<W: Sink>(
    alloc: Global,
    options: &Options,
    bytes: &[u8],
    at: u32,
    sig: &mut Signature,
    out: &mut W,
) -> Turn
    requires place { at ≤ length bytes.now }
    requires size { length bytes.now ≤ size_limit }
    requires formed { WellFormedSignature (plain_signature sig.old) }
    ensures turned { Turns options.now bytes.now at (holding (plain_signature sig.old))
        (holding (plain_signature sig.new)) (W.written out.old) (W.written out.new) result }
    ensures onward { (end : ℕ) → result ≡ Turn.Next end → (at < end) × (end ≤ length bytes.now) }
    ensures write_fault { result ≡ Turn.Ended Status.WriteFault → Rose (W.faults out.old) (W.faults out.new) }
    ensures faults { W.faults out.old ≤ W.faults out.new }
    ensures formed { WellFormedSignature (plain_signature sig.new) }
    ensures wide { EndsWide result }
{
    match next_answer(alloc, options, bytes, at, sig) {
        Ok(None) => Turn::Ended(Status::Done),
        Ok(Some(answer)) => {
            let turn = tell(alloc, sig, &answer.reply, answer.end, out);
            // By a call: dropped at the end, each form of its trees would be a case of this function.
            drop(answer);
            turn
        }
        Err(want) => Turn::Ended(given_up(want)),
    }
}

/// The reply to what comes next; none where nothing but blanks and comments is left.
fn next_answer(
    alloc: Global,
    options: &Options,
    bytes: &[u8],
    at: u32,
    sig: &mut Signature,
) -> Result<Option<Answer>, Want>
    requires place { at ≤ length bytes.now }
    requires size { length bytes.now ≤ size_limit }
    requires formed { WellFormedSignature (plain_signature sig.old) }
    ensures over { IfOk result (λ found. IfNone found (IsOver (place_in bytes.now at) × (sig.new ≡ sig.old))) }
    ensures answered { IfOk result (λ found.
        IfSome found (λ answer.
        Answers options.now (place_in bytes.now at) (holding (plain_signature sig.old))
        (plain_reply answer.reply) (place_in bytes.now answer.end) (holding (plain_signature sig.new)))) }
    ensures onward { IfOk result (λ found. IfSome found (λ answer.
        is_refusal (plain_reply answer.reply) ≡ false → (at < answer.end) × (answer.end ≤ length bytes.now))) }
    ensures unchanged { OnErr result (sig.new ≡ sig.old) }
    ensures formed { WellFormedSignature (plain_signature sig.new) }
    ensures wide { IfErr result IsWant }
{
    match next_item(alloc, bytes, at) {
        Ok(None) => Ok(None),
        Ok(Some(item)) => {
            let end = item.span.end;
            let reply = answer_item(alloc, sig, options, &item);
            drop(item);
            let reply = reply?;
            Ok(Some(Answer { reply, end }))
        }
        Err(fault) => {
            let reply = syntax_refusal(bytes, fault)?;
            Ok(Some(Answer {
                reply,
                end: bytes.len() as u32,
            }))
        }
    }
}

/// Writes the lines of a reply. After a refusal nothing is answered.
fn tell<W: Sink>(alloc: Global, sig: &Signature, reply: &Reply, end: u32, out: &mut W) -> Turn
    ensures wrote { Writes (plain_signature sig.now) (plain_reply reply.now) end (W.written out.old) (W.written out.new)
        result }
    ensures write_fault { result ≡ Turn.Ended Status.WriteFault → Rose (W.faults out.old) (W.faults out.new) }
    ensures faults { W.faults out.old ≤ W.faults out.new }
    ensures wide { EndsWide result }
{
    let text = match reply_text(alloc, sig, reply) {
        Ok(text) => text,
        Err(want) => return Turn::Ended(given_up(want)),
    };
    match write_all(out, text.as_slice()) {
        Ok(()) => behind(reply, end),
        Err(WriteAllFault::WriteFault) => Turn::Ended(Status::WriteFault),
        Err(WriteAllFault::NoMemory) => Turn::Ended(Status::NoMemory),
    }
}

/// How a turn ends whose reply is written.
fn behind(reply: &Reply, end: u32) -> Turn
    ensures { result ≡ turn_behind (plain_reply reply.now) end }
{
    match reply {
        Reply::Refused { .. } => Turn::Ended(Status::Refused),
        Reply::Entry(_) | Reply::Checked { .. } | Reply::Equal | Reply::Different => Turn::Next(
            end,
        ),
    }
}

/// How a run ends that is given up.
fn given_up(want: Want) -> Status
    ensures { result ≡ status_of want }
{
    match want {
        Want::NoMemory => Status::NoMemory,
        Want::TooFar(wide) => Status::TooFar(wide),
    }
}
