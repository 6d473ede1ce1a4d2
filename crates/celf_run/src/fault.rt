//! Refusals of what is no item, and of faults beyond the grammar.
ghost use Rattle.std.specs.Prelude.{◌≡◌, ◌≢◌, ◌≤◌, length, IfOk, IfErr, OnOk};
ghost use Rattle.celf_replies.specs.Reply.{plain_reply, refused};
ghost use Rattle.celf_run.specs.Source.{syntax_refusal as syntax_refusal_of};
ghost use Rattle.celf_run.specs.Allowed.{sugar_refusal as sugar_refusal_of};
ghost use Rattle.clf_syntax.specs.Wide.{IsWant};

use celf_lexer::LexFault;
use celf_parser::SyntaxFault;
use celf_replies::{Reply, Why};
use celf_sugar::SugarFault;
use clf_syntax::Want;

/// The refusal of a fault of words or grammar in a text.
pub fn syntax_refusal(bytes: &[u8], fault: SyntaxFault) -> Result<Reply, Want>
    ensures refusal { IfOk result (λ reply. plain_reply reply ≡ refused (syntax_refusal_of bytes.now fault)) }
    ensures memory { OnOk result (fault ≢ SyntaxFault.NoMemory) }
    ensures wide { IfErr result IsWant }
{
    let (at, why) = match fault {
        SyntaxFault::Lex(LexFault::BadByte(at)) => (at, Why::BadByte),
        SyntaxFault::Lex(LexFault::LongName(at)) => (at, Why::LongName),
        SyntaxFault::Unexpected(span) => {
            let end = span.start as usize == bytes.len();
            (span.start, Why::Unexpected { end })
        }
        SyntaxFault::Directive(span) => (span.start, Why::Directive),
        SyntaxFault::TooDeep(span) => (span.start, Why::TooDeep),
        SyntaxFault::NoMemory => return Err(Want::NoMemory),
    };
    Ok(Reply::Refused { at, why })
}

/// The refusal of a fault beyond the grammar.
pub fn sugar_refusal(fault: SugarFault) -> Result<Reply, Want>
    ensures refusal { IfOk result (λ reply. plain_reply reply ≡ refused (sugar_refusal_of fault)) }
    ensures memory { OnOk result (fault ≢ SugarFault.NoMemory) }
    ensures wide { IfErr result IsWant }
{
    let (span, why) = match fault {
        SugarFault::KindPlace(span) => (span, Why::KindPlace),
        SugarFault::NotAsync(span) => (span, Why::NotAsync),
        SugarFault::Redex(span) => (span, Why::Redex),
        SugarFault::OutOfRange(span) => (span, Why::OutOfRange),
        SugarFault::BadImplicit(span) => (span, Why::BadImplicit),
        SugarFault::NoMemory => return Err(Want::NoMemory),
    };
    Ok(Reply::Refused {
        at: span.start,
        why,
    })
}
