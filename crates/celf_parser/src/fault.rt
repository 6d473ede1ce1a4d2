//! Why no item is read.
ghost use Rattle.std.specs.Prelude.{◌≡◌};
ghost use Rattle.celf_parser.specs.Fault.{unknown};

use celf_cursor::{Cursor, Stop};
use celf_lexer::LexFault;
use celf_surface::Span;

/// Why no item is read.
#[derive(Debug, Drop)]
pub enum SyntaxFault {
    /// A token is wanted where none begins.
    Lex(LexFault),
    /// The token at these bytes may not stand there; it may be the end of the text.
    Unexpected(Span),
    /// The item begins with a `#` word that is no directive.
    Directive(Span),
    /// The token at these bytes opens a nested part too many.
    TooDeep(Span),
    NoMemory,
}

impl From<Stop> for SyntaxFault {
    ghost use Rattle.std.specs.Prelude.{◌≡◌};
    ghost use Rattle.celf_parser.specs.Fault.{fault_of};

    ghost from_gives = { λ stop e. e ≡ fault_of stop };

    fn from(stop: Stop) -> SyntaxFault {
        match stop {
            Stop::Lex(fault) => SyntaxFault::Lex(fault),
            Stop::Unexpected(span) => SyntaxFault::Unexpected(span),
            Stop::TooDeep(span) => SyntaxFault::TooDeep(span),
            Stop::NoMemory => SyntaxFault::NoMemory,
        }
    }
}

/// The fault where a `#` word comes next that is no directive.
pub fn unknown_directive(cursor: Cursor) -> SyntaxFault
    ensures { result ≡ unknown cursor.next }
{
    match cursor.next {
        Ok(token) => SyntaxFault::Directive(Span {
            start: token.start,
            end: token.end,
        }),
        Err(fault) => SyntaxFault::Lex(fault),
    }
}
