//! Why a reading stops.
ghost use Rattle.std.specs.Prelude.{◌≡◌};
ghost use Rattle.celf_cursor.specs.Cursor.{span_of as span_of_token, unexpected as unexpected_at, too_deep as too_deep_at};

use crate::cursor::Cursor;
use celf_lexer::{LexFault, Token};
use celf_surface::Span;
use std::alloc::AllocError;

/// Why a reading stops.
#[derive(Debug, Drop)]
pub enum Stop {
    /// The token at these bytes may not stand there; it may be the end of the text.
    Unexpected(Span),
    /// The token at these bytes opens a nested part too many.
    TooDeep(Span),
    /// A token is wanted where none begins.
    Lex(LexFault),
    NoMemory,
}

impl From<AllocError> for Stop {
    ghost use Rattle.std.specs.Prelude.{◌≡◌};
    ghost use Rattle.celf_cursor.specs.declared.stop.Stop.TheVariants.{NoMemory};

    ghost from_gives = { λ _ e. e ≡ NoMemory };

    fn from(_error: AllocError) -> Stop {
        Stop::NoMemory
    }
}

/// The bytes of a token.
pub fn span_of(token: Token) -> Span
    ensures { result ≡ span_of_token token }
{
    Span {
        start: token.start,
        end: token.end,
    }
}

/// The fault where what comes next may not stand there.
pub fn unexpected(cursor: Cursor) -> Stop
    ensures { result ≡ unexpected_at cursor.next }
{
    match cursor.next {
        Ok(token) => Stop::Unexpected(span_of(token)),
        Err(fault) => Stop::Lex(fault),
    }
}

/// The fault where what comes next opens a nested part too many.
pub fn too_deep(cursor: Cursor) -> Stop
    ensures { result ≡ too_deep_at cursor.next }
{
    match cursor.next {
        Ok(token) => Stop::TooDeep(span_of(token)),
        Err(fault) => Stop::Lex(fault),
    }
}
