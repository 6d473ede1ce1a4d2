//! Where a reading of a text stands.
ghost use Rattle.std.specs.Prelude.{◌≡◌, ◌≢◌, ◌≤◌, ◌<◌, length, Ok};
ghost use Rattle.celf_lexer.specs.Tokens.{tokens_from, lexeme_of, size_limit};
ghost use Rattle.celf_grammar.specs.State.{State, TakesToken, EndsPart, span_to};
ghost use Rattle.celf_cursor.specs.Cursor.{IsCursorOf, state_of, kind_next};

use celf_lexer::{LexFault, Token, TokenKind};
use celf_surface::Span;

/// Where a reading of a text stands.
#[derive(Clone, Copy, Debug)]
pub struct Cursor {
    /// The token that comes next, or why none begins.
    pub next: Result<Token, LexFault>,
    /// How many more nested parts may be opened.
    pub room: u32,
    /// The byte after the last token that was taken.
    pub end: u32,
    /// How many signs `*` of products are open.
    pub stars: u32,
}

/// The cursor at a byte.
#[tactic(auto, using(crate::proofs::Cursors::start_steps), unfolding(crate::specs::Cursor::state_of))]
pub fn cursor_at(bytes: &[u8], at: u32, room: u32) -> Cursor
    requires size { length bytes.now ≤ size_limit }
    requires place { at ≤ length bytes.now }
    ensures state { state_of bytes.now result ≡ record { rest = tokens_from bytes.now at; room = room; end = at } }
    ensures cursor { IsCursorOf bytes.now result }
    ensures end { result.end ≡ at }
    ensures stars { result.stars ≡ 0 }
{
    Cursor {
        next: celf_lexer::next(bytes, at),
        room,
        end: at,
        stars: 0,
    }
}

/// The cursor after the token that comes next.
#[tactic(auto, using(crate::proofs::Cursors::advance_steps), unfolding(crate::specs::Cursor::state_of))]
pub(crate) fn advance(bytes: &[u8], cursor: Cursor, token: Token, room: u32) -> Cursor
    requires cursor { IsCursorOf bytes.now cursor }
    requires next { cursor.next ≡ Ok token }
    requires kind { token.kind ≢ TokenKind.End }
    ensures taken { TakesToken room (lexeme_of bytes.now token) (state_of bytes.now cursor)
        (state_of bytes.now result) }
    ensures cursor { IsCursorOf bytes.now result }
    ensures further { cursor.end < result.end }
    ensures stars { result.stars ≡ cursor.stars }
{
    let behind = cursor_at(bytes, token.end, room);
    Cursor {
        next: behind.next,
        room: behind.room,
        end: behind.end,
        stars: cursor.stars,
    }
}

/// The same cursor with so many `*` open.
#[tactic(auto, unfolding(crate::specs::Cursor::state_of))]
pub(crate) fn with_stars(bytes: &[u8], cursor: Cursor, stars: u32) -> Cursor
    ensures state { state_of bytes.now result ≡ state_of bytes.now cursor }
    ensures cursor { IsCursorOf bytes.now cursor → IsCursorOf bytes.now result }
    ensures end { result.end ≡ cursor.end }
    ensures stars { result.stars ≡ stars }
{
    Cursor { stars, ..cursor }
}

/// The kind of the token that comes next, and the end where none begins.
#[tactic(auto, unfolding(crate::specs::Cursor::state_of))]
pub fn kind_of_next(bytes: &[u8], cursor: Cursor) -> TokenKind
    ensures { result ≡ kind_next bytes.now cursor }
{
    match cursor.next {
        Ok(token) => token.kind,
        Err(_) => TokenKind::End,
    }
}

/// The bytes from the token that comes next at a cursor to the last one that was taken at another.
#[tactic(auto, unfolding(crate::specs::Cursor::state_of))]
pub fn span_from(bytes: &[u8], cursor: Cursor, behind: Cursor) -> Span
    ensures { result ≡ span_to (state_of bytes.now cursor) (state_of bytes.now behind) }
{
    let start = match cursor.next {
        Ok(token) => token.start,
        Err(_) => 0,
    };
    Span {
        start,
        end: behind.end,
    }
}

/// The end of a part that has no token of its own: there is room as before it.
#[tactic(auto, unfolding(crate::specs::Cursor::state_of))]
pub fn end_part(bytes: &[u8], before: Cursor, cursor: Cursor) -> Cursor
    requires cursor { IsCursorOf bytes.now cursor }
    ensures ended { EndsPart (state_of bytes.now before).room (state_of bytes.now cursor) (state_of bytes.now result) }
    ensures cursor { IsCursorOf bytes.now result }
    ensures end { result.end ≡ cursor.end }
    ensures stars { result.stars ≡ cursor.stars }
{
    Cursor {
        next: cursor.next,
        room: before.room,
        end: cursor.end,
        stars: cursor.stars,
    }
}
