//! The taking of signs and keywords.
ghost use Rattle.std.specs.Prelude.{◌≡◌, ◌≢◌, ◌<◌, IfOk, IfErr, Ok};
ghost use Rattle.celf_grammar.specs.State.{Takes, Opens, Closes};
ghost use Rattle.celf_cursor.specs.Cursor.{IsCursorOf, state_of, kind_next, stars_behind, Misses, MissesOpening, MissesStar, OpensStar};

use crate::cursor::{Cursor, advance, with_stars};
use crate::kind::is_kind;
use crate::stop::{Stop, too_deep, unexpected};
use celf_lexer::{Token, TokenKind};

/// The most `*` that may be open at a place. What a product becomes is dropped and gone through by recursion, once a
/// factor, so the stack of the program would not hold many more: its memory has run out.
const MAX_STARS: u32 = 4096;

/// The token that comes next, of this kind.
#[tactic(auto, unfolding(crate::specs::Cursor::state_of))]
pub(crate) fn wanted(bytes: &[u8], cursor: Cursor, kind: TokenKind) -> Result<Token, Stop>
    requires kind { kind ≢ TokenKind.End }
    ensures found { IfOk result (λ t. (cursor.next ≡ Ok t) × (t.kind ≡ kind)) }
    ensures missed { IfErr result (Misses bytes.now kind cursor) }
{
    match cursor.next {
        Ok(token) if is_kind(token.kind, kind) => Ok(token),
        _ => Err(unexpected(cursor)),
    }
}

/// Takes a token of this kind.
#[tactic(auto, using(crate::proofs::Cursors::take_steps))]
pub fn take(bytes: &[u8], cursor: Cursor, kind: TokenKind) -> Result<Cursor, Stop>
    requires cursor { IsCursorOf bytes.now cursor }
    requires kind { kind ≢ TokenKind.End }
    ensures taken { IfOk result (λ c. Takes kind (state_of bytes.now cursor) (state_of bytes.now c)) }
    ensures cursor { IfOk result (IsCursorOf bytes.now) }
    ensures further { IfOk result (λ c. cursor.end < c.end) }
    ensures stars { IfOk result (λ c. c.stars ≡ cursor.stars) }
    ensures missed { IfErr result (Misses bytes.now kind cursor) }
{
    let token = wanted(bytes, cursor, kind)?;
    Ok(advance(bytes, cursor, token, cursor.room))
}

/// Takes a token of this kind, which opens a nested part.
#[tactic(auto, using(crate::proofs::Cursors::open_steps))]
pub fn open(bytes: &[u8], cursor: Cursor, kind: TokenKind) -> Result<Cursor, Stop>
    requires cursor { IsCursorOf bytes.now cursor }
    requires kind { kind ≢ TokenKind.End }
    ensures opened { IfOk result (λ c. Opens kind (state_of bytes.now cursor) (state_of bytes.now c)) }
    ensures cursor { IfOk result (IsCursorOf bytes.now) }
    ensures further { IfOk result (λ c. cursor.end < c.end) }
    ensures stars { IfOk result (λ c. c.stars ≡ cursor.stars) }
    ensures missed { IfErr result (MissesOpening bytes.now kind cursor) }
{
    let token = wanted(bytes, cursor, kind)?;
    if cursor.room == 0 {
        return Err(too_deep(cursor));
    }
    Ok(advance(bytes, cursor, token, cursor.room - 1))
}

/// Takes the `*` that comes next, and opens it. One more than may be open is lack of memory.
pub fn open_star(bytes: &[u8], cursor: Cursor) -> Result<Cursor, Stop>
    requires cursor { IsCursorOf bytes.now cursor }
    requires kind { kind_next bytes.now cursor ≡ TokenKind.Star }
    ensures opened { IfOk result (OpensStar bytes.now cursor) }
    ensures cursor { IfOk result (IsCursorOf bytes.now) }
    ensures further { IfOk result (λ c. cursor.end < c.end) }
    ensures missed { IfErr result (MissesStar cursor) }
{
    if cursor.stars >= MAX_STARS {
        return Err(Stop::NoMemory);
    }
    let behind = take(bytes, cursor, TokenKind::Star)?;
    let stars = behind.stars + 1;
    Ok(with_stars(bytes, behind, stars))
}

/// Takes a token of this kind, which ends a part: there is room as before it, and braces give back the `*` of what they
/// enclose.
#[tactic(auto, using(crate::proofs::Cursors::close_steps))]
pub fn close(bytes: &[u8], before: Cursor, cursor: Cursor, kind: TokenKind) -> Result<Cursor, Stop>
    requires cursor { IsCursorOf bytes.now cursor }
    requires kind { kind ≢ TokenKind.End }
    ensures closed { IfOk result
        (λ c. Closes kind (state_of bytes.now before).room (state_of bytes.now cursor) (state_of bytes.now c)) }
    ensures cursor { IfOk result (IsCursorOf bytes.now) }
    ensures further { IfOk result (λ c. cursor.end < c.end) }
    ensures stars { IfOk result (λ c. c.stars ≡ stars_behind kind before.stars cursor.stars) }
    ensures missed { IfErr result (Misses bytes.now kind cursor) }
{
    let token = wanted(bytes, cursor, kind)?;
    let behind = advance(bytes, cursor, token, before.room);
    Ok(with_stars(bytes, behind, stars_left(kind, before.stars, cursor.stars)))
}

/// How many `*` are open after a closing sign.
fn stars_left(kind: TokenKind, before: u32, within: u32) -> u32
    ensures { result ≡ stars_behind kind before within }
{
    match kind {
        TokenKind::RightBrace => before,
        _ => within,
    }
}
