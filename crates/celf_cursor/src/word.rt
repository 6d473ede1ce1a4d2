//! The taking of words.
ghost use Rattle.std.specs.Prelude.{◌≡◌, ◌≢◌, ◌<◌, ◌≤◌, ◌^◌, ◌-◌, min, length, take as front_of, drop, codes, IfOk, IfErr, IsTrue, ◌↔◌, Ok, true};
ghost use Rattle.celf_lexer.specs.Tokens.{lexeme_of};
ghost use Rattle.celf_grammar.specs.Grammar.{is_name_kind};
ghost use Rattle.celf_grammar.specs.State.{TakesName, TakesConstant, TakesWord, TakesOne, TakesDirective, TakesNumber, digits_behind};
ghost use Rattle.celf_cursor.specs.Cursor.{IsCursorOf, state_of, Misses, MissesWord, MissesName, MissesConstant};

use crate::cursor::{Cursor, advance};
use crate::sign::wanted;
use crate::stop::{Stop, span_of, unexpected};
use celf_lexer::{Token, TokenKind};
use celf_surface::Bound;
use clf_syntax::Name;
use std::alloc::{AllocError, Global};

/// The bytes of a token.
#[tactic(auto, using(crate::proofs::Cursors::place_steps))]
fn bytes_of(bytes: &[u8], cursor: Cursor, token: Token) -> &[u8]
    requires cursor { IsCursorOf bytes.now cursor }
    requires next { cursor.next ≡ Ok token }
    ensures { result.now ≡ (lexeme_of bytes.now token).spelling }
{
    &bytes[token.start as usize..token.end as usize]
}

/// The name that a token spells.
#[tactic(auto, using(crate::proofs::Words::name_steps))]
fn name_of(alloc: Global, bytes: &[u8], cursor: Cursor, token: Token) -> Result<Name, AllocError>
    requires cursor { IsCursorOf bytes.now cursor }
    requires next { cursor.next ≡ Ok token }
    requires kind { IsTrue (is_name_kind token.kind) }
    ensures { IfOk result (λ name. name ≡ (lexeme_of bytes.now token).spelling) }
{
    match std::str::from_utf8(bytes_of(bytes, cursor, token)) {
        Ok(text) => Name::new(alloc, text),
        Err(_) => unreachable!(),
    }
}

/// The name after the `$` that a token spells.
#[tactic(auto, using(crate::proofs::Words::constant_steps))]
fn constant_of(
    alloc: Global,
    bytes: &[u8],
    cursor: Cursor,
    token: Token,
) -> Result<Name, AllocError>
    requires cursor { IsCursorOf bytes.now cursor }
    requires next { cursor.next ≡ Ok token }
    requires kind { token.kind ≡ TokenKind.ConstName }
    ensures { IfOk result (λ name. name ≡ drop 1 (lexeme_of bytes.now token).spelling) }
{
    match std::str::from_utf8(&bytes_of(bytes, cursor, token)[1..]) {
        Ok(text) => Name::new(alloc, text),
        Err(_) => unreachable!(),
    }
}

/// Whether it is a name.
fn is_name(kind: TokenKind) -> bool
    ensures { result ≡ is_name_kind kind }
{
    match kind {
        TokenKind::Name { .. } => true,
        _ => false,
    }
}

/// The name token that comes next.
#[tactic(auto, unfolding(crate::specs::Cursor::state_of))]
fn wanted_name(bytes: &[u8], cursor: Cursor) -> Result<Token, Stop>
    ensures found { IfOk result (λ t. (cursor.next ≡ Ok t) × (is_name_kind t.kind ≡ true)) }
    ensures missed { IfErr result (MissesName bytes.now cursor) }
{
    match cursor.next {
        Ok(token) if is_name(token.kind) => Ok(token),
        _ => Err(unexpected(cursor)),
    }
}

/// Takes a name.
#[tactic(auto, using(crate::proofs::Words::take_name_steps))]
pub fn take_name(alloc: Global, bytes: &[u8], cursor: Cursor) -> Result<(Name, Cursor), Stop>
    requires cursor { IsCursorOf bytes.now cursor }
    ensures taken { IfOk result (λ r. TakesName (state_of bytes.now cursor) r.0 (state_of bytes.now r.1)) }
    ensures cursor { IfOk result (λ r. IsCursorOf bytes.now r.1) }
    ensures further { IfOk result (λ r. cursor.end < r.1.end) }
    ensures stars { IfOk result (λ r. r.1.stars ≡ cursor.stars) }
    ensures missed { IfErr result (MissesName bytes.now cursor) }
{
    let token = wanted_name(bytes, cursor)?;
    let name = name_of(alloc, bytes, cursor, token)?;
    Ok((name, advance(bytes, cursor, token, cursor.room)))
}

/// Takes a constant name, and gives it without its `$`.
#[tactic(auto, using(crate::proofs::Words::take_constant_steps))]
pub fn take_constant(alloc: Global, bytes: &[u8], cursor: Cursor) -> Result<(Name, Cursor), Stop>
    requires cursor { IsCursorOf bytes.now cursor }
    ensures taken { IfOk result (λ r. TakesConstant (state_of bytes.now cursor) r.0 (state_of bytes.now r.1)) }
    ensures cursor { IfOk result (λ r. IsCursorOf bytes.now r.1) }
    ensures further { IfOk result (λ r. cursor.end < r.1.end) }
    ensures stars { IfOk result (λ r. r.1.stars ≡ cursor.stars) }
    ensures missed { IfErr result (MissesConstant bytes.now cursor) }
{
    let token = wanted(bytes, cursor, TokenKind::ConstName)?;
    let name = constant_of(alloc, bytes, cursor, token)?;
    Ok((name, advance(bytes, cursor, token, cursor.room)))
}

/// Whether a word is spelled so.
fn is_spelled(word: &[u8], spelling: &str) -> bool
    ensures { IsTrue result ↔ (word.now ≡ spelling.now) }
{
    word == spelling.as_bytes()
}

/// Takes a token of this kind and spelling.
#[tactic(auto, using(crate::proofs::Words::take_word_steps))]
fn take_word(bytes: &[u8], cursor: Cursor, kind: TokenKind, word: &str) -> Result<Cursor, Stop>
    requires cursor { IsCursorOf bytes.now cursor }
    requires kind { kind ≢ TokenKind.End }
    ensures taken { IfOk result (λ c. TakesWord kind word.now (state_of bytes.now cursor) (state_of bytes.now c)) }
    ensures cursor { IfOk result (IsCursorOf bytes.now) }
    ensures further { IfOk result (λ c. cursor.end < c.end) }
    ensures stars { IfOk result (λ c. c.stars ≡ cursor.stars) }
    ensures missed { IfErr result (MissesWord bytes.now kind word.now cursor) }
{
    let token = wanted(bytes, cursor, kind)?;
    if is_spelled(bytes_of(bytes, cursor, token), word) {
        Ok(advance(bytes, cursor, token, cursor.room))
    } else {
        Err(unexpected(cursor))
    }
}

/// Takes the number word `1`.
pub fn take_one(bytes: &[u8], cursor: Cursor) -> Result<Cursor, Stop>
    requires cursor { IsCursorOf bytes.now cursor }
    ensures taken { IfOk result (λ c. TakesOne (state_of bytes.now cursor) (state_of bytes.now c)) }
    ensures cursor { IfOk result (IsCursorOf bytes.now) }
    ensures further { IfOk result (λ c. cursor.end < c.end) }
    ensures stars { IfOk result (λ c. c.stars ≡ cursor.stars) }
    ensures missed { IfErr result (MissesWord bytes.now TokenKind.Number (codes "1") cursor) }
{
    take_word(bytes, cursor, TokenKind::Number, "1")
}

/// Takes a directive word, which is given with its `#`.
pub fn take_directive(bytes: &[u8], cursor: Cursor, word: &str) -> Result<Cursor, Stop>
    requires cursor { IsCursorOf bytes.now cursor }
    ensures taken { IfOk result (λ c. TakesDirective word.now (state_of bytes.now cursor) (state_of bytes.now c)) }
    ensures cursor { IfOk result (IsCursorOf bytes.now) }
    ensures further { IfOk result (λ c. cursor.end < c.end) }
    ensures stars { IfOk result (λ c. c.stars ≡ cursor.stars) }
    ensures missed { IfErr result (MissesWord bytes.now TokenKind.Directive word.now cursor) }
{
    take_word(bytes, cursor, TokenKind::Directive, word)
}

/// The number that digits spell; one that is too large is kept as the greatest value.
fn number_of(digits: &[u8]) -> u64
    ensures { result ≡ min (digits_behind 0 digits.now) (2 ^ 64 - 1) }
{
    let mut number: u64 = 0;
    for digit in digits {
        let ones = u64::from(digit.saturating_sub(b'0'));
        number = number.saturating_mul(10).saturating_add(ones);
    }
    number
}

/// Takes a number.
#[tactic(auto, using(crate::proofs::Words::take_number_steps))]
pub fn take_number(bytes: &[u8], cursor: Cursor) -> Result<(Bound, Cursor), Stop>
    requires cursor { IsCursorOf bytes.now cursor }
    ensures taken { IfOk result (λ r. TakesNumber (state_of bytes.now cursor) r.0 (state_of bytes.now r.1)) }
    ensures cursor { IfOk result (λ r. IsCursorOf bytes.now r.1) }
    ensures further { IfOk result (λ r. cursor.end < r.1.end) }
    ensures stars { IfOk result (λ r. r.1.stars ≡ cursor.stars) }
    ensures missed { IfErr result (Misses bytes.now TokenKind.Number cursor) }
{
    let token = wanted(bytes, cursor, TokenKind::Number)?;
    let number = Bound::Number {
        value: number_of(bytes_of(bytes, cursor, token)),
        span: span_of(token),
    };
    Ok((number, advance(bytes, cursor, token, cursor.room)))
}
