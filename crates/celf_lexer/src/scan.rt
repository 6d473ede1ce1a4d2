//! The next token of a text.

ghost use Rattle.celf_lexer.specs.Sign as spec;
ghost use Rattle.celf_lexer.specs.Tokens.{fault_byte, next_token, placed, size_limit};
ghost use Rattle.clf_syntax.specs.Word as words;
ghost use Rattle.std.specs.Prelude.{◌+◌, ◌<◌, ◌≡◌, ◌≢◌, ◌≤◌, ◌^◌, IfErr, IfOk, IsTrue, length};

use crate::gap::gap_length;
use crate::sign::first_sign;
use crate::token::{LexFault, Token, TokenKind};
use crate::word::{begins_word, first_word, is_name, is_spelled, word_kind};

/// The most bytes that the word of a token may have.
const WORD_LIMIT: usize = 255;

fn token(kind: TokenKind, start: u32, length: u32) -> Result<Token, LexFault>
    requires { start + length < 2 ^ 32 }
    ensures { result ≡ placed start (spec.token kind length) }
{
    Ok(Token {
        kind,
        start,
        end: start + length,
    })
}

/// A token whose word follows `before` bytes of it, where the word is not too long.
fn worded(kind: TokenKind, start: u32, before: u32, word: &[u8]) -> Result<Token, LexFault>
    requires { start + before + length word.now < 2 ^ 32 }
    ensures { result ≡ placed start (spec.of_word before word.now kind) }
{
    if word.len() > WORD_LIMIT {
        return Err(LexFault::LongName(start));
    }
    token(kind, start, before + word.len() as u32)
}

fn is_back_lolli(word: &[u8], after: &[u8]) -> bool
    ensures { result ≡ spec.is_back_lolli word.now after.now }
{
    is_spelled(word, b"o")
        && match after {
            [b'-', b'>' | b'@', ..] => false,
            [b'-', ..] => true,
            _ => false,
        }
}

/// The token that begins with the word in front.
fn word_token(bytes: &[u8], start: u32) -> Result<Token, LexFault>
    requires room { start + length bytes.now < 2 ^ 32 }
    requires begins { 0 < spec.word_length bytes.now }
    ensures { result ≡ placed start (spec.word_front (spec.word_here bytes.now) (spec.after_word bytes.now)) }
{
    let word = first_word(bytes);
    if is_back_lolli(word, &bytes[word.len()..]) {
        return token(TokenKind::BackLolli, start, 2);
    }
    worded(word_kind(word), start, 0, word)
}

/// The token of a `$` and the bytes after it.
fn constant_token(behind: &[u8], start: u32) -> Result<Token, LexFault>
    requires { start + 1 + length behind.now < 2 ^ 32 }
    ensures { result ≡ placed start (spec.constant_front (spec.word_here behind.now)) }
{
    let word = first_word(behind);
    if !is_name(word) {
        return Err(LexFault::BadByte(start));
    }
    worded(TokenKind::ConstName, start, 1, word)
}

/// What the word after a `#` makes of it.
fn hash_kind(word: &[u8]) -> TokenKind
    ensures { result ≡ spec.hash_kind word.now }
{
    if is_spelled(word, b"1") {
        TokenKind::Proj1
    } else if is_spelled(word, b"2") {
        TokenKind::Proj2
    } else {
        TokenKind::Directive
    }
}

/// The token of a `#` and the bytes after it.
fn hash_token(behind: &[u8], start: u32) -> Result<Token, LexFault>
    requires { start + 1 + length behind.now < 2 ^ 32 }
    ensures { result ≡ placed start (spec.hash_front (spec.word_here behind.now)) }
{
    let word = first_word(behind);
    if word.is_empty() {
        return Err(LexFault::BadByte(start));
    }
    worded(hash_kind(word), start, 1, word)
}

/// The token of the longest sign that fits in front.
fn sign_token(bytes: &[u8], start: u32) -> Result<Token, LexFault>
    requires { start < 2 ^ 31 }
    ensures { result ≡ placed start (spec.sign_front spec.signs bytes.now) }
{
    match first_sign(bytes) {
        Some(sign) => token(sign.kind, start, sign.length),
        None => Err(LexFault::BadByte(start)),
    }
}

/// The token that begins right here.
#[tactic(auto, unfolding(crate::specs::Sign::front))]
fn token_here(bytes: &[u8], start: u32) -> Result<Token, LexFault>
    requires { start + length bytes.now < 2 ^ 31 }
    ensures { result ≡ placed start (spec.front bytes.now) }
{
    match bytes {
        [] => token(TokenKind::End, start, 0),
        [first, ..] if begins_word(*first) => word_token(bytes, start),
        [b'$', behind @ ..] => constant_token(behind, start),
        [b'#', behind @ ..] => hash_token(behind, start),
        _ => sign_token(bytes, start),
    }
}

/// The first token at or after byte `at`, past blanks and comments, or `End` where none is left.
#[tactic(auto, unfolding(crate::specs::Tokens::first_of))]
pub fn next(bytes: &[u8], at: u32) -> Result<Token, LexFault>
    requires place { at ≤ length bytes.now }
    requires size { length bytes.now ≤ size_limit }
    ensures exact { result ≡ next_token bytes.now at }
    ensures behind { IfOk result (λ t. at ≤ t.start) }
    ensures ordered { IfOk result (λ t. t.start ≤ t.end) }
    ensures within { IfOk result (λ t. t.end ≤ length bytes.now) }
    ensures has_byte { IfOk result (λ t. t.kind ≢ TokenKind.End → t.start < t.end) }
    ensures at_end { IfOk result
        (λ t. t.kind ≡ TokenKind.End → (t.start ≡ length bytes.now) × (t.end ≡ length bytes.now)) }
    ensures fault_behind { IfErr result (λ f. at ≤ fault_byte f) }
    ensures fault_within { IfErr result (λ f. fault_byte f < length bytes.now) }
{
    let rest = &bytes[at as usize..];
    let gap = gap_length(rest);
    token_here(&rest[gap..], at + gap as u32)
}
