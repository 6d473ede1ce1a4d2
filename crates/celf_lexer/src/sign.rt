//! Signs.

ghost use Rattle.celf_lexer.specs.Sign as spec;
ghost use Rattle.celf_lexer.specs.SignAt.{sign_here};
ghost use Rattle.std.specs.Prelude.{◌≡◌, ◌≢◌, ◌≤◌, ◌∷◌, IfSome, List, ℕ};

use crate::token::TokenKind;
use crate::word::name_byte_first;

/// A sign and how many bytes it has.
#[derive(Clone, Copy)]
pub(crate) struct Sign {
    pub(crate) kind: TokenKind,
    pub(crate) length: u32,
}

impl Sign {
    fn new(kind: TokenKind, length: u32) -> Self
        ensures { result ≡ record { kind = kind; length = length } }
    {
        Sign { kind, length }
    }
}

/// The sign that begins with `<`, before the bytes `after`.
fn less_sign(after: &[u8]) -> Option<Sign>
    ensures value { sign_here result ≡ spec.sign_front spec.signs (60 ∷ after.now) }
    ensures short { IfSome result (λ s. s.length ≤ 3) }
{
    match after {
        [b'T', b'>', ..] => Some(Sign::new(TokenKind::TopSign, 3)),
        [b'-', ..] => Some(Sign::new(TokenKind::BackArrow, 2)),
        [b'>', ..] => Some(Sign::new(TokenKind::UnitSign, 2)),
        _ => Some(Sign::new(TokenKind::Less, 1)),
    }
}

/// The sign that begins with `-`, before the bytes `after`.
fn dash_sign(after: &[u8]) -> Option<Sign>
    ensures value { sign_here result ≡ spec.sign_front spec.signs (45 ∷ after.now) }
    ensures short { IfSome result (λ s. s.length ≤ 3) }
{
    match after {
        [b'>', ..] => Some(Sign::new(TokenKind::Arrow, 2)),
        [b'@', ..] => Some(Sign::new(TokenKind::Affine, 2)),
        [b'o', rest @ ..] if !name_byte_first(rest) => Some(Sign::new(TokenKind::Lolli, 2)),
        _ => None,
    }
}

/// The sign that has this byte alone.
fn lone_sign(byte: u8) -> Option<Sign>
    requires no_less { byte ≢ 60 }
    requires no_dash { byte ≢ 45 }
    ensures value { (after : List ℕ) → sign_here result ≡ spec.sign_front spec.signs (byte ∷ after) }
    ensures short { IfSome result (λ s. s.length ≤ 3) }
{
    match byte {
        b'>' => Some(Sign::new(TokenKind::Greater, 1)),
        b'{' => Some(Sign::new(TokenKind::LeftBrace, 1)),
        b'}' => Some(Sign::new(TokenKind::RightBrace, 1)),
        b'(' => Some(Sign::new(TokenKind::LeftParen, 1)),
        b')' => Some(Sign::new(TokenKind::RightParen, 1)),
        b'[' => Some(Sign::new(TokenKind::LeftBracket, 1)),
        b']' => Some(Sign::new(TokenKind::RightBracket, 1)),
        b',' => Some(Sign::new(TokenKind::Comma, 1)),
        b'.' => Some(Sign::new(TokenKind::Stop, 1)),
        b':' => Some(Sign::new(TokenKind::Colon, 1)),
        b'=' => Some(Sign::new(TokenKind::Equals, 1)),
        b'\\' => Some(Sign::new(TokenKind::Backslash, 1)),
        b'!' => Some(Sign::new(TokenKind::Bang, 1)),
        b'@' => Some(Sign::new(TokenKind::AtSign, 1)),
        b'*' => Some(Sign::new(TokenKind::Star, 1)),
        b'&' => Some(Sign::new(TokenKind::Amp, 1)),
        _ => None,
    }
}

/// The longest sign that fits in front.
pub(crate) fn first_sign(bytes: &[u8]) -> Option<Sign>
    ensures value { sign_here result ≡ spec.sign_front spec.signs bytes.now }
    ensures short { IfSome result (λ s. s.length ≤ 3) }
{
    match bytes {
        [b'<', after @ ..] => less_sign(after),
        [b'-', after @ ..] => dash_sign(after),
        [byte, ..] => lone_sign(*byte),
        [] => None,
    }
}
