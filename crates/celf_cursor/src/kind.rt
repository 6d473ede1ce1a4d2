//! Telling kinds of tokens apart.
ghost use Rattle.std.specs.Prelude.{◌≡◌, ◌↔◌, IsTrue};
ghost use Rattle.celf_grammar.specs.KindNumbers.{kind_number};

use celf_lexer::TokenKind;

/// A number for each kind.
fn number_of(kind: TokenKind) -> u8
    ensures { result ≡ kind_number kind }
{
    match kind {
        TokenKind::KwType => 0,
        TokenKind::KwPi => 1,
        TokenKind::KwExists => 2,
        TokenKind::KwLet => 3,
        TokenKind::KwIn => 4,
        TokenKind::Hole => 5,
        TokenKind::Number => 6,
        TokenKind::Name { capital: false } => 7,
        TokenKind::Name { capital: true } => 8,
        TokenKind::ConstName => 9,
        TokenKind::Proj1 => 10,
        TokenKind::Proj2 => 11,
        TokenKind::Directive => 12,
        TokenKind::Arrow => 13,
        TokenKind::BackArrow => 14,
        TokenKind::Lolli => 15,
        TokenKind::BackLolli => 16,
        TokenKind::Affine => 17,
        TokenKind::TopSign => 18,
        TokenKind::UnitSign => 19,
        TokenKind::Less => 20,
        TokenKind::Greater => 21,
        TokenKind::LeftBrace => 22,
        TokenKind::RightBrace => 23,
        TokenKind::LeftParen => 24,
        TokenKind::RightParen => 25,
        TokenKind::LeftBracket => 26,
        TokenKind::RightBracket => 27,
        TokenKind::Comma => 28,
        TokenKind::Stop => 29,
        TokenKind::Colon => 30,
        TokenKind::Equals => 31,
        TokenKind::Backslash => 32,
        TokenKind::Bang => 33,
        TokenKind::AtSign => 34,
        TokenKind::Star => 35,
        TokenKind::Amp => 36,
        TokenKind::End => 37,
    }
}

/// Whether two kinds are the same.
pub(crate) fn is_kind(kind: TokenKind, wanted: TokenKind) -> bool
    ensures { IsTrue result ↔ (kind ≡ wanted) }
{
    number_of(kind) == number_of(wanted)
}
