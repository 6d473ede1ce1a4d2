//! What kinds of tokens begin or go on.
ghost use Rattle.std.specs.Prelude.{◌≡◌};
ghost use Rattle.celf_grammar.specs.Grammar as spec;

use celf_lexer::TokenKind;

pub(crate) fn is_comma(kind: TokenKind) -> bool
    ensures { result ≡ spec.is_comma kind }
{
    match kind {
        TokenKind::Comma => true,
        _ => false,
    }
}

pub(crate) fn is_let(kind: TokenKind) -> bool
    ensures { result ≡ spec.is_let kind }
{
    match kind {
        TokenKind::KwLet => true,
        _ => false,
    }
}

/// Whether an atom begins with it.
pub(crate) fn begins_atom(kind: TokenKind) -> bool
    ensures { result ≡ spec.begins_atom kind }
{
    match kind {
        TokenKind::Name { .. }
        | TokenKind::ConstName
        | TokenKind::Hole
        | TokenKind::UnitSign
        | TokenKind::Less
        | TokenKind::LeftBrace
        | TokenKind::LeftParen
        | TokenKind::Proj1
        | TokenKind::Proj2 => true,
        _ => false,
    }
}

/// Whether an argument begins with it.
pub(crate) fn begins_argument(kind: TokenKind) -> bool
    ensures { result ≡ spec.begins_argument kind }
{
    match kind {
        TokenKind::Bang | TokenKind::AtSign => true,
        _ => begins_atom(kind),
    }
}

/// Whether an index begins with it.
pub(crate) fn begins_index(kind: TokenKind) -> bool
    ensures { result ≡ spec.begins_index kind }
{
    match kind {
        TokenKind::Bang => true,
        _ => begins_atom(kind),
    }
}
