//! Types of one token, and families with their indices.
ghost use Rattle.std.specs.Prelude.{◌≡◌, ◌<◌, IfOk, IfErr, List, ◌∷◌};
ghost use Rattle.celf_surface.specs.Surface.{surface};
ghost use Rattle.celf_grammar.specs.State.{Ends};
ghost use Rattle.celf_grammar.specs.Grammar.{IsTypeAtom};
ghost use Rattle.celf_grammar.specs.Machine.{Symbol, TypeAtom};
ghost use Rattle.celf_cursor.specs.Cursor.{IsCursorOf, state_of, kind_next};
ghost use Rattle.celf_cursor.specs.Faults.{IsFaultOf};
ghost use Rattle.celf_parser.specs.Going.{begins_no_family};

use crate::form;
use celf_cursor::{Cursor, Stop, span_from, take, take_one};
use celf_lexer::TokenKind;
use celf_objects::{family_name_at, indices_at};
use celf_surface::SType;
use sqlite_items::Boxed;
use std::alloc::Global;

/// A family with its indices.
pub fn family_at(
    alloc: Global,
    bytes: &[u8],
    cursor: Cursor,
) -> Result<(Boxed<SType>, Cursor), Stop>
    requires cursor { IsCursorOf bytes.now cursor }
    requires kind { Ends begins_no_family (state_of bytes.now cursor) }
    ensures read { IfOk result (λ r. IsTypeAtom (state_of bytes.now cursor) (surface r.0) (state_of bytes.now r.1)) }
    ensures cursor { IfOk result (λ r. IsCursorOf bytes.now r.1) }
    ensures further { IfOk result (λ r. cursor.end < r.1.end) }
    ensures fault { IfErr result
        (λ e. (k : List Symbol) → IsFaultOf bytes.now (TypeAtom ∷ k) (state_of bytes.now cursor) e) }
{
    let (name, dollar, behind) = family_name_at(alloc, bytes, cursor)?;
    let (indices, end) = indices_at(alloc, bytes, behind)?;
    let span = span_from(bytes, cursor, end);
    let at = span_from(bytes, cursor, behind);
    let ty = form::family(alloc, span, name, dollar, at, indices)?;
    Ok((ty, end))
}

/// The word `type`.
pub fn word_at(alloc: Global, bytes: &[u8], cursor: Cursor) -> Result<(Boxed<SType>, Cursor), Stop>
    requires cursor { IsCursorOf bytes.now cursor }
    requires kind { kind_next bytes.now cursor ≡ TokenKind.KwType }
    ensures read { IfOk result (λ r. IsTypeAtom (state_of bytes.now cursor) (surface r.0) (state_of bytes.now r.1)) }
    ensures cursor { IfOk result (λ r. IsCursorOf bytes.now r.1) }
    ensures further { IfOk result (λ r. cursor.end < r.1.end) }
    ensures fault { IfErr result
        (λ e. (k : List Symbol) → IsFaultOf bytes.now (TypeAtom ∷ k) (state_of bytes.now cursor) e) }
{
    let end = take(bytes, cursor, TokenKind::KwType)?;
    let ty = form::type_word(alloc, span_from(bytes, cursor, end))?;
    Ok((ty, end))
}

/// `<T>`.
pub fn top_at(alloc: Global, bytes: &[u8], cursor: Cursor) -> Result<(Boxed<SType>, Cursor), Stop>
    requires cursor { IsCursorOf bytes.now cursor }
    requires kind { kind_next bytes.now cursor ≡ TokenKind.TopSign }
    ensures read { IfOk result (λ r. IsTypeAtom (state_of bytes.now cursor) (surface r.0) (state_of bytes.now r.1)) }
    ensures cursor { IfOk result (λ r. IsCursorOf bytes.now r.1) }
    ensures further { IfOk result (λ r. cursor.end < r.1.end) }
    ensures fault { IfErr result
        (λ e. (k : List Symbol) → IsFaultOf bytes.now (TypeAtom ∷ k) (state_of bytes.now cursor) e) }
{
    let end = take(bytes, cursor, TokenKind::TopSign)?;
    let ty = form::top(alloc, span_from(bytes, cursor, end))?;
    Ok((ty, end))
}

/// `1`.
pub fn one_at(alloc: Global, bytes: &[u8], cursor: Cursor) -> Result<(Boxed<SType>, Cursor), Stop>
    requires cursor { IsCursorOf bytes.now cursor }
    requires kind { kind_next bytes.now cursor ≡ TokenKind.Number }
    ensures read { IfOk result (λ r. IsTypeAtom (state_of bytes.now cursor) (surface r.0) (state_of bytes.now r.1)) }
    ensures cursor { IfOk result (λ r. IsCursorOf bytes.now r.1) }
    ensures further { IfOk result (λ r. cursor.end < r.1.end) }
    ensures fault { IfErr result
        (λ e. (k : List Symbol) → IsFaultOf bytes.now (TypeAtom ∷ k) (state_of bytes.now cursor) e) }
{
    let end = take_one(bytes, cursor)?;
    let ty = form::one(alloc, span_from(bytes, cursor, end))?;
    Ok((ty, end))
}
