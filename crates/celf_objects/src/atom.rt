//! Atoms.
ghost use Rattle.std.specs.Prelude.{◌≡◌, IfErr, IsTrue, List, ◌∷◌, ◌<◌, IfOk};
ghost use Rattle.celf_grammar.specs.Machine.{Symbol, Atom as AtomSymbol};
ghost use Rattle.celf_cursor.specs.Faults.{IsFaultOf};
ghost use Rattle.celf_surface.specs.Surface.{object_tree};
ghost use Rattle.celf_grammar.specs.Grammar.{IsAtom, is_name_kind};
ghost use Rattle.celf_cursor.specs.Cursor.{IsCursorOf, state_of, kind_next};

use crate::expression::expression_at;
use crate::object::object_at;
use crate::trees::{braces, first, leaf, pair, second};
use celf_cursor::{
    Cursor, Stop, close, end_part, kind_of_next, open, span_from, take, take_constant, take_name,
    unexpected,
};
use celf_lexer::TokenKind;
use celf_surface::{SObj, SObjForm};
use sqlite_items::Boxed;
use std::alloc::Global;

/// An atom.
#[cycle(objects)]
pub fn atom_at(alloc: Global, bytes: &[u8], cursor: Cursor) -> Result<(SObj, Cursor), Stop>
    requires cursor { IsCursorOf bytes.now cursor }
    ensures read { IfOk result (λ r. IsAtom (state_of bytes.now cursor) (object_tree r.0) (state_of bytes.now r.1)) }
    ensures cursor { IfOk result (λ r. IsCursorOf bytes.now r.1) }
    ensures further { IfOk result (λ r. cursor.end < r.1.end) }
    ensures fault { IfErr result
        (λ e. (k : List Symbol) → IsFaultOf bytes.now (AtomSymbol ∷ k) (state_of bytes.now cursor) e) }
{
    match kind_of_next(bytes, cursor) {
        TokenKind::Name { .. } => name_at(alloc, bytes, cursor),
        TokenKind::ConstName => constant_at(alloc, bytes, cursor),
        TokenKind::Hole => hole_at(bytes, cursor),
        TokenKind::UnitSign => unit_at(bytes, cursor),
        TokenKind::Less => pair_at(alloc, bytes, cursor),
        TokenKind::LeftBrace => braces_at(alloc, bytes, cursor),
        TokenKind::LeftParen => group_at(alloc, bytes, cursor),
        TokenKind::Proj1 => first_at(alloc, bytes, cursor),
        TokenKind::Proj2 => second_at(alloc, bytes, cursor),
        _ => Err(unexpected(cursor)),
    }
}

/// A name as an atom.
fn name_at(alloc: Global, bytes: &[u8], cursor: Cursor) -> Result<(SObj, Cursor), Stop>
    requires cursor { IsCursorOf bytes.now cursor }
    requires kind { IsTrue (is_name_kind (kind_next bytes.now cursor)) }
    ensures read { IfOk result (λ r. IsAtom (state_of bytes.now cursor) (object_tree r.0) (state_of bytes.now r.1)) }
    ensures cursor { IfOk result (λ r. IsCursorOf bytes.now r.1) }
    ensures further { IfOk result (λ r. cursor.end < r.1.end) }
    ensures fault { IfErr result
        (λ e. (k : List Symbol) → IsFaultOf bytes.now (AtomSymbol ∷ k) (state_of bytes.now cursor) e) }
{
    let (name, behind) = take_name(alloc, bytes, cursor)?;
    let form = SObjForm::Named {
        name,
        dollar: false,
    };
    Ok((leaf(span_from(bytes, cursor, behind), form), behind))
}

/// A constant name as an atom.
fn constant_at(alloc: Global, bytes: &[u8], cursor: Cursor) -> Result<(SObj, Cursor), Stop>
    requires cursor { IsCursorOf bytes.now cursor }
    requires kind { kind_next bytes.now cursor ≡ TokenKind.ConstName }
    ensures read { IfOk result (λ r. IsAtom (state_of bytes.now cursor) (object_tree r.0) (state_of bytes.now r.1)) }
    ensures cursor { IfOk result (λ r. IsCursorOf bytes.now r.1) }
    ensures further { IfOk result (λ r. cursor.end < r.1.end) }
    ensures fault { IfErr result
        (λ e. (k : List Symbol) → IsFaultOf bytes.now (AtomSymbol ∷ k) (state_of bytes.now cursor) e) }
{
    let (name, behind) = take_constant(alloc, bytes, cursor)?;
    let form = SObjForm::Named { name, dollar: true };
    Ok((leaf(span_from(bytes, cursor, behind), form), behind))
}

/// `_`.
fn hole_at(bytes: &[u8], cursor: Cursor) -> Result<(SObj, Cursor), Stop>
    requires cursor { IsCursorOf bytes.now cursor }
    requires kind { kind_next bytes.now cursor ≡ TokenKind.Hole }
    ensures read { IfOk result (λ r. IsAtom (state_of bytes.now cursor) (object_tree r.0) (state_of bytes.now r.1)) }
    ensures cursor { IfOk result (λ r. IsCursorOf bytes.now r.1) }
    ensures further { IfOk result (λ r. cursor.end < r.1.end) }
    ensures fault { IfErr result
        (λ e. (k : List Symbol) → IsFaultOf bytes.now (AtomSymbol ∷ k) (state_of bytes.now cursor) e) }
{
    let behind = take(bytes, cursor, TokenKind::Hole)?;
    Ok((
        leaf(span_from(bytes, cursor, behind), SObjForm::Hole),
        behind,
    ))
}

/// `<>`.
fn unit_at(bytes: &[u8], cursor: Cursor) -> Result<(SObj, Cursor), Stop>
    requires cursor { IsCursorOf bytes.now cursor }
    requires kind { kind_next bytes.now cursor ≡ TokenKind.UnitSign }
    ensures read { IfOk result (λ r. IsAtom (state_of bytes.now cursor) (object_tree r.0) (state_of bytes.now r.1)) }
    ensures cursor { IfOk result (λ r. IsCursorOf bytes.now r.1) }
    ensures further { IfOk result (λ r. cursor.end < r.1.end) }
    ensures fault { IfErr result
        (λ e. (k : List Symbol) → IsFaultOf bytes.now (AtomSymbol ∷ k) (state_of bytes.now cursor) e) }
{
    let behind = take(bytes, cursor, TokenKind::UnitSign)?;
    Ok((
        leaf(span_from(bytes, cursor, behind), SObjForm::Unit),
        behind,
    ))
}

/// A pair of objects.
#[cycle(objects)]
fn pair_at(alloc: Global, bytes: &[u8], cursor: Cursor) -> Result<(SObj, Cursor), Stop>
    requires cursor { IsCursorOf bytes.now cursor }
    requires kind { kind_next bytes.now cursor ≡ TokenKind.Less }
    ensures read { IfOk result (λ r. IsAtom (state_of bytes.now cursor) (object_tree r.0) (state_of bytes.now r.1)) }
    ensures cursor { IfOk result (λ r. IsCursorOf bytes.now r.1) }
    ensures further { IfOk result (λ r. cursor.end < r.1.end) }
    ensures fault { IfErr result
        (λ e. (k : List Symbol) → IsFaultOf bytes.now (AtomSymbol ∷ k) (state_of bytes.now cursor) e) }
{
    let opened = open(bytes, cursor, TokenKind::Less)?;
    let (left, separator) = object_at(alloc, bytes, opened)?;
    let left_half = Boxed::new(alloc, left)?;
    let next = take(bytes, separator, TokenKind::Comma)?;
    let (right, last) = object_at(alloc, bytes, next)?;
    let right_half = Boxed::new(alloc, right)?;
    let behind = close(bytes, cursor, last, TokenKind::Greater)?;
    let span = span_from(bytes, cursor, behind);
    Ok((pair(span, left_half, right_half), behind))
}

/// An expression in braces.
#[cycle(objects)]
fn braces_at(alloc: Global, bytes: &[u8], cursor: Cursor) -> Result<(SObj, Cursor), Stop>
    requires cursor { IsCursorOf bytes.now cursor }
    requires kind { kind_next bytes.now cursor ≡ TokenKind.LeftBrace }
    ensures read { IfOk result (λ r. IsAtom (state_of bytes.now cursor) (object_tree r.0) (state_of bytes.now r.1)) }
    ensures cursor { IfOk result (λ r. IsCursorOf bytes.now r.1) }
    ensures further { IfOk result (λ r. cursor.end < r.1.end) }
    ensures fault { IfErr result
        (λ e. (k : List Symbol) → IsFaultOf bytes.now (AtomSymbol ∷ k) (state_of bytes.now cursor) e) }
{
    let opened = open(bytes, cursor, TokenKind::LeftBrace)?;
    let (expr, last) = expression_at(alloc, bytes, opened)?;
    let inside = Boxed::new(alloc, expr)?;
    let behind = close(bytes, cursor, last, TokenKind::RightBrace)?;
    let span = span_from(bytes, cursor, behind);
    Ok((braces(span, inside), behind))
}

/// An object in parentheses, which leave no form.
#[cycle(objects)]
fn group_at(alloc: Global, bytes: &[u8], cursor: Cursor) -> Result<(SObj, Cursor), Stop>
    requires cursor { IsCursorOf bytes.now cursor }
    requires kind { kind_next bytes.now cursor ≡ TokenKind.LeftParen }
    ensures read { IfOk result (λ r. IsAtom (state_of bytes.now cursor) (object_tree r.0) (state_of bytes.now r.1)) }
    ensures cursor { IfOk result (λ r. IsCursorOf bytes.now r.1) }
    ensures further { IfOk result (λ r. cursor.end < r.1.end) }
    ensures fault { IfErr result
        (λ e. (k : List Symbol) → IsFaultOf bytes.now (AtomSymbol ∷ k) (state_of bytes.now cursor) e) }
{
    let opened = open(bytes, cursor, TokenKind::LeftParen)?;
    let (inside, last) = object_at(alloc, bytes, opened)?;
    match close(bytes, cursor, last, TokenKind::RightParen) {
        Ok(behind) => Ok((inside, behind)),
        Err(stop) => {
            // By a call: dropped here, each form of the object would be a case of this function.
            drop(inside);
            Err(stop)
        }
    }
}

/// The first projection of an atom. Its part ends with that atom.
#[cycle(objects)]
fn first_at(alloc: Global, bytes: &[u8], cursor: Cursor) -> Result<(SObj, Cursor), Stop>
    requires cursor { IsCursorOf bytes.now cursor }
    requires kind { kind_next bytes.now cursor ≡ TokenKind.Proj1 }
    ensures read { IfOk result (λ r. IsAtom (state_of bytes.now cursor) (object_tree r.0) (state_of bytes.now r.1)) }
    ensures cursor { IfOk result (λ r. IsCursorOf bytes.now r.1) }
    ensures further { IfOk result (λ r. cursor.end < r.1.end) }
    ensures fault { IfErr result
        (λ e. (k : List Symbol) → IsFaultOf bytes.now (AtomSymbol ∷ k) (state_of bytes.now cursor) e) }
{
    let opened = open(bytes, cursor, TokenKind::Proj1)?;
    let (body, last) = atom_at(alloc, bytes, opened)?;
    let behind = end_part(bytes, cursor, last);
    let span = span_from(bytes, cursor, behind);
    Ok((first(alloc, span, body)?, behind))
}

/// The second projection of an atom. Its part ends with that atom.
#[cycle(objects)]
fn second_at(alloc: Global, bytes: &[u8], cursor: Cursor) -> Result<(SObj, Cursor), Stop>
    requires cursor { IsCursorOf bytes.now cursor }
    requires kind { kind_next bytes.now cursor ≡ TokenKind.Proj2 }
    ensures read { IfOk result (λ r. IsAtom (state_of bytes.now cursor) (object_tree r.0) (state_of bytes.now r.1)) }
    ensures cursor { IfOk result (λ r. IsCursorOf bytes.now r.1) }
    ensures further { IfOk result (λ r. cursor.end < r.1.end) }
    ensures fault { IfErr result
        (λ e. (k : List Symbol) → IsFaultOf bytes.now (AtomSymbol ∷ k) (state_of bytes.now cursor) e) }
{
    let opened = open(bytes, cursor, TokenKind::Proj2)?;
    let (body, last) = atom_at(alloc, bytes, opened)?;
    let behind = end_part(bytes, cursor, last);
    let span = span_from(bytes, cursor, behind);
    Ok((second(alloc, span, body)?, behind))
}
