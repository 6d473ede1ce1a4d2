//! Tuples.
ghost use Rattle.std.specs.Prelude.{◌≡◌, ◌≢◌, IfErr, List, ◌∷◌, ◌<◌, IfOk, map};
ghost use Rattle.celf_grammar.specs.Machine.{Symbol, Tuple as TupleSymbol, TupleTail as TupleTailSymbol};
ghost use Rattle.celf_cursor.specs.Faults.{IsFaultOf};
ghost use Rattle.celf_surface.specs.Surface.{tuple_tree};
ghost use Rattle.celf_grammar.specs.Grammar.{IsTuple, IsTuples, is_comma as is_comma_kind};
ghost use Rattle.celf_grammar.specs.State.{Ends};
ghost use Rattle.celf_cursor.specs.Cursor.{IsCursorOf, state_of, kind_next};

use crate::atom::atom_at;
use crate::kinds::is_comma;
use crate::object::object_at;
use celf_cursor::{Cursor, Stop, close, kind_of_next, open, take, take_one};
use celf_lexer::TokenKind;
use celf_surface::STuple;
use clf_syntax::Mode;
use sqlite_items::Items;
use std::alloc::Global;

/// A tuple: `1`, a list, an entry with a mark or an object.
#[cycle(objects)]
pub(crate) fn tuple_at(
    alloc: Global,
    bytes: &[u8],
    cursor: Cursor,
) -> Result<(STuple, Cursor), Stop>
    requires cursor { IsCursorOf bytes.now cursor }
    ensures read { IfOk result (λ r. IsTuple (state_of bytes.now cursor) (tuple_tree r.0) (state_of bytes.now r.1)) }
    ensures cursor { IfOk result (λ r. IsCursorOf bytes.now r.1) }
    ensures further { IfOk result (λ r. cursor.end < r.1.end) }
    ensures fault { IfErr result
        (λ e. (k : List Symbol) → IsFaultOf bytes.now (TupleSymbol ∷ k) (state_of bytes.now cursor) e) }
{
    match kind_of_next(bytes, cursor) {
        TokenKind::Number => {
            let behind = take_one(bytes, cursor)?;
            Ok((STuple::One, behind))
        }
        TokenKind::LeftBracket => tuple_list_at(alloc, bytes, cursor),
        TokenKind::Bang => persistent_at(alloc, bytes, cursor),
        TokenKind::AtSign => affine_at(alloc, bytes, cursor),
        _ => bare_at(alloc, bytes, cursor),
    }
}

/// A list of tuples in brackets.
#[cycle(objects)]
fn tuple_list_at(alloc: Global, bytes: &[u8], cursor: Cursor) -> Result<(STuple, Cursor), Stop>
    requires cursor { IsCursorOf bytes.now cursor }
    requires kind { kind_next bytes.now cursor ≡ TokenKind.LeftBracket }
    ensures read { IfOk result (λ r. IsTuple (state_of bytes.now cursor) (tuple_tree r.0) (state_of bytes.now r.1)) }
    ensures cursor { IfOk result (λ r. IsCursorOf bytes.now r.1) }
    ensures further { IfOk result (λ r. cursor.end < r.1.end) }
    ensures fault { IfErr result
        (λ e. (k : List Symbol) → IsFaultOf bytes.now (TupleSymbol ∷ k) (state_of bytes.now cursor) e) }
{
    let opened = open(bytes, cursor, TokenKind::LeftBracket)?;
    let (tuples, last) = tuples_at(alloc, bytes, opened)?;
    let behind = close(bytes, cursor, last, TokenKind::RightBracket)?;
    Ok((STuple::List(tuples), behind))
}

/// A persistent entry.
#[cycle(objects)]
fn persistent_at(alloc: Global, bytes: &[u8], cursor: Cursor) -> Result<(STuple, Cursor), Stop>
    requires cursor { IsCursorOf bytes.now cursor }
    requires kind { kind_next bytes.now cursor ≡ TokenKind.Bang }
    ensures read { IfOk result (λ r. IsTuple (state_of bytes.now cursor) (tuple_tree r.0) (state_of bytes.now r.1)) }
    ensures cursor { IfOk result (λ r. IsCursorOf bytes.now r.1) }
    ensures further { IfOk result (λ r. cursor.end < r.1.end) }
    ensures fault { IfErr result
        (λ e. (k : List Symbol) → IsFaultOf bytes.now (TupleSymbol ∷ k) (state_of bytes.now cursor) e) }
{
    let marked = take(bytes, cursor, TokenKind::Bang)?;
    let (obj, behind) = atom_at(alloc, bytes, marked)?;
    let tuple = STuple::Marked {
        mode: Mode::Persistent,
        obj,
    };
    Ok((tuple, behind))
}

/// An affine entry.
#[cycle(objects)]
fn affine_at(alloc: Global, bytes: &[u8], cursor: Cursor) -> Result<(STuple, Cursor), Stop>
    requires cursor { IsCursorOf bytes.now cursor }
    requires kind { kind_next bytes.now cursor ≡ TokenKind.AtSign }
    ensures read { IfOk result (λ r. IsTuple (state_of bytes.now cursor) (tuple_tree r.0) (state_of bytes.now r.1)) }
    ensures cursor { IfOk result (λ r. IsCursorOf bytes.now r.1) }
    ensures further { IfOk result (λ r. cursor.end < r.1.end) }
    ensures fault { IfErr result
        (λ e. (k : List Symbol) → IsFaultOf bytes.now (TupleSymbol ∷ k) (state_of bytes.now cursor) e) }
{
    let marked = take(bytes, cursor, TokenKind::AtSign)?;
    let (obj, behind) = atom_at(alloc, bytes, marked)?;
    let tuple = STuple::Marked {
        mode: Mode::Affine,
        obj,
    };
    Ok((tuple, behind))
}

/// An object as a tuple.
#[cycle(objects)]
fn bare_at(alloc: Global, bytes: &[u8], cursor: Cursor) -> Result<(STuple, Cursor), Stop>
    requires cursor { IsCursorOf bytes.now cursor }
    requires no_one { kind_next bytes.now cursor ≢ TokenKind.Number }
    requires no_list { kind_next bytes.now cursor ≢ TokenKind.LeftBracket }
    requires no_persistent { kind_next bytes.now cursor ≢ TokenKind.Bang }
    requires no_affine { kind_next bytes.now cursor ≢ TokenKind.AtSign }
    ensures read { IfOk result (λ r. IsTuple (state_of bytes.now cursor) (tuple_tree r.0) (state_of bytes.now r.1)) }
    ensures cursor { IfOk result (λ r. IsCursorOf bytes.now r.1) }
    ensures further { IfOk result (λ r. cursor.end < r.1.end) }
    ensures fault { IfErr result
        (λ e. (k : List Symbol) → IsFaultOf bytes.now (TupleSymbol ∷ k) (state_of bytes.now cursor) e) }
{
    let (obj, behind) = object_at(alloc, bytes, cursor)?;
    Ok((STuple::Bare(obj), behind))
}

/// Tuples with commas between them.
#[cycle(objects)]
fn tuples_at(alloc: Global, bytes: &[u8], cursor: Cursor) -> Result<(Items<STuple>, Cursor), Stop>
    requires cursor { IsCursorOf bytes.now cursor }
    ensures read { IfOk result
        (λ r. IsTuples (state_of bytes.now cursor) (map tuple_tree r.0) (state_of bytes.now r.1)) }
    ensures ends { IfOk result (λ r. Ends is_comma_kind (state_of bytes.now r.1)) }
    ensures cursor { IfOk result (λ r. IsCursorOf bytes.now r.1) }
    ensures further { IfOk result (λ r. cursor.end < r.1.end) }
    ensures fault { IfErr result (λ e.
        (k : List Symbol) →
        IsFaultOf bytes.now (TupleSymbol ∷ TupleTailSymbol ∷ k) (state_of bytes.now cursor) e) }
{
    let mut tuples = Items::new(alloc);
    let (first, behind) = tuple_at(alloc, bytes, cursor)?;
    tuples.push(first)?;
    let mut last = behind;
    while is_comma(kind_of_next(bytes, last)) {
        let next = take(bytes, last, TokenKind::Comma)?;
        let (tuple, behind) = tuple_at(alloc, bytes, next)?;
        tuples.push(tuple)?;
        last = behind;
    }
    Ok((tuples, last))
}
