//! What items say: declarations and directives, without their full stop.
ghost use Rattle.std.specs.Prelude.{◌≡◌, ◌≢◌, ◌<◌, IfOk, IfErr, codes, List, ◌∷◌};
ghost use Rattle.celf_surface.specs.Surface.{body_of, object_tree, surface};
ghost use Rattle.celf_grammar.specs.State.{State, TakesDirective};
ghost use Rattle.celf_grammar.specs.Grammar.{IsBody, IsObject, IsType};
ghost use Rattle.celf_grammar.specs.Machine.{Symbol, Expect, Whole, Bound as BoundSymbol, Object as ObjectSymbol, Body as BodySymbol};
ghost use Rattle.celf_cursor.specs.Cursor.{IsCursorOf, state_of, kind_next};
ghost use Rattle.celf_cursor.specs.Faults.{IsFaultOf};
ghost use Rattle.celf_parser.specs.Fault.{IsItemFault};
ghost use Rattle.celf_parser.specs.Place.{HasDeclarableName};

use crate::bound::{bound_at, implicit_at};
use crate::fault::{SyntaxFault, unknown_directive};
use crate::types::type_at;
use celf_cursor::{Cursor, Stop, kind_of_next, take, take_directive, take_name};
use celf_lexer::TokenKind;
use celf_objects::object_at;
use celf_surface::{ItemBody, SObj, SType};
use sqlite_items::Boxed;
use std::alloc::Global;

/// A declaration or a directive.
pub fn body_at(
    alloc: Global,
    bytes: &[u8],
    cursor: Cursor,
) -> Result<(ItemBody, Cursor), SyntaxFault>
    requires cursor { IsCursorOf bytes.now cursor }
    ensures read { IfOk result (λ r. IsBody (state_of bytes.now cursor) (body_of r.0) (state_of bytes.now r.1)) }
    ensures name { IfOk result (λ r. HasDeclarableName (body_of r.0)) }
    ensures cursor { IfOk result (λ r. IsCursorOf bytes.now r.1) }
    ensures further { IfOk result (λ r. cursor.end < r.1.end) }
    ensures fault { IfErr result
        (λ f. (k : List Symbol) → IsItemFault bytes.now (BodySymbol ∷ k) (state_of bytes.now cursor) f) }
{
    match kind_of_next(bytes, cursor) {
        TokenKind::Directive => directive_at(alloc, bytes, cursor),
        _ => Ok(declaration_at(alloc, bytes, cursor)?),
    }
}

/// A type, out of its box.
fn item_type_at(alloc: Global, bytes: &[u8], cursor: Cursor) -> Result<(SType, Cursor), Stop>
    requires cursor { IsCursorOf bytes.now cursor }
    ensures read { IfOk result (λ r. IsType (state_of bytes.now cursor) (surface r.0) (state_of bytes.now r.1)) }
    ensures cursor { IfOk result (λ r. IsCursorOf bytes.now r.1) }
    ensures further { IfOk result (λ r. cursor.end < r.1.end) }
    ensures fault { IfErr result
        (λ e. (k : List Symbol) → IsFaultOf bytes.now (Whole ∷ k) (state_of bytes.now cursor) e) }
{
    let (ty, end) = type_at(alloc, bytes, cursor)?;
    Ok((ty.into_inner(), end))
}

/// An object in a box. There it is dropped by a call: dropped in place, each of its forms would be a case of the
/// function that reads on.
fn boxed_object_at(
    alloc: Global,
    bytes: &[u8],
    cursor: Cursor,
) -> Result<(Boxed<SObj>, Cursor), Stop>
    requires cursor { IsCursorOf bytes.now cursor }
    ensures read { IfOk result (λ r. IsObject (state_of bytes.now cursor) (object_tree r.0) (state_of bytes.now r.1)) }
    ensures cursor { IfOk result (λ r. IsCursorOf bytes.now r.1) }
    ensures further { IfOk result (λ r. cursor.end < r.1.end) }
    ensures fault { IfErr result
        (λ e. (k : List Symbol) → IsFaultOf bytes.now (ObjectSymbol ∷ k) (state_of bytes.now cursor) e) }
{
    let (obj, end) = object_at(alloc, bytes, cursor)?;
    Ok((Boxed::new(alloc, obj)?, end))
}

/// `NAME : type`, or `NAME : [n] type`.
#[tactic(auto, using(crate::proofs::Names::name_steps))]
fn declaration_at(alloc: Global, bytes: &[u8], cursor: Cursor) -> Result<(ItemBody, Cursor), Stop>
    requires cursor { IsCursorOf bytes.now cursor }
    requires kind { kind_next bytes.now cursor ≢ TokenKind.Directive }
    ensures read { IfOk result (λ r. IsBody (state_of bytes.now cursor) (body_of r.0) (state_of bytes.now r.1)) }
    ensures name { IfOk result (λ r. HasDeclarableName (body_of r.0)) }
    ensures cursor { IfOk result (λ r. IsCursorOf bytes.now r.1) }
    ensures further { IfOk result (λ r. cursor.end < r.1.end) }
    ensures fault { IfErr result
        (λ e. (k : List Symbol) → IsFaultOf bytes.now (BodySymbol ∷ k) (state_of bytes.now cursor) e) }
{
    let (name, behind) = take_name(alloc, bytes, cursor)?;
    let colon = take(bytes, behind, TokenKind::Colon)?;
    let (implicit, count) = implicit_at(bytes, colon)?;
    let (ty, end) = item_type_at(alloc, bytes, count)?;
    Ok((ItemBody::Declare { name, implicit, ty }, end))
}

/// A directive.
fn directive_at(
    alloc: Global,
    bytes: &[u8],
    cursor: Cursor,
) -> Result<(ItemBody, Cursor), SyntaxFault>
    requires cursor { IsCursorOf bytes.now cursor }
    requires kind { kind_next bytes.now cursor ≡ TokenKind.Directive }
    ensures read { IfOk result (λ r. IsBody (state_of bytes.now cursor) (body_of r.0) (state_of bytes.now r.1)) }
    ensures name { IfOk result (λ r. HasDeclarableName (body_of r.0)) }
    ensures cursor { IfOk result (λ r. IsCursorOf bytes.now r.1) }
    ensures further { IfOk result (λ r. cursor.end < r.1.end) }
    ensures fault { IfErr result
        (λ f. (k : List Symbol) → IsItemFault bytes.now (BodySymbol ∷ k) (state_of bytes.now cursor) f) }
{
    if let Ok(word) = take_directive(bytes, cursor, "#query") {
        return Ok(query_at(alloc, bytes, word)?);
    }
    if let Ok(word) = take_directive(bytes, cursor, "#trace") {
        return Ok(trace_at(alloc, bytes, word)?);
    }
    if let Ok(word) = take_directive(bytes, cursor, "#equal") {
        return Ok(equal_at(alloc, bytes, word)?);
    }
    if let Ok(word) = take_directive(bytes, cursor, "#check") {
        return Ok(check_at(alloc, bytes, word)?);
    }
    Err(unknown_directive(cursor))
}

/// `d e l a type` after `#query`.
fn query_at(alloc: Global, bytes: &[u8], cursor: Cursor) -> Result<(ItemBody, Cursor), Stop>
    requires cursor { IsCursorOf bytes.now cursor }
    ensures read { IfOk result (λ r.
        (s : State) → TakesDirective (codes "#query") s (state_of bytes.now cursor) →
        IsBody s (body_of r.0) (state_of bytes.now r.1)) }
    ensures name { IfOk result (λ r. HasDeclarableName (body_of r.0)) }
    ensures cursor { IfOk result (λ r. IsCursorOf bytes.now r.1) }
    ensures further { IfOk result (λ r. cursor.end < r.1.end) }
    ensures fault { IfErr result (λ e.
        (k : List Symbol) →
        IsFaultOf bytes.now (BoundSymbol ∷ BoundSymbol ∷ BoundSymbol ∷ BoundSymbol ∷ Whole ∷ k)
        (state_of bytes.now cursor) e) }
{
    let (d, behind_d) = bound_at(bytes, cursor)?;
    let (e, behind_e) = bound_at(bytes, behind_d)?;
    let (l, behind_l) = bound_at(bytes, behind_e)?;
    let (a, behind_a) = bound_at(bytes, behind_l)?;
    let (ty, end) = item_type_at(alloc, bytes, behind_a)?;
    Ok((ItemBody::Query { d, e, l, a, ty }, end))
}

/// `n type` after `#trace`.
fn trace_at(alloc: Global, bytes: &[u8], cursor: Cursor) -> Result<(ItemBody, Cursor), Stop>
    requires cursor { IsCursorOf bytes.now cursor }
    ensures read { IfOk result (λ r.
        (s : State) → TakesDirective (codes "#trace") s (state_of bytes.now cursor) →
        IsBody s (body_of r.0) (state_of bytes.now r.1)) }
    ensures name { IfOk result (λ r. HasDeclarableName (body_of r.0)) }
    ensures cursor { IfOk result (λ r. IsCursorOf bytes.now r.1) }
    ensures further { IfOk result (λ r. cursor.end < r.1.end) }
    ensures fault { IfErr result
        (λ e. (k : List Symbol) → IsFaultOf bytes.now (BoundSymbol ∷ Whole ∷ k) (state_of bytes.now cursor) e) }
{
    let (n, behind) = bound_at(bytes, cursor)?;
    let (ty, end) = item_type_at(alloc, bytes, behind)?;
    Ok((ItemBody::Trace { n, ty }, end))
}

/// `obj = obj : type` after `#equal`.
fn equal_at(alloc: Global, bytes: &[u8], cursor: Cursor) -> Result<(ItemBody, Cursor), Stop>
    requires cursor { IsCursorOf bytes.now cursor }
    ensures read { IfOk result (λ r.
        (s : State) → TakesDirective (codes "#equal") s (state_of bytes.now cursor) →
        IsBody s (body_of r.0) (state_of bytes.now r.1)) }
    ensures name { IfOk result (λ r. HasDeclarableName (body_of r.0)) }
    ensures cursor { IfOk result (λ r. IsCursorOf bytes.now r.1) }
    ensures further { IfOk result (λ r. cursor.end < r.1.end) }
    ensures fault { IfErr result (λ e.
        (k : List Symbol) →
        IsFaultOf bytes.now
        (ObjectSymbol ∷ Expect TokenKind.Equals ∷ ObjectSymbol ∷ Expect TokenKind.Colon ∷ Whole ∷ k)
        (state_of bytes.now cursor) e) }
{
    let (left, behind_left) = boxed_object_at(alloc, bytes, cursor)?;
    let equals = take(bytes, behind_left, TokenKind::Equals)?;
    let (right, behind_right) = boxed_object_at(alloc, bytes, equals)?;
    let colon = take(bytes, behind_right, TokenKind::Colon)?;
    let (ty, end) = item_type_at(alloc, bytes, colon)?;
    let (left, right) = (left.into_inner(), right.into_inner());
    Ok((ItemBody::Equal { left, right, ty }, end))
}

/// `obj : type` after `#check`.
fn check_at(alloc: Global, bytes: &[u8], cursor: Cursor) -> Result<(ItemBody, Cursor), Stop>
    requires cursor { IsCursorOf bytes.now cursor }
    ensures read { IfOk result (λ r.
        (s : State) → TakesDirective (codes "#check") s (state_of bytes.now cursor) →
        IsBody s (body_of r.0) (state_of bytes.now r.1)) }
    ensures name { IfOk result (λ r. HasDeclarableName (body_of r.0)) }
    ensures cursor { IfOk result (λ r. IsCursorOf bytes.now r.1) }
    ensures further { IfOk result (λ r. cursor.end < r.1.end) }
    ensures fault { IfErr result (λ e.
        (k : List Symbol) →
        IsFaultOf bytes.now (ObjectSymbol ∷ Expect TokenKind.Colon ∷ Whole ∷ k) (state_of bytes.now cursor) e) }
{
    let (obj, behind) = boxed_object_at(alloc, bytes, cursor)?;
    let colon = take(bytes, behind, TokenKind::Colon)?;
    let (ty, end) = item_type_at(alloc, bytes, colon)?;
    let obj = obj.into_inner();
    Ok((ItemBody::Check { obj, ty }, end))
}
