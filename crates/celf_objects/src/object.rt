//! Objects.
ghost use Rattle.std.specs.Prelude.{◌≡◌, ◌≢◌, IfErr, List, ◌∷◌, ◌<◌, IfOk};
ghost use Rattle.celf_grammar.specs.Machine.{Symbol, Object as ObjectSymbol, Application as ApplicationSymbol};
ghost use Rattle.celf_cursor.specs.Faults.{IsFaultOf};
ghost use Rattle.celf_surface.specs.Surface.{object_tree};
ghost use Rattle.celf_grammar.specs.Grammar.{IsObject, IsApplication};
ghost use Rattle.celf_cursor.specs.Cursor.{IsCursorOf, state_of, kind_next};

use crate::arguments::arguments_at;
use crate::atom::atom_at;
use crate::binder::{binder_at, mark_at};
use crate::trees::{applied, lambda};
use celf_cursor::{Cursor, Stop, kind_of_next, open, span_from, take};
use celf_lexer::TokenKind;
use celf_surface::SObj;
use std::alloc::Global;

/// An object: a lambda or an application.
#[cycle(objects)]
pub fn object_at(alloc: Global, bytes: &[u8], cursor: Cursor) -> Result<(SObj, Cursor), Stop>
    requires cursor { IsCursorOf bytes.now cursor }
    ensures read { IfOk result (λ r. IsObject (state_of bytes.now cursor) (object_tree r.0) (state_of bytes.now r.1)) }
    ensures cursor { IfOk result (λ r. IsCursorOf bytes.now r.1) }
    ensures further { IfOk result (λ r. cursor.end < r.1.end) }
    ensures fault { IfErr result
        (λ e. (k : List Symbol) → IsFaultOf bytes.now (ObjectSymbol ∷ k) (state_of bytes.now cursor) e) }
{
    match kind_of_next(bytes, cursor) {
        TokenKind::Backslash => lambda_at(alloc, bytes, cursor),
        _ => applied_object_at(alloc, bytes, cursor),
    }
}

/// A lambda, whose part lasts to the end of the part around it.
#[cycle(objects)]
fn lambda_at(alloc: Global, bytes: &[u8], cursor: Cursor) -> Result<(SObj, Cursor), Stop>
    requires cursor { IsCursorOf bytes.now cursor }
    requires kind { kind_next bytes.now cursor ≡ TokenKind.Backslash }
    ensures read { IfOk result (λ r. IsObject (state_of bytes.now cursor) (object_tree r.0) (state_of bytes.now r.1)) }
    ensures cursor { IfOk result (λ r. IsCursorOf bytes.now r.1) }
    ensures further { IfOk result (λ r. cursor.end < r.1.end) }
    ensures fault { IfErr result
        (λ e. (k : List Symbol) → IsFaultOf bytes.now (ObjectSymbol ∷ k) (state_of bytes.now cursor) e) }
{
    let opened = open(bytes, cursor, TokenKind::Backslash)?;
    let (mode, marked) = mark_at(bytes, opened)?;
    let (name, named) = binder_at(alloc, bytes, marked)?;
    let dotted = take(bytes, named, TokenKind::Stop)?;
    let (body, behind) = object_at(alloc, bytes, dotted)?;
    let span = span_from(bytes, cursor, behind);
    Ok((lambda(alloc, span, mode, name, body)?, behind))
}

/// An application as an object.
#[cycle(objects)]
fn applied_object_at(alloc: Global, bytes: &[u8], cursor: Cursor) -> Result<(SObj, Cursor), Stop>
    requires cursor { IsCursorOf bytes.now cursor }
    requires no_lambda { kind_next bytes.now cursor ≢ TokenKind.Backslash }
    ensures read { IfOk result (λ r. IsObject (state_of bytes.now cursor) (object_tree r.0) (state_of bytes.now r.1)) }
    ensures cursor { IfOk result (λ r. IsCursorOf bytes.now r.1) }
    ensures further { IfOk result (λ r. cursor.end < r.1.end) }
    ensures fault { IfErr result
        (λ e. (k : List Symbol) → IsFaultOf bytes.now (ObjectSymbol ∷ k) (state_of bytes.now cursor) e) }
{
    application_at(alloc, bytes, cursor)
}

/// An application: an atom, and the arguments that follow it.
#[cycle(objects)]
pub fn application_at(alloc: Global, bytes: &[u8], cursor: Cursor) -> Result<(SObj, Cursor), Stop>
    requires cursor { IsCursorOf bytes.now cursor }
    ensures read { IfOk result
        (λ r. IsApplication (state_of bytes.now cursor) (object_tree r.0) (state_of bytes.now r.1)) }
    ensures cursor { IfOk result (λ r. IsCursorOf bytes.now r.1) }
    ensures further { IfOk result (λ r. cursor.end < r.1.end) }
    ensures fault { IfErr result
        (λ e. (k : List Symbol) → IsFaultOf bytes.now (ApplicationSymbol ∷ k) (state_of bytes.now cursor) e) }
{
    let (head, called) = atom_at(alloc, bytes, cursor)?;
    match arguments_at(alloc, bytes, called) {
        Ok((args, behind)) => {
            let span = span_from(bytes, cursor, behind);
            Ok((applied(alloc, span, head, args)?, behind))
        }
        Err(stop) => {
            // By a call: dropped here, each form of the head would be a case of this function.
            drop(head);
            Err(stop)
        }
    }
}
