//! Arguments and indices.
ghost use Rattle.std.specs.Prelude.{IfErr, List, ◌∷◌, ◌<◌, ◌≤◌, IfOk, map};
ghost use Rattle.celf_grammar.specs.Machine.{Symbol, Arguments as ArgumentsSymbol, Index as IndexSymbol, Indices as IndicesSymbol};
ghost use Rattle.celf_cursor.specs.Faults.{IsFaultOf};
ghost use Rattle.celf_surface.specs.Surface.{argument_tree, object_tree};
ghost use Rattle.celf_grammar.specs.Grammar.{IsArguments, IsIndex, IsIndices, begins_argument as begins_argument_kind, begins_index as begins_index_kind};
ghost use Rattle.celf_grammar.specs.State.{Ends};
ghost use Rattle.celf_cursor.specs.Cursor.{IsCursorOf, state_of};

use crate::atom::atom_at;
use crate::binder::mark_at;
use crate::kinds::{begins_argument, begins_index};
use celf_cursor::{Cursor, Stop, kind_of_next, take};
use celf_lexer::TokenKind;
use celf_surface::{SArg, SObj};
use sqlite_items::Items;
use std::alloc::Global;

/// The arguments that follow, as many as there are.
#[cycle(objects)]
pub(crate) fn arguments_at(
    alloc: Global,
    bytes: &[u8],
    cursor: Cursor,
) -> Result<(Items<SArg>, Cursor), Stop>
    requires cursor { IsCursorOf bytes.now cursor }
    ensures read { IfOk result
        (λ r. IsArguments (state_of bytes.now cursor) (map argument_tree r.0) (state_of bytes.now r.1)) }
    ensures ends { IfOk result (λ r. Ends begins_argument_kind (state_of bytes.now r.1)) }
    ensures cursor { IfOk result (λ r. IsCursorOf bytes.now r.1) }
    ensures further { IfOk result (λ r. cursor.end ≤ r.1.end) }
    ensures fault { IfErr result
        (λ e. (k : List Symbol) → IsFaultOf bytes.now (ArgumentsSymbol ∷ k) (state_of bytes.now cursor) e) }
{
    let mut args = Items::new(alloc);
    let mut last = cursor;
    while begins_argument(kind_of_next(bytes, last)) {
        let (mode, marked) = mark_at(bytes, last)?;
        let (obj, behind) = atom_at(alloc, bytes, marked)?;
        args.push(SArg { mode, obj })?;
        last = behind;
    }
    Ok((args, last))
}

/// An index: an atom, which may have a `!`.
fn index_at(alloc: Global, bytes: &[u8], cursor: Cursor) -> Result<(SObj, Cursor), Stop>
    requires cursor { IsCursorOf bytes.now cursor }
    ensures read { IfOk result (λ r. IsIndex (state_of bytes.now cursor) (object_tree r.0) (state_of bytes.now r.1)) }
    ensures cursor { IfOk result (λ r. IsCursorOf bytes.now r.1) }
    ensures further { IfOk result (λ r. cursor.end < r.1.end) }
    ensures fault { IfErr result
        (λ e. (k : List Symbol) → IsFaultOf bytes.now (IndexSymbol ∷ k) (state_of bytes.now cursor) e) }
{
    match kind_of_next(bytes, cursor) {
        TokenKind::Bang => atom_at(alloc, bytes, take(bytes, cursor, TokenKind::Bang)?),
        _ => atom_at(alloc, bytes, cursor),
    }
}

/// The indices that follow, as many as there are.
pub fn indices_at(
    alloc: Global,
    bytes: &[u8],
    cursor: Cursor,
) -> Result<(Items<SObj>, Cursor), Stop>
    requires cursor { IsCursorOf bytes.now cursor }
    ensures read { IfOk result
        (λ r. IsIndices (state_of bytes.now cursor) (map object_tree r.0) (state_of bytes.now r.1)) }
    ensures ends { IfOk result (λ r. Ends begins_index_kind (state_of bytes.now r.1)) }
    ensures cursor { IfOk result (λ r. IsCursorOf bytes.now r.1) }
    ensures further { IfOk result (λ r. cursor.end ≤ r.1.end) }
    ensures fault { IfErr result
        (λ e. (k : List Symbol) → IsFaultOf bytes.now (IndicesSymbol ∷ k) (state_of bytes.now cursor) e) }
{
    let mut indices = Items::new(alloc);
    let mut last = cursor;
    while begins_index(kind_of_next(bytes, last)) {
        let (index, behind) = index_at(alloc, bytes, last)?;
        indices.push(index)?;
        last = behind;
    }
    Ok((indices, last))
}
