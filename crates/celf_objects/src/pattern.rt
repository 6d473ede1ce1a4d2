//! Patterns.
ghost use Rattle.std.specs.Prelude.{◌≡◌, ◌≢◌, ◌<◌, IfOk, IfErr, List, ◌∷◌, map};
ghost use Rattle.celf_grammar.specs.Machine.{Symbol, Pattern as PatternSymbol, PatternTail as PatternTailSymbol};
ghost use Rattle.celf_cursor.specs.Faults.{IsFaultOf};
ghost use Rattle.celf_surface.specs.Surface.{pattern_tree};
ghost use Rattle.celf_grammar.specs.Grammar.{IsPattern, IsPatterns, is_comma as is_comma_kind};
ghost use Rattle.celf_grammar.specs.State.{Ends};
ghost use Rattle.celf_cursor.specs.Cursor.{IsCursorOf, state_of, kind_next};

use crate::binder::{binder_at, mark_at};
use crate::kinds::is_comma;
use celf_cursor::{Cursor, Stop, close, kind_of_next, open, take, take_one};
use celf_lexer::TokenKind;
use celf_surface::SPat;
use sqlite_items::Items;
use std::alloc::Global;

/// A pattern: `1`, an entry or a list.
#[cycle(patterns)]
pub fn pattern_at(alloc: Global, bytes: &[u8], cursor: Cursor) -> Result<(SPat, Cursor), Stop>
    requires cursor { IsCursorOf bytes.now cursor }
    ensures read { IfOk result
        (λ r. IsPattern (state_of bytes.now cursor) (pattern_tree r.0) (state_of bytes.now r.1)) }
    ensures cursor { IfOk result (λ r. IsCursorOf bytes.now r.1) }
    ensures further { IfOk result (λ r. cursor.end < r.1.end) }
    ensures fault { IfErr result
        (λ e. (k : List Symbol) → IsFaultOf bytes.now (PatternSymbol ∷ k) (state_of bytes.now cursor) e) }
{
    match kind_of_next(bytes, cursor) {
        TokenKind::Number => {
            let behind = take_one(bytes, cursor)?;
            Ok((SPat::One, behind))
        }
        TokenKind::LeftBracket => pattern_list_at(alloc, bytes, cursor),
        _ => pattern_entry_at(alloc, bytes, cursor),
    }
}

/// An entry of a pattern.
fn pattern_entry_at(alloc: Global, bytes: &[u8], cursor: Cursor) -> Result<(SPat, Cursor), Stop>
    requires cursor { IsCursorOf bytes.now cursor }
    requires not_one { kind_next bytes.now cursor ≢ TokenKind.Number }
    requires no_list { kind_next bytes.now cursor ≢ TokenKind.LeftBracket }
    ensures read { IfOk result
        (λ r. IsPattern (state_of bytes.now cursor) (pattern_tree r.0) (state_of bytes.now r.1)) }
    ensures cursor { IfOk result (λ r. IsCursorOf bytes.now r.1) }
    ensures further { IfOk result (λ r. cursor.end < r.1.end) }
    ensures fault { IfErr result
        (λ e. (k : List Symbol) → IsFaultOf bytes.now (PatternSymbol ∷ k) (state_of bytes.now cursor) e) }
{
    let (mode, marked) = mark_at(bytes, cursor)?;
    let (name, behind) = binder_at(alloc, bytes, marked)?;
    Ok((SPat::Entry { mode, name }, behind))
}

/// A list of patterns in brackets.
#[cycle(patterns)]
fn pattern_list_at(alloc: Global, bytes: &[u8], cursor: Cursor) -> Result<(SPat, Cursor), Stop>
    requires cursor { IsCursorOf bytes.now cursor }
    requires kind { kind_next bytes.now cursor ≡ TokenKind.LeftBracket }
    ensures read { IfOk result
        (λ r. IsPattern (state_of bytes.now cursor) (pattern_tree r.0) (state_of bytes.now r.1)) }
    ensures cursor { IfOk result (λ r. IsCursorOf bytes.now r.1) }
    ensures further { IfOk result (λ r. cursor.end < r.1.end) }
    ensures fault { IfErr result
        (λ e. (k : List Symbol) → IsFaultOf bytes.now (PatternSymbol ∷ k) (state_of bytes.now cursor) e) }
{
    let opened = open(bytes, cursor, TokenKind::LeftBracket)?;
    let (patterns, last) = patterns_at(alloc, bytes, opened)?;
    let behind = close(bytes, cursor, last, TokenKind::RightBracket)?;
    Ok((SPat::List(patterns), behind))
}

/// Patterns with commas between them.
#[cycle(patterns)]
fn patterns_at(alloc: Global, bytes: &[u8], cursor: Cursor) -> Result<(Items<SPat>, Cursor), Stop>
    requires cursor { IsCursorOf bytes.now cursor }
    ensures read { IfOk result
        (λ r. IsPatterns (state_of bytes.now cursor) (map pattern_tree r.0) (state_of bytes.now r.1)) }
    ensures ends { IfOk result (λ r. Ends is_comma_kind (state_of bytes.now r.1)) }
    ensures cursor { IfOk result (λ r. IsCursorOf bytes.now r.1) }
    ensures further { IfOk result (λ r. cursor.end < r.1.end) }
    ensures fault { IfErr result (λ e.
        (k : List Symbol) →
        IsFaultOf bytes.now (PatternSymbol ∷ PatternTailSymbol ∷ k) (state_of bytes.now cursor) e) }
{
    let mut patterns = Items::new(alloc);
    let (first, behind) = pattern_at(alloc, bytes, cursor)?;
    patterns.push(first)?;
    let mut last = behind;
    while is_comma(kind_of_next(bytes, last)) {
        let next = take(bytes, last, TokenKind::Comma)?;
        let (pattern, behind) = pattern_at(alloc, bytes, next)?;
        patterns.push(pattern)?;
        last = behind;
    }
    Ok((patterns, last))
}
