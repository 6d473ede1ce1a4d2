//! Items.
ghost use Rattle.std.specs.Prelude.{ℕ, ◌≡◌, ◌≢◌, ◌<◌, ◌≤◌, ◌+◌, List, ◌∷◌, length, drop, IfOk, IfErr, IfSome, IfNone};
ghost use Rattle.celf_lexer.specs.Gap.{gap};
ghost use Rattle.celf_lexer.specs.Tokens.{size_limit};
ghost use Rattle.celf_surface.specs.Surface.{written_item};
ghost use Rattle.celf_grammar.specs.Machine.{Symbol, Item as ItemSymbol};
ghost use Rattle.celf_cursor.specs.Cursor.{IsCursorOf, state_of};
ghost use Rattle.celf_parser.specs.Fault.{IsItemFault};
ghost use Rattle.celf_parser.specs.Place.{start_at, IsItemAt, IsFaultAt, HasDeclarableName};

use crate::body::body_at;
use crate::fault::SyntaxFault;
use celf_cursor::{Cursor, cursor_at, span_from, take};
use celf_lexer::TokenKind;
use celf_surface::Item;
use std::alloc::Global;

/// How many nested parts may be open at once.
pub const NESTING: u32 = 1000;

/// The next item of a text from a place on, or `None` where only blanks and comments are left.
pub fn next_item(alloc: Global, bytes: &[u8], at: u32) -> Result<Option<Item>, SyntaxFault>
    requires place { at ≤ length bytes.now }
    requires size { length bytes.now ≤ size_limit }
    ensures item { IfOk result (λ found. IfSome found (λ item. IsItemAt bytes.now at (written_item item))) }
    ensures behind { IfOk result
        (λ found. IfSome found (λ item. (at < item.span.end) × (item.span.end ≤ length bytes.now))) }
    ensures name { IfOk result (λ found. IfSome found (λ item. HasDeclarableName (written_item item).body)) }
    ensures none { IfOk result (λ found. IfNone found (at + gap (drop at bytes.now) ≡ length bytes.now)) }
    ensures fault { IfErr result (λ f. f ≢ SyntaxFault.NoMemory → IsFaultAt bytes.now at f) }
{
    let cursor = cursor_at(bytes, at, NESTING);
    match cursor.next {
        Ok(token) => match token.kind {
            TokenKind::End => Ok(None),
            _ => Ok(Some(item_at(alloc, bytes, cursor)?)),
        },
        Err(fault) => Err(SyntaxFault::Lex(fault)),
    }
}

/// An item with its full stop.
#[tactic(auto, using(crate::proofs::Items::item_steps, crate::proofs::BodyFaults::item_faults))]
fn item_at(alloc: Global, bytes: &[u8], cursor: Cursor) -> Result<Item, SyntaxFault>
    requires cursor { IsCursorOf bytes.now cursor }
    ensures read { IfOk result (λ item.
        (at : ℕ) → state_of bytes.now cursor ≡ start_at bytes.now at →
        IsItemAt bytes.now at (written_item item)) }
    ensures behind { IfOk result (λ item. (cursor.end < item.span.end) × (item.span.end ≤ length bytes.now)) }
    ensures name { IfOk result (λ item. HasDeclarableName (written_item item).body) }
    ensures fault { IfErr result
        (λ f. (k : List Symbol) → IsItemFault bytes.now (ItemSymbol ∷ k) (state_of bytes.now cursor) f) }
{
    let (body, behind) = body_at(alloc, bytes, cursor)?;
    match take(bytes, behind, TokenKind::Stop) {
        Ok(end) => {
            let span = span_from(bytes, cursor, end);
            Ok(Item { span, body })
        }
        Err(stop) => {
            // By a call: dropped here, each form of the tree would be a case of this function.
            drop(body);
            Err(SyntaxFault::from(stop))
        }
    }
}
