//! The arrows between types.
ghost use Rattle.std.specs.Prelude.{◌≡◌, ◌<◌, IfOk, IfErr, IfNone, IfSome, List, ◌∷◌};
ghost use Rattle.celf_grammar.specs.State.{Ends};
ghost use Rattle.celf_grammar.specs.Grammar.{forward_of as forward_of_kind, backward_of as backward_of_kind, is_forward, is_backward, OpensArrow};
ghost use Rattle.celf_grammar.specs.Machine.{Symbol, BackTail, ForwardTail};
ghost use Rattle.celf_cursor.specs.Cursor.{IsCursorOf, state_of};
ghost use Rattle.celf_cursor.specs.Faults.{IsFaultOf};

use celf_cursor::{Cursor, Stop, kind_of_next, open};
use celf_lexer::TokenKind;
use celf_surface::Arrow;

/// The arrow that groups to the right, of this kind of token.
fn forward_of(kind: TokenKind) -> Option<Arrow>
    ensures { result ≡ forward_of_kind kind }
{
    match kind {
        TokenKind::Arrow => Some(Arrow::To),
        TokenKind::Lolli => Some(Arrow::Lolli),
        TokenKind::Affine => Some(Arrow::Affine),
        _ => None,
    }
}

/// The arrow that groups to the left, of this kind of token.
fn backward_of(kind: TokenKind) -> Option<Arrow>
    ensures { result ≡ backward_of_kind kind }
{
    match kind {
        TokenKind::BackArrow => Some(Arrow::Back),
        TokenKind::BackLolli => Some(Arrow::BackLolli),
        _ => None,
    }
}

/// Takes an arrow that groups to the right, where one comes next. It opens a nested part.
#[tactic(auto, using(crate::proofs::Arrows::forward_steps, crate::proofs::TypeFaults::forward_opening_faults))]
pub fn open_forward(bytes: &[u8], cursor: Cursor) -> Result<Option<(Arrow, Cursor)>, Stop>
    requires cursor { IsCursorOf bytes.now cursor }
    ensures none { IfOk result (λ found. IfNone found (Ends is_forward (state_of bytes.now cursor))) }
    ensures opened { IfOk result (λ found.
        IfSome found
        (λ r. OpensArrow forward_of_kind r.0 (state_of bytes.now cursor) (state_of bytes.now r.1))) }
    ensures cursor { IfOk result (λ found. IfSome found (λ r. IsCursorOf bytes.now r.1)) }
    ensures further { IfOk result (λ found. IfSome found (λ r. cursor.end < r.1.end)) }
    ensures fault { IfErr result
        (λ e. (k : List Symbol) → IsFaultOf bytes.now (ForwardTail ∷ k) (state_of bytes.now cursor) e) }
{
    let kind = kind_of_next(bytes, cursor);
    let Some(arrow) = forward_of(kind) else {
        return Ok(None);
    };
    let behind = open(bytes, cursor, kind)?;
    Ok(Some((arrow, behind)))
}

/// Takes an arrow that groups to the left, where one comes next. It opens a nested part.
#[tactic(auto, using(crate::proofs::Arrows::backward_steps, crate::proofs::TypeFaults::backward_opening_faults))]
pub fn open_backward(bytes: &[u8], cursor: Cursor) -> Result<Option<(Arrow, Cursor)>, Stop>
    requires cursor { IsCursorOf bytes.now cursor }
    ensures none { IfOk result (λ found. IfNone found (Ends is_backward (state_of bytes.now cursor))) }
    ensures opened { IfOk result (λ found.
        IfSome found
        (λ r. OpensArrow backward_of_kind r.0 (state_of bytes.now cursor) (state_of bytes.now r.1))) }
    ensures cursor { IfOk result (λ found. IfSome found (λ r. IsCursorOf bytes.now r.1)) }
    ensures further { IfOk result (λ found. IfSome found (λ r. cursor.end < r.1.end)) }
    ensures fault { IfErr result
        (λ e. (k : List Symbol) → IsFaultOf bytes.now (BackTail ∷ k) (state_of bytes.now cursor) e) }
{
    let kind = kind_of_next(bytes, cursor);
    let Some(arrow) = backward_of(kind) else {
        return Ok(None);
    };
    let behind = open(bytes, cursor, kind)?;
    Ok(Some((arrow, behind)))
}
