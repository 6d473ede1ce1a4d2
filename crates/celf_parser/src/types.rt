//! Types, by recursive descent: a function for each production of the grammar.
ghost use Rattle.std.specs.Prelude.{◌≡◌, ◌≢◌, ◌<◌, IfOk, IfErr, List, ◌∷◌};
ghost use Rattle.celf_surface.specs.Surface.{surface};
ghost use Rattle.celf_grammar.specs.Grammar.{IsType, IsForward, IsSync, IsFactor, IsWith, IsTypeAtom};
ghost use Rattle.celf_grammar.specs.Machine.{Symbol, Expect, Close, NameWord, Whole, Forward, Sync, Factor as FactorSymbol, With, TypeAtom};
ghost use Rattle.celf_cursor.specs.Cursor.{IsCursorOf, state_of, kind_next};
ghost use Rattle.celf_cursor.specs.Faults.{IsFaultOf};
ghost use Rattle.celf_parser.specs.Going.{OpensOn, TakesOn};
ghost use Rattle.celf_parser.specs.Enclosed.{Binds, Encloses, IsMarked};

use crate::arrow::{open_backward, open_forward};
use crate::form;
use crate::leaf::{family_at, one_at, top_at, word_at};
use crate::product::{Factor, product};
use celf_cursor::{Cursor, Stop, close, kind_of_next, open, open_star, span_from, take, take_name};
use celf_lexer::TokenKind;
use celf_surface::SType;
use clf_syntax::{Mode, Name};
use sqlite_items::{Boxed, Items};
use std::alloc::Global;

/// A type: forward types with back arrows between them, which group to the left.
#[cycle(types)]
#[tactic(auto, using(crate::proofs::Reading::type_steps, crate::proofs::TypeFaults::type_faults))]
pub fn type_at(alloc: Global, bytes: &[u8], cursor: Cursor) -> Result<(Boxed<SType>, Cursor), Stop>
    requires cursor { IsCursorOf bytes.now cursor }
    ensures read { IfOk result (λ r. IsType (state_of bytes.now cursor) (surface r.0) (state_of bytes.now r.1)) }
    ensures cursor { IfOk result (λ r. IsCursorOf bytes.now r.1) }
    ensures further { IfOk result (λ r. cursor.end < r.1.end) }
    ensures fault { IfErr result
        (λ e. (k : List Symbol) → IsFaultOf bytes.now (Whole ∷ k) (state_of bytes.now cursor) e) }
{
    let (mut left, mut behind) = forward_at(alloc, bytes, cursor)?;
    while let Some((arrow, sign)) = open_backward(bytes, behind)? {
        let (right, end) = forward_at(alloc, bytes, sign)?;
        left = form::arrow(alloc, span_from(bytes, cursor, end), arrow, left, right)?;
        behind = end;
    }
    Ok((left, behind))
}

/// A `Pi` type, or a product with perhaps an arrow and a forward type after it.
#[cycle(types)]
fn forward_at(alloc: Global, bytes: &[u8], cursor: Cursor) -> Result<(Boxed<SType>, Cursor), Stop>
    requires cursor { IsCursorOf bytes.now cursor }
    ensures read { IfOk result (λ r. IsForward (state_of bytes.now cursor) (surface r.0) (state_of bytes.now r.1)) }
    ensures cursor { IfOk result (λ r. IsCursorOf bytes.now r.1) }
    ensures further { IfOk result (λ r. cursor.end < r.1.end) }
    ensures fault { IfErr result
        (λ e. (k : List Symbol) → IsFaultOf bytes.now (Forward ∷ k) (state_of bytes.now cursor) e) }
{
    if let TokenKind::KwPi = kind_of_next(bytes, cursor) {
        return pi_at(alloc, bytes, cursor);
    }
    let (left, behind) = sync_at(alloc, bytes, cursor)?;
    let Some((arrow, sign)) = open_forward(bytes, behind)? else {
        return Ok((left, behind));
    };
    let (right, end) = forward_at(alloc, bytes, sign)?;
    let ty = form::arrow(alloc, span_from(bytes, cursor, end), arrow, left, right)?;
    Ok((ty, end))
}

/// `Pi NAME: type. type`.
#[cycle(types)]
fn pi_at(alloc: Global, bytes: &[u8], cursor: Cursor) -> Result<(Boxed<SType>, Cursor), Stop>
    requires cursor { IsCursorOf bytes.now cursor }
    requires kind { kind_next bytes.now cursor ≡ TokenKind.KwPi }
    ensures read { IfOk result (λ r. IsForward (state_of bytes.now cursor) (surface r.0) (state_of bytes.now r.1)) }
    ensures cursor { IfOk result (λ r. IsCursorOf bytes.now r.1) }
    ensures further { IfOk result (λ r. cursor.end < r.1.end) }
    ensures fault { IfErr result
        (λ e. (k : List Symbol) → IsFaultOf bytes.now (Forward ∷ k) (state_of bytes.now cursor) e) }
{
    let (name, colon) = binder_at(alloc, bytes, cursor, TokenKind::KwPi)?;
    let (dom, behind) = type_at(alloc, bytes, colon)?;
    let stop = take(bytes, behind, TokenKind::Stop)?;
    let (rest, end) = type_at(alloc, bytes, stop)?;
    let ty = form::pi(alloc, span_from(bytes, cursor, end), name, dom, rest)?;
    Ok((ty, end))
}

/// A product: factors with `*` between them, the last of which may be an `Exists` type.
#[cycle(types)]
#[tactic(auto, using(crate::proofs::Products::sync_steps, crate::proofs::TypeFaults::memory_faults))]
fn sync_at(alloc: Global, bytes: &[u8], cursor: Cursor) -> Result<(Boxed<SType>, Cursor), Stop>
    requires cursor { IsCursorOf bytes.now cursor }
    ensures read { IfOk result (λ r. IsSync (state_of bytes.now cursor) (surface r.0) (state_of bytes.now r.1)) }
    ensures cursor { IfOk result (λ r. IsCursorOf bytes.now r.1) }
    ensures further { IfOk result (λ r. cursor.end < r.1.end) }
    ensures fault { IfErr result
        (λ e. (k : List Symbol) → IsFaultOf bytes.now (Sync ∷ k) (state_of bytes.now cursor) e) }
{
    let mut factors = Items::new(alloc);
    let mut at = cursor;
    loop {
        if let TokenKind::KwExists = kind_of_next(bytes, at) {
            let (last, end) = exists_at(alloc, bytes, at)?;
            return Ok((product(alloc, bytes, factors, last, end)?, end));
        }
        let (ty, behind) = factor_at(alloc, bytes, at)?;
        let TokenKind::Star = kind_of_next(bytes, behind) else {
            return Ok((product(alloc, bytes, factors, ty, behind)?, behind));
        };
        factors.push(Factor { at, ty })?;
        at = open_star(bytes, behind)?;
    }
}

/// `Exists NAME: type. sync`.
#[cycle(types)]
fn exists_at(alloc: Global, bytes: &[u8], cursor: Cursor) -> Result<(Boxed<SType>, Cursor), Stop>
    requires cursor { IsCursorOf bytes.now cursor }
    requires kind { kind_next bytes.now cursor ≡ TokenKind.KwExists }
    ensures read { IfOk result (λ r. IsSync (state_of bytes.now cursor) (surface r.0) (state_of bytes.now r.1)) }
    ensures cursor { IfOk result (λ r. IsCursorOf bytes.now r.1) }
    ensures further { IfOk result (λ r. cursor.end < r.1.end) }
    ensures fault { IfErr result
        (λ e. (k : List Symbol) → IsFaultOf bytes.now (Sync ∷ k) (state_of bytes.now cursor) e) }
{
    let (name, colon) = binder_at(alloc, bytes, cursor, TokenKind::KwExists)?;
    let (dom, behind) = type_at(alloc, bytes, colon)?;
    let stop = take(bytes, behind, TokenKind::Stop)?;
    let (rest, end) = sync_at(alloc, bytes, stop)?;
    let ty = form::exists(alloc, span_from(bytes, cursor, end), name, dom, rest)?;
    Ok((ty, end))
}

/// An additive pair or a single atom, perhaps after `!` or `@`.
#[cycle(types)]
#[tactic(auto, using(crate::proofs::Reading::factor_steps, crate::proofs::TypeFaults::factor_faults))]
fn factor_at(alloc: Global, bytes: &[u8], cursor: Cursor) -> Result<(Boxed<SType>, Cursor), Stop>
    requires cursor { IsCursorOf bytes.now cursor }
    ensures read { IfOk result (λ r. IsFactor (state_of bytes.now cursor) (surface r.0) (state_of bytes.now r.1)) }
    ensures cursor { IfOk result (λ r. IsCursorOf bytes.now r.1) }
    ensures further { IfOk result (λ r. cursor.end < r.1.end) }
    ensures fault { IfErr result
        (λ e. (k : List Symbol) → IsFaultOf bytes.now (FactorSymbol ∷ k) (state_of bytes.now cursor) e) }
{
    match kind_of_next(bytes, cursor) {
        TokenKind::Bang => marked_at(alloc, bytes, cursor, TokenKind::Bang, Mode::Persistent),
        TokenKind::AtSign => marked_at(alloc, bytes, cursor, TokenKind::AtSign, Mode::Affine),
        _ => with_at(alloc, bytes, cursor),
    }
}

/// An additive pair or a single atom after a mark.
#[cycle(types)]
fn marked_at(
    alloc: Global,
    bytes: &[u8],
    cursor: Cursor,
    sign: TokenKind,
    mode: Mode,
) -> Result<(Boxed<SType>, Cursor), Stop>
    requires cursor { IsCursorOf bytes.now cursor }
    requires kind { kind_next bytes.now cursor ≡ sign }
    requires sign { sign ≢ TokenKind.End }
    ensures read { IfOk result
        (λ r. IsMarked sign mode (state_of bytes.now cursor) (surface r.0) (state_of bytes.now r.1)) }
    ensures cursor { IfOk result (λ r. IsCursorOf bytes.now r.1) }
    ensures further { IfOk result (λ r. cursor.end < r.1.end) }
    ensures fault { IfErr result (λ e.
        (j k : List Symbol) → TakesOn sign j (With ∷ k) (state_of bytes.now cursor) →
        IsFaultOf bytes.now j (state_of bytes.now cursor) e) }
{
    let mark = take(bytes, cursor, sign)?;
    let (body, end) = with_at(alloc, bytes, mark)?;
    let ty = form::marked(alloc, span_from(bytes, cursor, end), mode, body)?;
    Ok((ty, end))
}

/// An additive pair or a single atom: atom [ '&' with ].
#[cycle(types)]
fn with_at(alloc: Global, bytes: &[u8], cursor: Cursor) -> Result<(Boxed<SType>, Cursor), Stop>
    requires cursor { IsCursorOf bytes.now cursor }
    ensures read { IfOk result (λ r. IsWith (state_of bytes.now cursor) (surface r.0) (state_of bytes.now r.1)) }
    ensures cursor { IfOk result (λ r. IsCursorOf bytes.now r.1) }
    ensures further { IfOk result (λ r. cursor.end < r.1.end) }
    ensures fault { IfErr result
        (λ e. (k : List Symbol) → IsFaultOf bytes.now (With ∷ k) (state_of bytes.now cursor) e) }
{
    let (left, behind) = atom_at(alloc, bytes, cursor)?;
    let TokenKind::Amp = kind_of_next(bytes, behind) else {
        return Ok((left, behind));
    };
    let sign = open(bytes, behind, TokenKind::Amp)?;
    let (right, end) = with_at(alloc, bytes, sign)?;
    let ty = form::both(alloc, span_from(bytes, cursor, end), left, right)?;
    Ok((ty, end))
}

/// The word `type`, a family with its indices, `<T>`, `1`, or a type in braces or parentheses.
#[cycle(types)]
#[tactic(auto, using(crate::proofs::Reading::atom_steps, crate::proofs::LeafFaults::atom_kinds))]
fn atom_at(alloc: Global, bytes: &[u8], cursor: Cursor) -> Result<(Boxed<SType>, Cursor), Stop>
    requires cursor { IsCursorOf bytes.now cursor }
    ensures read { IfOk result (λ r. IsTypeAtom (state_of bytes.now cursor) (surface r.0) (state_of bytes.now r.1)) }
    ensures cursor { IfOk result (λ r. IsCursorOf bytes.now r.1) }
    ensures further { IfOk result (λ r. cursor.end < r.1.end) }
    ensures fault { IfErr result
        (λ e. (k : List Symbol) → IsFaultOf bytes.now (TypeAtom ∷ k) (state_of bytes.now cursor) e) }
{
    match kind_of_next(bytes, cursor) {
        TokenKind::LeftParen => {
            let (open, close) = (TokenKind::LeftParen, TokenKind::RightParen);
            enclosed_at(alloc, bytes, cursor, open, close)
        }
        TokenKind::LeftBrace => braces_at(alloc, bytes, cursor),
        TokenKind::KwType => word_at(alloc, bytes, cursor),
        TokenKind::TopSign => top_at(alloc, bytes, cursor),
        TokenKind::Number => one_at(alloc, bytes, cursor),
        _ => family_at(alloc, bytes, cursor),
    }
}

/// A type in braces.
#[cycle(types)]
fn braces_at(alloc: Global, bytes: &[u8], cursor: Cursor) -> Result<(Boxed<SType>, Cursor), Stop>
    requires cursor { IsCursorOf bytes.now cursor }
    requires kind { kind_next bytes.now cursor ≡ TokenKind.LeftBrace }
    ensures read { IfOk result (λ r. IsTypeAtom (state_of bytes.now cursor) (surface r.0) (state_of bytes.now r.1)) }
    ensures cursor { IfOk result (λ r. IsCursorOf bytes.now r.1) }
    ensures further { IfOk result (λ r. cursor.end < r.1.end) }
    ensures fault { IfErr result
        (λ e. (k : List Symbol) → IsFaultOf bytes.now (TypeAtom ∷ k) (state_of bytes.now cursor) e) }
{
    let (open, close) = (TokenKind::LeftBrace, TokenKind::RightBrace);
    let (body, end) = enclosed_at(alloc, bytes, cursor, open, close)?;
    let ty = form::braced(alloc, span_from(bytes, cursor, end), body)?;
    Ok((ty, end))
}

/// A type between two brackets, which are a nested part.
#[cycle(types)]
fn enclosed_at(
    alloc: Global,
    bytes: &[u8],
    cursor: Cursor,
    opening: TokenKind,
    closing: TokenKind,
) -> Result<(Boxed<SType>, Cursor), Stop>
    requires cursor { IsCursorOf bytes.now cursor }
    requires kind { kind_next bytes.now cursor ≡ opening }
    requires opening { opening ≢ TokenKind.End }
    requires closing { closing ≢ TokenKind.End }
    ensures read { IfOk result
        (λ r. Encloses opening closing (state_of bytes.now cursor) (surface r.0) (state_of bytes.now r.1)) }
    ensures cursor { IfOk result (λ r. IsCursorOf bytes.now r.1) }
    ensures further { IfOk result (λ r. cursor.end < r.1.end) }
    ensures fault { IfErr result (λ e.
        (j k : List Symbol) →
        OpensOn opening j (Whole ∷ Close closing (state_of bytes.now cursor).room ∷ k)
        (state_of bytes.now cursor) →
        IsFaultOf bytes.now j (state_of bytes.now cursor) e) }
{
    let inside = open(bytes, cursor, opening)?;
    let (ty, behind) = type_at(alloc, bytes, inside)?;
    let end = close(bytes, cursor, behind, closing)?;
    Ok((ty, end))
}

/// A binder of a type, up to its colon.
fn binder_at(
    alloc: Global,
    bytes: &[u8],
    cursor: Cursor,
    keyword: TokenKind,
) -> Result<(Name, Cursor), Stop>
    requires cursor { IsCursorOf bytes.now cursor }
    requires kind { kind_next bytes.now cursor ≡ keyword }
    requires keyword { keyword ≢ TokenKind.End }
    ensures read { IfOk result (λ r. Binds keyword (state_of bytes.now cursor) r.0 (state_of bytes.now r.1)) }
    ensures cursor { IfOk result (λ r. IsCursorOf bytes.now r.1) }
    ensures further { IfOk result (λ r. cursor.end < r.1.end) }
    ensures fault { IfErr result (λ e.
        (j k : List Symbol) →
        OpensOn keyword j (NameWord ∷ Expect TokenKind.Colon ∷ k) (state_of bytes.now cursor) →
        IsFaultOf bytes.now j (state_of bytes.now cursor) e) }
{
    let inside = open(bytes, cursor, keyword)?;
    let (name, behind) = take_name(alloc, bytes, inside)?;
    let colon = take(bytes, behind, TokenKind::Colon)?;
    Ok((name, colon))
}
