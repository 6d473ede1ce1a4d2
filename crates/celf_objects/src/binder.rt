//! Marks, binders and family names.
ghost use Rattle.std.specs.Prelude.{◌<◌, ◌≤◌, IfOk, IfErr, List, ◌∷◌};
ghost use Rattle.celf_grammar.specs.Machine.{Symbol, Mark as MarkSymbol, Binder as BinderSymbol, FamilyName as FamilyNameSymbol};
ghost use Rattle.celf_cursor.specs.Faults.{IsFaultOf};
ghost use Rattle.celf_grammar.specs.Grammar.{IsMark, IsBinder, IsFamilyName};
ghost use Rattle.celf_cursor.specs.Cursor.{IsCursorOf, state_of};

use celf_cursor::{Cursor, Stop, kind_of_next, take, take_constant, take_name};
use celf_lexer::TokenKind;
use celf_surface::SMode;
use clf_syntax::Name;
use std::alloc::Global;

/// A mark, which may be absent.
#[tactic(auto, using(celf_grammar::specs::Grammar::mark_steps, celf_cursor::proofs::Faulty::mark_faults))]
pub fn mark_at(bytes: &[u8], cursor: Cursor) -> Result<(SMode, Cursor), Stop>
    requires cursor { IsCursorOf bytes.now cursor }
    ensures read { IfOk result (λ r. IsMark (state_of bytes.now cursor) r.0 (state_of bytes.now r.1)) }
    ensures cursor { IfOk result (λ r. IsCursorOf bytes.now r.1) }
    ensures further { IfOk result (λ r. cursor.end ≤ r.1.end) }
    ensures fault { IfErr result
        (λ e. (k : List Symbol) → IsFaultOf bytes.now (MarkSymbol ∷ k) (state_of bytes.now cursor) e) }
{
    match kind_of_next(bytes, cursor) {
        TokenKind::Bang => { Ok((SMode::Persistent, take(bytes, cursor, TokenKind::Bang)?)) }
        TokenKind::AtSign => Ok((SMode::Affine, take(bytes, cursor, TokenKind::AtSign)?)),
        _ => Ok((SMode::Bare, cursor)),
    }
}

/// A name, or `None` for `_`.
#[tactic(auto, using(celf_grammar::specs::Grammar::binder_steps, celf_cursor::proofs::Faulty::binder_faults))]
pub fn binder_at(
    alloc: Global,
    bytes: &[u8],
    cursor: Cursor,
) -> Result<(Option<Name>, Cursor), Stop>
    requires cursor { IsCursorOf bytes.now cursor }
    ensures read { IfOk result (λ r. IsBinder (state_of bytes.now cursor) r.0 (state_of bytes.now r.1)) }
    ensures cursor { IfOk result (λ r. IsCursorOf bytes.now r.1) }
    ensures further { IfOk result (λ r. cursor.end < r.1.end) }
    ensures fault { IfErr result
        (λ e. (k : List Symbol) → IsFaultOf bytes.now (BinderSymbol ∷ k) (state_of bytes.now cursor) e) }
{
    match kind_of_next(bytes, cursor) {
        TokenKind::Hole => Ok((None, take(bytes, cursor, TokenKind::Hole)?)),
        _ => {
            let (name, behind) = take_name(alloc, bytes, cursor)?;
            Ok((Some(name), behind))
        }
    }
}

/// The name of a family, and whether it is written with a `$`.
#[tactic(auto, using(celf_grammar::specs::Grammar::family_steps, celf_cursor::proofs::Faulty::family_faults))]
pub fn family_name_at(
    alloc: Global,
    bytes: &[u8],
    cursor: Cursor,
) -> Result<(Name, bool, Cursor), Stop>
    requires cursor { IsCursorOf bytes.now cursor }
    ensures read { IfOk result (λ r. IsFamilyName (state_of bytes.now cursor) r.0 r.1 (state_of bytes.now r.2)) }
    ensures cursor { IfOk result (λ r. IsCursorOf bytes.now r.2) }
    ensures further { IfOk result (λ r. cursor.end < r.2.end) }
    ensures fault { IfErr result
        (λ e. (k : List Symbol) → IsFaultOf bytes.now (FamilyNameSymbol ∷ k) (state_of bytes.now cursor) e) }
{
    match kind_of_next(bytes, cursor) {
        TokenKind::ConstName => {
            let (name, behind) = take_constant(alloc, bytes, cursor)?;
            Ok((name, true, behind))
        }
        _ => {
            let (name, behind) = take_name(alloc, bytes, cursor)?;
            Ok((name, false, behind))
        }
    }
}
