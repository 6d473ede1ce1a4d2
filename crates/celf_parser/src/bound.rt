//! Numbers of directives and declarations.
ghost use Rattle.std.specs.Prelude.{◌<◌, ◌≤◌, IfOk, IfErr, List, ◌∷◌};
ghost use Rattle.celf_grammar.specs.Grammar.{IsBound, IsImplicit};
ghost use Rattle.celf_grammar.specs.Machine.{Symbol, Bound as BoundSymbol, Implicit as ImplicitSymbol};
ghost use Rattle.celf_cursor.specs.Cursor.{IsCursorOf, state_of};
ghost use Rattle.celf_cursor.specs.Faults.{IsFaultOf};

use celf_cursor::{Cursor, Stop, kind_of_next, take, take_number};
use celf_lexer::TokenKind;
use celf_surface::Bound;

/// A number or `*`.
#[tactic(auto, using(celf_grammar::specs::Grammar::bound_steps, crate::proofs::BoundFaults::bound_faults))]
pub fn bound_at(bytes: &[u8], cursor: Cursor) -> Result<(Bound, Cursor), Stop>
    requires cursor { IsCursorOf bytes.now cursor }
    ensures read { IfOk result (λ r. IsBound (state_of bytes.now cursor) r.0 (state_of bytes.now r.1)) }
    ensures cursor { IfOk result (λ r. IsCursorOf bytes.now r.1) }
    ensures further { IfOk result (λ r. cursor.end < r.1.end) }
    ensures fault { IfErr result
        (λ e. (k : List Symbol) → IsFaultOf bytes.now (BoundSymbol ∷ k) (state_of bytes.now cursor) e) }
{
    match kind_of_next(bytes, cursor) {
        TokenKind::Star => Ok((Bound::Star, take(bytes, cursor, TokenKind::Star)?)),
        _ => take_number(bytes, cursor),
    }
}

/// The number of implicit arguments in brackets, where a bracket comes next. They are no nested part.
pub fn implicit_at(bytes: &[u8], cursor: Cursor) -> Result<(Option<Bound>, Cursor), Stop>
    requires cursor { IsCursorOf bytes.now cursor }
    ensures read { IfOk result (λ r. IsImplicit (state_of bytes.now cursor) r.0 (state_of bytes.now r.1)) }
    ensures cursor { IfOk result (λ r. IsCursorOf bytes.now r.1) }
    ensures further { IfOk result (λ r. cursor.end ≤ r.1.end) }
    ensures fault { IfErr result
        (λ e. (k : List Symbol) → IsFaultOf bytes.now (ImplicitSymbol ∷ k) (state_of bytes.now cursor) e) }
{
    let TokenKind::LeftBracket = kind_of_next(bytes, cursor) else {
        return Ok((None, cursor));
    };
    let bracket = take(bytes, cursor, TokenKind::LeftBracket)?;
    let (count, behind) = take_number(bytes, bracket)?;
    let end = take(bytes, behind, TokenKind::RightBracket)?;
    Ok((Some(count), end))
}
