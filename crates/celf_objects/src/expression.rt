//! Expressions.
ghost use Rattle.std.specs.Prelude.{IfErr, IsTrue, List, ◌∷◌, ◌<◌, ◌≤◌, IfOk, map};
ghost use Rattle.celf_grammar.specs.Machine.{Symbol, Expression as ExpressionSymbol};
ghost use Rattle.celf_cursor.specs.Faults.{IsFaultOf};
ghost use Rattle.celf_surface.specs.Surface.{expression_tree, step_tree};
ghost use Rattle.celf_grammar.specs.Grammar.{IsExpression, IsSteps, IsStep, is_let as is_let_kind};
ghost use Rattle.celf_grammar.specs.State.{Ends};
ghost use Rattle.celf_cursor.specs.Cursor.{IsCursorOf, state_of, kind_next};

use crate::kinds::is_let;
use crate::object::application_at;
use crate::pattern::pattern_at;
use crate::trees::expression;
use crate::tuple::tuple_at;
use celf_cursor::{Cursor, Stop, close, kind_of_next, open, take};
use celf_lexer::TokenKind;
use celf_surface::{SExpr, SStep};
use sqlite_items::{Boxed, Items};
use std::alloc::Global;

/// An expression: steps, and a tuple after them.
#[cycle(objects)]
pub(crate) fn expression_at(
    alloc: Global,
    bytes: &[u8],
    cursor: Cursor,
) -> Result<(SExpr, Cursor), Stop>
    requires cursor { IsCursorOf bytes.now cursor }
    ensures read { IfOk result (λ r.
        IsExpression (state_of bytes.now cursor) (expression_tree r.0).0 (expression_tree r.0).1
        (state_of bytes.now r.1)) }
    ensures cursor { IfOk result (λ r. IsCursorOf bytes.now r.1) }
    ensures further { IfOk result (λ r. cursor.end < r.1.end) }
    ensures fault { IfErr result
        (λ e. (k : List Symbol) → IsFaultOf bytes.now (ExpressionSymbol ∷ k) (state_of bytes.now cursor) e) }
{
    let (steps, last) = steps_at(alloc, bytes, cursor)?;
    let (tuple, behind) = tuple_at(alloc, bytes, last)?;
    Ok((expression(steps, tuple), behind))
}

/// The steps that follow, as many as there are.
#[cycle(objects)]
fn steps_at(alloc: Global, bytes: &[u8], cursor: Cursor) -> Result<(Items<SStep>, Cursor), Stop>
    requires cursor { IsCursorOf bytes.now cursor }
    ensures read { IfOk result (λ r. IsSteps (state_of bytes.now cursor) (map step_tree r.0) (state_of bytes.now r.1)) }
    ensures ends { IfOk result (λ r. Ends is_let_kind (state_of bytes.now r.1)) }
    ensures cursor { IfOk result (λ r. IsCursorOf bytes.now r.1) }
    ensures further { IfOk result (λ r. cursor.end ≤ r.1.end) }
    ensures fault { IfErr result
        (λ e. (k : List Symbol) → IsFaultOf bytes.now (ExpressionSymbol ∷ k) (state_of bytes.now cursor) e) }
{
    let mut steps = Items::new(alloc);
    let mut last = cursor;
    while is_let(kind_of_next(bytes, last)) {
        let (step, behind) = step_at(alloc, bytes, last)?;
        steps.push(step)?;
        last = behind;
    }
    Ok((steps, last))
}

/// A step: `let {pattern} = application in`.
#[cycle(objects)]
fn step_at(alloc: Global, bytes: &[u8], cursor: Cursor) -> Result<(SStep, Cursor), Stop>
    requires cursor { IsCursorOf bytes.now cursor }
    requires kind { IsTrue (is_let_kind (kind_next bytes.now cursor)) }
    ensures read { IfOk result
        (λ r. IsStep (state_of bytes.now cursor) (step_tree r.0).0 (step_tree r.0).1 (state_of bytes.now r.1)) }
    ensures cursor { IfOk result (λ r. IsCursorOf bytes.now r.1) }
    ensures further { IfOk result (λ r. cursor.end < r.1.end) }
    ensures fault { IfErr result
        (λ e. (k : List Symbol) → IsFaultOf bytes.now (ExpressionSymbol ∷ k) (state_of bytes.now cursor) e) }
{
    let begun = take(bytes, cursor, TokenKind::KwLet)?;
    let opened = open(bytes, begun, TokenKind::LeftBrace)?;
    let (found, last) = pattern_at(alloc, bytes, opened)?;
    // In a box it is dropped by a call: in place, each form of the pattern would be a case of this function.
    let pattern = Boxed::new(alloc, found)?;
    let closed = close(bytes, begun, last, TokenKind::RightBrace)?;
    let bound = take(bytes, closed, TokenKind::Equals)?;
    let (rhs, end) = application_at(alloc, bytes, bound)?;
    match take(bytes, end, TokenKind::KwIn) {
        Ok(behind) => {
            let pattern = pattern.into_inner();
            Ok((SStep { pattern, rhs }, behind))
        }
        Err(stop) => {
            drop(rhs);
            Err(stop)
        }
    }
}
