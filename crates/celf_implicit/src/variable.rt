//! Implicit variables, as they are answered.

use celf_surface::Span;
use clf_syntax::{Mode, Name, Simple};
use sqlite_items::{Boxed, Items};

/// An occurrence of an implicit variable: its name, and the bytes at which it stands.
#[derive(Drop)]
pub struct Variable {
    pub name: Name,
    pub span: Span,
}

/// A local that a variable is applied to: its number, which counts binders from the inside, and the mode that is
/// written before it or else its own.
#[derive(Clone, Copy)]
pub struct Argument {
    pub mode: Mode,
    pub number: u32,
}

/// A variable that is determined: its name, the byte at which the occurrence stands that determines it, the locals that
/// it is applied to there, and its simple type, if that is known.
#[derive(Drop)]
pub struct Implicit {
    pub name: Name,
    pub start: u32,
    pub arguments: Items<Argument>,
    pub simple: Option<Boxed<Simple>>,
}
