//! The fault of a name without a meaning.
ghost use Rattle.celf_unknown.specs.Fault.{IsUnknown};

use celf_sugar::PName;
use celf_surface::Span;
use clf_syntax::{Name, OrWide};
use std::alloc::Global;

/// A name without a meaning, and the bytes at which it stands, its `$` among them.
#[derive(Drop)]
pub struct UnknownName {
    pub name: Name,
    pub span: Span,
}

/// The fault of a name.
pub fn unknown_fault(alloc: Global, name: &PName) -> OrWide<UnknownName>
    ensures { IsUnknown name.now result }
{
    match name.name.copy(alloc) {
        Ok(text) => OrWide::Fault(UnknownName {
            name: text,
            span: name.span,
        }),
        Err(_) => OrWide::NoMemory,
    }
}
