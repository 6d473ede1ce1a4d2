//! What a declaration declares.
ghost use Rattle.std.specs.Prelude.{◌≡◌, IfOk};

use clf_syntax::{Kind, Ty};
use std::alloc::{AllocError, Global};

/// A family of a kind, or a constant of a type.
#[derive(Drop)]
pub enum Class {
    Family(Kind),
    Constant(Ty),
}

/// A declaration: its class, and how many of its leading persistent arguments are implicit.
#[derive(Drop)]
pub struct Entry {
    pub implicit: u32,
    pub class: Class,
}

impl Class {
    /// An equal class. It fails only where memory runs out.
    pub fn copy(&self, alloc: Global) -> Result<Class, AllocError>
        ensures { IfOk result (λ class. class ≡ self.now) }
    {
        match self {
            Class::Family(kind) => Ok(Class::Family(kind.copy(alloc)?)),
            Class::Constant(ty) => Ok(Class::Constant(ty.copy(alloc)?)),
        }
    }
}

impl Entry {
    /// An equal entry. It fails only where memory runs out.
    pub fn copy(&self, alloc: Global) -> Result<Entry, AllocError>
        ensures { IfOk result (λ entry. entry ≡ self.now) }
    {
        Ok(Entry {
            implicit: self.implicit,
            class: self.class.copy(alloc)?,
        })
    }
}
