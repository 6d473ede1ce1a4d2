//! The few trees that the tests of the store need.

use clf_syntax::{Elim, Head, Mode, Neutral, Obj, Simple, Ty};
use sqlite_items::{Boxed, Items};
use std::alloc::Global;

/// A head alone.
pub fn bare(alloc: Global, head: Head) -> Obj {
    Obj::At {
        neutral: Neutral {
            head,
            spine: Items::new(alloc),
        },
    }
}

/// A head under one persistent argument.
pub fn applied(alloc: Global, head: Head, obj: Obj) -> Option<Obj> {
    let mut spine = Items::new(alloc);
    let mode = Mode::Persistent;
    spine.push(Elim::Arg { mode, obj }).ok()?;
    Some(Obj::At {
        neutral: Neutral { head, spine },
    })
}

/// A head under two persistent arguments.
pub fn applied_twice(alloc: Global, head: Head, first: Obj, second: Obj) -> Option<Obj> {
    let mut spine = Items::new(alloc);
    let mode = Mode::Persistent;
    spine.push(Elim::Arg { mode, obj: first }).ok()?;
    spine.push(Elim::Arg { mode, obj: second }).ok()?;
    Some(Obj::At {
        neutral: Neutral { head, spine },
    })
}

/// A lambda of a persistent variable.
pub fn lambda(alloc: Global, body: Obj) -> Option<Obj> {
    let body = Boxed::new(alloc, body).ok()?;
    let mode = Mode::Persistent;
    Some(Obj::Lam { mode, body })
}

/// The functions of a persistent argument of family 0 to a simple type.
pub fn function_to(alloc: Global, target: Simple) -> Option<Simple> {
    let dom = Boxed::new(alloc, Simple::Atom(0)).ok()?;
    let cod = Boxed::new(alloc, target).ok()?;
    let mode = Mode::Persistent;
    Some(Simple::Fun { mode, dom, cod })
}

/// How many functions of family 0 a simple type has in front of family 0, if it is of that form.
pub fn arguments(ty: &Simple) -> Option<u32> {
    match ty {
        Simple::Atom(0) => Some(0),
        Simple::Fun {
            mode: Mode::Persistent,
            dom,
            cod,
        } => match dom.get() {
            Simple::Atom(0) => arguments(cod.get())?.checked_add(1),
            _ => None,
        },
        _ => None,
    }
}

/// Family 1 at one index.
pub fn indexed(alloc: Global, index: Obj) -> Option<Ty> {
    let mut indices = Items::new(alloc);
    indices.push(index).ok()?;
    Some(Ty::Fam { family: 1, indices })
}
