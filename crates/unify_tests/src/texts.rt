//! Objects and simple types of texts.
//!
//! They are written part before whole, a byte for each: a digit is a variable, a small letter a constant, `?`, `*`, `%`
//! and `$` are the first four metavariables, and the other bytes take what stands before them. `!`, `@` and `-` apply
//! to an argument, `L`, `A` and `N` make a lambda, each of the three modes; `<` and `>` are the projections, `,` makes a
//! pair and `U` is the unit. `D` makes a monadic object of a tuple with one entry, and `S` puts a step that binds one
//! variable in front of one. In a simple type a small letter is a family, `T` the unit, `!`, `@` and `-` make functions,
//! `&` makes pairs and `M` a monad of one entry.

use clf_syntax::{
    Elim, Expr, Head, Mode, Modes, Neutral, Obj, Simple, SimpleEntry, Step, TupleEntry,
};
use sqlite_items::{Boxed, Items};
use std::alloc::Global;

fn mode_of(byte: u8) -> Mode {
    match byte {
        b'!' | b'L' => Mode::Persistent,
        b'@' | b'A' => Mode::Affine,
        _ => Mode::Linear,
    }
}

fn bare(alloc: Global, head: Head) -> Obj {
    Obj::At {
        neutral: Neutral {
            head,
            spine: Items::new(alloc),
        },
    }
}

/// A neutral under one elimination more.
fn eliminated(object: Obj, act: Elim) -> Option<Obj> {
    let Obj::At { neutral } = object else {
        return None;
    };
    let Neutral { head, mut spine } = neutral;
    spine.push(act).ok()?;
    Some(Obj::At {
        neutral: Neutral { head, spine },
    })
}

/// A monadic object without steps.
fn monadic(alloc: Global, obj: Obj) -> Option<Obj> {
    let mut result = Items::new(alloc);
    let mode = Mode::Linear;
    result.push(TupleEntry { mode, obj }).ok()?;
    let steps = Items::new(alloc);
    let expr = Boxed::new(alloc, Expr { steps, result }).ok()?;
    Some(Obj::Mon { expr })
}

/// A step that binds one linear variable.
fn one_step(alloc: Global, right: Obj) -> Option<Step> {
    let Obj::At { neutral: rhs } = right else {
        return None;
    };
    let mut modes = Modes::empty(alloc);
    modes.push(Mode::Linear).ok()?;
    Some(Step { modes, rhs })
}

/// A step in front of a monadic object.
fn stepped(alloc: Global, right: Obj, rest: Obj) -> Option<Obj> {
    let Obj::Mon { expr } = rest else {
        return None;
    };
    let Expr {
        steps: more,
        result,
    } = expr.into_inner();
    let mut steps = Items::new(alloc);
    steps.push(one_step(alloc, right)?).ok()?;
    steps.append(more).ok()?;
    let expr = Boxed::new(alloc, Expr { steps, result }).ok()?;
    Some(Obj::Mon { expr })
}

/// The object that a byte makes of those before it.
fn form(alloc: Global, before: &mut Items<Obj>, byte: u8) -> Option<Obj> {
    match byte {
        b'0'..=b'9' => Some(bare(alloc, Head::Var(u32::from(byte - b'0')))),
        b'a'..=b'z' => Some(bare(alloc, Head::Const(u32::from(byte - b'a')))),
        b'?' => Some(bare(alloc, Head::Meta(0))),
        b'*' => Some(bare(alloc, Head::Meta(1))),
        b'%' => Some(bare(alloc, Head::Meta(2))),
        b'$' => Some(bare(alloc, Head::Meta(3))),
        b'U' => Some(Obj::Unit),
        b'!' | b'@' | b'-' => {
            let obj = before.pop()?;
            let mode = mode_of(byte);
            eliminated(before.pop()?, Elim::Arg { mode, obj })
        }
        b'<' => eliminated(before.pop()?, Elim::First),
        b'>' => eliminated(before.pop()?, Elim::Second),
        b',' => {
            let right = Boxed::new(alloc, before.pop()?).ok()?;
            let left = Boxed::new(alloc, before.pop()?).ok()?;
            Some(Obj::Pair { left, right })
        }
        b'D' => monadic(alloc, before.pop()?),
        b'S' => {
            let rest = before.pop()?;
            stepped(alloc, before.pop()?, rest)
        }
        _ => {
            let body = Boxed::new(alloc, before.pop()?).ok()?;
            let mode = mode_of(byte);
            Some(Obj::Lam { mode, body })
        }
    }
}

/// The object of a text.
pub fn object(alloc: Global, text: &str) -> Option<Obj> {
    let mut made = Items::new(alloc);
    for byte in text.as_bytes() {
        let next = form(alloc, &mut made, *byte)?;
        made.push(next).ok()?;
    }
    made.pop()
}

/// The simple type that a byte makes of those before it.
fn type_form(alloc: Global, before: &mut Items<Simple>, byte: u8) -> Option<Simple> {
    match byte {
        b'a'..=b'z' => Some(Simple::Atom(u32::from(byte - b'a'))),
        b'T' => Some(Simple::Top),
        b'&' => {
            let right = Boxed::new(alloc, before.pop()?).ok()?;
            let left = Boxed::new(alloc, before.pop()?).ok()?;
            Some(Simple::With { left, right })
        }
        b'M' => {
            let ty = before.pop()?;
            let mode = Mode::Linear;
            let mut entries = Items::new(alloc);
            entries.push(SimpleEntry { mode, ty }).ok()?;
            Some(Simple::Monad { entries })
        }
        _ => {
            let cod = Boxed::new(alloc, before.pop()?).ok()?;
            let dom = Boxed::new(alloc, before.pop()?).ok()?;
            let mode = mode_of(byte);
            Some(Simple::Fun { mode, dom, cod })
        }
    }
}

/// The simple type of a text.
pub fn simple_type(alloc: Global, text: &str) -> Option<Simple> {
    let mut made = Items::new(alloc);
    for byte in text.as_bytes() {
        let next = type_form(alloc, &mut made, *byte)?;
        made.push(next).ok()?;
    }
    made.pop()
}
