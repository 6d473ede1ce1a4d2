//! Simple typing, long forms, and the shift at its limit, row by row. Objects and types are written as in
//! `substitution.rt`.

use crate::substitution::{object, simple_type};
use clf_simple::{eta, simply_typed};
use clf_syntax::{Head, Neutral, Obj, Or, same};
use sqlite_items::Items;
use std::alloc::Global;

/// A simple type, a closed object, and whether it has the type.
const TYPED: &str = "\
aa! 0L y
aa- 0L n
aa@ 0A y
aa-aa-& 0N0N, y
aa-aa-& 0NU, n
aaM- 0DN y
aa- 0DN n";

/// A simple type, a neutral, and its long form.
const LONG: &str = "\
a b b
aa! b b0!L
aa! 0 10!L
aa-a& b b<0-Nb>,
aaaa@-! 0 32!1-0@ANL";

fn is_typed(alloc: Global, row: &str) -> Option<bool> {
    let mut fields = row.split(' ');
    let ty = simple_type(alloc, fields.next()?)?;
    let obj = object(alloc, fields.next()?)?;
    let wanted = fields.next()? == "y";
    let typed = simply_typed(alloc, &[], &[], &[], &obj, &ty).ok()?;
    Some(typed == wanted)
}

fn is_long(alloc: Global, row: &str) -> Option<bool> {
    let mut fields = row.split(' ');
    let ty = simple_type(alloc, fields.next()?)?;
    let Obj::At { neutral } = object(alloc, fields.next()?)? else {
        return None;
    };
    let wanted = object(alloc, fields.next()?)?;
    let long = eta(alloc, &ty, &neutral).ok()?;
    Some(same(&long, &wanted))
}

fn variable(alloc: Global, number: u32) -> Obj {
    Obj::At {
        neutral: Neutral {
            head: Head::Var(number),
            spine: Items::new(alloc),
        },
    }
}

fn is_shifted(alloc: Global, number: u32) -> bool {
    match variable(alloc, number).shift(alloc, 1, 0) {
        Ok(obj) => number < u32::MAX && same(&obj, &variable(alloc, number + 1)),
        Err(Or::Fault(_)) => number == u32::MAX,
        Err(Or::NoMemory) => false,
    }
}

#[test]
fn typed_rows_hold(rt: HostRuntime) {
    for row in TYPED.lines() {
        assert!(rt; is_typed(rt.alloc(), row) == Some(true), "{row}");
    }
}

#[test]
fn long_forms_hold(rt: HostRuntime) {
    for row in LONG.lines() {
        assert!(rt; is_long(rt.alloc(), row) == Some(true), "{row}");
    }
}

#[test]
fn shifts_at_the_limit(rt: HostRuntime) {
    assert!(rt; is_shifted(rt.alloc(), 0));
    assert!(rt; is_shifted(rt.alloc(), u32::MAX - 1));
    assert!(rt; is_shifted(rt.alloc(), u32::MAX));
}
