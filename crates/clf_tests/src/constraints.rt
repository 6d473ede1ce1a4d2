//! Metavariables on distinct locals, the places from which the way ends, and the equations that mention some
//! metavariables, row by row. Objects and types are written as in `substitution.rt`.

use crate::substitution::{object, simple_type};
use celf_constraints::{Equation, Equations, Place, Places, ends, is_blank, read_places};
use clf_syntax::{Mode, Neutral, Obj, Simple, SimpleEntry};
use std::alloc::Global;

/// The simple type of `?`, those of the locals, the oldest first, a neutral, and the locals at its places, the last
/// argument first: `_` where the argument is left out of account, and `-` alone where it is not on distinct locals.
const PLACES: &str = "\
aaa!! a,a ?1!0! 01
aaa!! a,a ?0!1! 10
aaa!! a,a ?0!0! -
aaa!! a,a ?0!b! -
aaa!! a,a b0!1! -
aaa!! a,a 0 -
aa!b! aa! ?10!L! 0
aa!b! aa!,aa! ?20!L! 1
aa!b! aaa!! ?1b!0!L! -
aa!b! aa! ?0L! -
Taa!! a ?U!0! 0_
TT!aa!! a ?UL!0! 0_
ba!a! Ta! ?1U!L! 0
aa&a! aa& ?0<0>,! 0
aa&a! aa& ?0>0<,! -
aMb- aM ?00DS- 0
aMb- a ?0D- -
aaa@- a,a ?1-0@ 01";

/// The simple type of `?`, those of the locals, two neutrals, and whether the way ends, for each place of the first.
const ENDS: &str = "\
aaa!! a,a ?1!0! ?0!1! nn
aaa!! a,a ?1!0! ?1!0! nn
aaa!! a,a,a ?2!1! ?2!0! yn
aaa!! a,a,a ?2!1! ?1!0! yy
aaaa!!! a,a,a ?2!1!0! ?1!2!0! nnn
Taa!! a,a ?U!1! ?U!0! yn";

/// Metavariables by number, both sides of three equations, and the places of those that mention one of them.
const WOKEN: &str = "\
0 ? b b b c?! * 02
1 ? b b b c?! * 2
2 ? b b b c?! * -
1 b b b *L c?!D b 1
0 b b b *L c?!D b 2
01 b b b *L c?!D b 12
1 *0DS b ?<U, b b b 0
0 *0DS b ?<U, b b b 1
- ? b * b b ? -";

/// Locals of these simple types, the oldest first.
fn locals(alloc: Global, text: &str) -> Option<Vec<SimpleEntry>> {
    let mut made = Vec::new(alloc);
    for word in text.split(',') {
        let ty = simple_type(alloc, word)?;
        let mode = Mode::Persistent;
        made.push(SimpleEntry { mode, ty }).ok()?;
    }
    Some(made)
}

fn neutral(alloc: Global, text: &str) -> Option<Neutral> {
    match object(alloc, text)? {
        Obj::At { neutral } => Some(neutral),
        _ => None,
    }
}

fn digit(byte: u8) -> u32 {
    if byte < b'0' {
        return 10;
    }
    u32::from(byte - b'0')
}

fn is_shown(place: &Place<'_>, byte: u8) -> bool {
    if is_blank(place.ty) {
        return byte == b'_';
    }
    digit(byte) == place.local
}

fn are_shown(places: &Places<'_>, wanted: &str) -> bool {
    let mut bytes = wanted.as_bytes().iter();
    for place in places.places.as_slice() {
        match bytes.next() {
            Some(byte) if is_shown(place, *byte) => {}
            _ => return false,
        }
    }
    places.meta == 0 && bytes.next().is_none()
}

fn places_hold(alloc: Global, row: &str) -> Option<bool> {
    let mut fields = row.split(' ');
    let metas = [simple_type(alloc, fields.next()?)?];
    let locals = locals(alloc, fields.next()?)?;
    let neutral = neutral(alloc, fields.next()?)?;
    let wanted = fields.next()?;
    match read_places(alloc, &metas, locals.as_slice(), &neutral).ok()? {
        Some(places) => Some(are_shown(&places, wanted)),
        None => Some(wanted == "-"),
    }
}

fn are_ends(held: &[bool], wanted: &str) -> bool {
    let mut bytes = wanted.as_bytes().iter();
    for is_end in held {
        let byte = if *is_end { b'y' } else { b'n' };
        if bytes.next() != Some(&byte) {
            return false;
        }
    }
    bytes.next().is_none()
}

fn ends_hold(alloc: Global, row: &str) -> Option<bool> {
    let mut fields = row.split(' ');
    let metas = [simple_type(alloc, fields.next()?)?];
    let locals = locals(alloc, fields.next()?)?;
    let left = neutral(alloc, fields.next()?)?;
    let right = neutral(alloc, fields.next()?)?;
    let places = read_places(alloc, &metas, locals.as_slice(), &left).ok()??;
    let others = read_places(alloc, &metas, locals.as_slice(), &right).ok()??;
    let held = ends(alloc, &places, &others).ok()?;
    Some(are_ends(held.as_slice(), fields.next()?))
}

fn equation(alloc: Global, left: &str, right: &str) -> Option<Equation> {
    let left = object(alloc, left)?;
    let right = object(alloc, right)?;
    Some(Equation {
        locals: Vec::new(alloc),
        left,
        right,
        ty: Simple::Atom(0),
    })
}

fn metas(alloc: Global, text: &str) -> Option<Vec<u32>> {
    let mut made = Vec::new(alloc);
    if text != "-" {
        for byte in text.as_bytes() {
            made.push(digit(*byte)).ok()?;
        }
    }
    Some(made)
}

fn are_places(woken: &[usize], wanted: &str) -> bool {
    if wanted == "-" {
        return woken.is_empty();
    }
    let mut bytes = wanted.as_bytes().iter();
    for place in woken {
        match bytes.next() {
            Some(byte) if digit(*byte) as usize == *place => {}
            _ => return false,
        }
    }
    bytes.next().is_none()
}

fn woken_hold(alloc: Global, row: &str) -> Option<bool> {
    let mut fields = row.split(' ');
    let metas = metas(alloc, fields.next()?)?;
    let mut equations = Equations::new(alloc);
    for _place in 0..3u32 {
        let made = equation(alloc, fields.next()?, fields.next()?)?;
        equations.push(made).ok()?;
    }
    let woken = equations.wake(alloc, metas.as_slice()).ok()?;
    Some(are_places(woken.as_slice(), fields.next()?))
}

#[test]
fn places_are_read(rt: HostRuntime) {
    for row in PLACES.lines() {
        assert!(rt; places_hold(rt.alloc(), row) == Some(true), "{row}");
    }
    assert_eq!(rt; PLACES.lines().count(), 18);
}

#[test]
fn ways_end(rt: HostRuntime) {
    for row in ENDS.lines() {
        assert!(rt; ends_hold(rt.alloc(), row) == Some(true), "{row}");
    }
    assert_eq!(rt; ENDS.lines().count(), 6);
}

#[test]
fn equations_are_woken(rt: HostRuntime) {
    for row in WOKEN.lines() {
        assert!(rt; woken_hold(rt.alloc(), row) == Some(true), "{row}");
    }
    assert_eq!(rt; WOKEN.lines().count(), 9);
}
