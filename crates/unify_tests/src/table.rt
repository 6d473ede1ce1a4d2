//! What unification answers, row by row. Objects and types are written as in `texts.rt`.
//!
//! The constants are z : nat, s : nat -> nat, k : {nat} -> nat, m : nat -> {nat} and p : nat -> nat -> nat, as `a` to
//! `e`; two locals of the type nat are around each equation, x1 as 1 and x2 as 0, and each equation is one at nat.

use crate::ready::solved;
use crate::texts::{object, simple_type};
use celf_constraints::{Equation, Equations};
use celf_unify::Unified;
use clf_syntax::{Mode, Obj, Simple, SimpleEntry, same};
use metavars::Store;
use std::alloc::Global;

/// The simple types of the metavariables; the equations, sides joined by `=`; what comes of them: `S` for all solved,
/// `L` and the equations left, or `#` and the sides that clash; and the solutions by number, `_` where there is none.
///
/// In order: the rows of the papers; the left one of two metavariables is solved by the right one; a metavariable is
/// solved by a side that is no pattern; joined sides are dropped first; an argument of the type `<T>` is passed over,
/// and kept where another one is taken; the order of the equations decides what is solved; what is left twice is listed
/// twice; a foreign local in a monadic object is no clash; other heads clash; of two arguments the first one comes first,
/// where both clash, and where the first one solves what the second one mentions.
const ROWS: &str = "\
aa! ?1!=b1! S b0!L
aa! ?a!=ba! L?a!=ba! _
a ?=b1! #?=b1! _
a ?=b?! #?=b?! _
aaa!! ?1!0!=?0!1! L?1!0!=?0!1! _
aa!,aaa!! ?1!=b*1!0!! S b%0!!L,%1!LL
a ?=cd?!0DS! L?=cd?!0DS! _
aa!,aa! ?1!=*1! S *0!L,_
aa!,aa! ?1!=*b1!! S *b0!!L,_
aa! ?a!=?a! S _
Taa!! ?U!1!=b1! S b0!LL
a,Taaa!!! ?=*U!1!0! S %U!,%U!LLL
aa!,a *=?1!,?a!=* S %L,%
aa!,a ?a!=*,*=?1! L?a!=?1! _,?a!
aa! ?a!=ba!,?a!=ba! L?a!=ba!,?a!=ba! _
a ?=c1D! L?=c1D! _
a b1!=b0! #1=0 _
a b1!=a #b1!=a _
a e1!a!=e0!ba!! #1=0 _
a e?!?!=ea!ba!! #a=ba! a";

/// Whether both objects are those of a text, joined by `=`.
fn are_sides(alloc: Global, left: &Obj, right: &Obj, text: &str) -> Option<bool> {
    let mut sides = text.split('=');
    let first = object(alloc, sides.next()?)?;
    let second = object(alloc, sides.next()?)?;
    Some(same(left, &first) && same(right, &second))
}

fn are_left(alloc: Global, left: &Equations, wanted: &str) -> Option<bool> {
    let mut texts = wanted.split(',');
    for equation in left.as_slice() {
        if !are_sides(alloc, &equation.left, &equation.right, texts.next()?)? {
            return Some(false);
        }
    }
    Some(texts.next().is_none())
}

fn is_wanted(alloc: Global, answer: &Unified, wanted: &str) -> Option<bool> {
    match answer {
        Unified::Solved => Some(wanted == "S"),
        Unified::Stuck(left) => are_left(alloc, left, wanted.strip_prefix("L")?),
        Unified::Clash(clash) => {
            let sides = wanted.strip_prefix("#")?;
            Some(clash.under == 2 && are_sides(alloc, &clash.left, &clash.right, sides)?)
        }
    }
}

fn are_solutions(alloc: Global, store: &Store, wanted: &str) -> Option<bool> {
    let mut meta: u32 = 0;
    for text in wanted.split(',') {
        let held = match store.solution(meta) {
            None => text == "_",
            Some(solution) => text != "_" && same(solution, &object(alloc, text)?),
        };
        if !held {
            return Some(false);
        }
        meta = meta.saturating_add(1);
    }
    Some(true)
}

fn types(alloc: Global, text: &str) -> Option<Vec<Simple>> {
    let mut made = Vec::new(alloc);
    for word in text.split(',') {
        made.push(simple_type(alloc, word)?).ok()?;
    }
    Some(made)
}

fn locals(alloc: Global) -> Option<Vec<SimpleEntry>> {
    let mut made = Vec::new(alloc);
    for _local in 0..2u32 {
        let mode = Mode::Persistent;
        let ty = Simple::Atom(0);
        made.push(SimpleEntry { mode, ty }).ok()?;
    }
    Some(made)
}

fn equations(alloc: Global, text: &str) -> Option<Equations> {
    let mut made = Equations::new(alloc);
    for word in text.split(',') {
        let mut sides = word.split('=');
        let locals = locals(alloc)?;
        let left = object(alloc, sides.next()?)?;
        let right = object(alloc, sides.next()?)?;
        let ty = Simple::Atom(0);
        let equation = Equation {
            locals,
            left,
            right,
            ty,
        };
        made.push(equation).ok()?;
    }
    Some(made)
}

fn holds(alloc: Global, row: &str) -> Option<bool> {
    let mut fields = row.split(' ');
    let consts = types(alloc, "a,aa!,aMa!,aaM!,aaa!!")?;
    let metas = types(alloc, fields.next()?)?;
    let given = equations(alloc, fields.next()?)?;
    let outcome = solved(alloc, consts.as_slice(), metas.as_slice(), &given)?;
    let wanted = fields.next()?;
    Some(
        is_wanted(alloc, &outcome.answer, wanted)?
            && are_solutions(alloc, &outcome.store, fields.next()?)?,
    )
}

#[test]
fn equations_are_solved(rt: HostRuntime) {
    for row in ROWS.lines() {
        assert!(rt; holds(rt.alloc(), row) == Some(true), "{row}");
    }
    assert_eq!(rt; ROWS.lines().count(), 20);
}
