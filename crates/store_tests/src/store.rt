//! The store: new metavariables, solutions put in, and what is taken back. Family 0 is `a`, constant 0 is `c : a -> a`
//! and constant 1 is `d : a`.
ghost use Rattle.std.specs.Prelude.{◌≤◌, length};

use crate::trees::{applied, applied_twice, arguments, bare, function_to, indexed, lambda};
use clf_syntax::{Head, Mode, Obj, Simple, SimpleEntry, Ty, same};
use metavars::Store;
use sqlite_items::Items;
use std::alloc::Global;

/// A store over `c` and `d`.
fn store_over(alloc: Global) -> Option<Store> {
    let mut consts = Items::new(alloc);
    consts.push(function_to(alloc, Simple::Atom(0))?).ok()?;
    consts.push(Simple::Atom(0)).ok()?;
    Store::new(alloc, consts.as_slice()).ok()
}

/// A store in which `?0 : a -> a`, `?1 : a -> a` and `?2 : a`.
fn three_metavariables(alloc: Global) -> Option<Store> {
    let mut store = store_over(alloc)?;
    store.new_meta(function_to(alloc, Simple::Atom(0))?).ok()?;
    store.new_meta(function_to(alloc, Simple::Atom(0))?).ok()?;
    store.new_meta(Simple::Atom(0)).ok()?;
    Some(store)
}

/// Whether the simple types are those of functions of so many arguments.
fn have_arguments(types: &[Simple], counts: &[u32]) -> bool {
    if types.len() != counts.len() {
        return false;
    }
    for place in 0..types.len() {
        if arguments(&types[place]) != Some(counts[place]) {
            return false;
        }
    }
    true
}

/// A solution, where the metavariable is there and unsolved.
fn solve(store: &mut Store, meta: u32, solution: Obj) -> Option<()>
    ensures { length store.old.added ≤ length store.new.added }
{
    if meta as usize >= store.metas().len() {
        return None;
    }
    if store.solution(meta).is_some() {
        return None;
    }
    store.solve(meta, solution).ok()
}

/// The solution `\x. h x`.
fn applies(alloc: Global, head: Head) -> Option<Obj> {
    lambda(alloc, applied(alloc, head, bare(alloc, Head::Var(0)))?)
}

/// `?0 := \x. ?1 x`, then `?1 := \x. c x`: so `?0 ?2` is `c ?2`.
fn chained(alloc: Global) -> Option<Store> {
    let mut store = three_metavariables(alloc)?;
    solve(&mut store, 0, applies(alloc, Head::Meta(1))?)?;
    solve(&mut store, 1, applies(alloc, Head::Const(0))?)?;
    Some(store)
}

/// The object `h k`.
fn call(alloc: Global, head: Head, argument: Head) -> Option<Obj> {
    applied(alloc, head, bare(alloc, argument))
}

/// Whether the solution of a metavariable is this object.
fn is_solved_by(store: &Store, meta: u32, wanted: &Obj) -> bool {
    match store.solution(meta) {
        Some(solution) => same(solution, wanted),
        None => false,
    }
}

fn has_its_constants(alloc: Global) -> Option<bool> {
    let store = store_over(alloc)?;
    Some(have_arguments(store.consts(), &[1, 0]) && store.metas().is_empty())
}

fn numbers_metavariables(alloc: Global) -> Option<bool> {
    let mut store = store_over(alloc)?;
    let first = store.new_meta(Simple::Atom(0)).ok()?;
    let second = store.new_meta(function_to(alloc, Simple::Atom(0))?).ok()?;
    Some(first == 0 && second == 1 && have_arguments(store.metas(), &[0, 1]))
}

fn keeps_solutions(alloc: Global) -> Option<bool> {
    let store = chained(alloc)?;
    let first = is_solved_by(&store, 0, &applies(alloc, Head::Meta(1))?);
    let second = is_solved_by(&store, 1, &applies(alloc, Head::Const(0))?);
    Some(first && second && store.solution(2).is_none() && store.solution(3).is_none())
}

fn puts_in_an_object(alloc: Global) -> Option<bool> {
    let mut store = chained(alloc)?;
    let obj = call(alloc, Head::Meta(0), Head::Meta(2))?;
    let open = store.instantiate(&obj).ok()?;
    solve(&mut store, 2, bare(alloc, Head::Const(1)))?;
    let closed = store.instantiate(&obj).ok()?;
    let partly = same(&open, &call(alloc, Head::Const(0), Head::Meta(2))?);
    Some(partly && same(&closed, &call(alloc, Head::Const(0), Head::Const(1))?))
}

fn puts_in_a_type(alloc: Global) -> Option<bool> {
    let store = chained(alloc)?;
    let ty = indexed(alloc, call(alloc, Head::Meta(0), Head::Const(1))?)?;
    let wanted = call(alloc, Head::Const(0), Head::Const(1))?;
    match store.instantiate_ty(&ty).ok()? {
        Ty::Fam { family, indices } => {
            let index = indices.get(0)?;
            Some(family == 1 && indices.len() == 1 && same(index, &wanted))
        }
        _ => None,
    }
}

/// At `a -> a`, with the persistent local `x : a`, the object is `\y. ?0 x y`.
fn makes_a_function(alloc: Global) -> Option<bool> {
    let mut store = store_over(alloc)?;
    let mut locals = Items::new(alloc);
    let mode = Mode::Persistent;
    let ty = Simple::Atom(0);
    locals.push(SimpleEntry { mode, ty }).ok()?;
    let made = store
        .fresh(&function_to(alloc, Simple::Atom(0))?, locals.as_slice())
        .ok()?;
    let older = bare(alloc, Head::Var(1));
    let newer = bare(alloc, Head::Var(0));
    let wanted = lambda(alloc, applied_twice(alloc, Head::Meta(0), older, newer)?)?;
    Some(same(&made, &wanted) && have_arguments(store.metas(), &[2]))
}

/// A metavariable and a solution that were added since a mark are taken back, and no more.
fn takes_back(alloc: Global) -> Option<bool> {
    let mut store = three_metavariables(alloc)?;
    solve(&mut store, 2, bare(alloc, Head::Const(1)))?;
    let mark = store.mark();
    store.new_meta(Simple::Atom(0)).ok()?;
    solve(&mut store, 0, applies(alloc, Head::Const(0))?)?;
    store.undo(mark);
    let kept = is_solved_by(&store, 2, &bare(alloc, Head::Const(1)));
    Some(kept && store.solution(0).is_none() && have_arguments(store.metas(), &[1, 1, 0]))
}

#[test]
fn a_store_has_its_constants(rt: HostRuntime) {
    assert!(rt; has_its_constants(rt.alloc()) == Some(true));
}

#[test]
fn metavariables_are_numbered(rt: HostRuntime) {
    assert!(rt; numbers_metavariables(rt.alloc()) == Some(true));
}

#[test]
fn solutions_are_kept(rt: HostRuntime) {
    assert!(rt; keeps_solutions(rt.alloc()) == Some(true));
}

#[test]
fn solutions_are_put_into_an_object(rt: HostRuntime) {
    assert!(rt; puts_in_an_object(rt.alloc()) == Some(true));
}

#[test]
fn solutions_are_put_into_a_type(rt: HostRuntime) {
    assert!(rt; puts_in_a_type(rt.alloc()) == Some(true));
}

#[test]
fn a_function_is_made_of_a_new_metavariable(rt: HostRuntime) {
    assert!(rt; makes_a_function(rt.alloc()) == Some(true));
}

#[test]
fn what_was_added_is_taken_back(rt: HostRuntime) {
    assert!(rt; takes_back(rt.alloc()) == Some(true));
}
