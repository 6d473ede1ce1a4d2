//! Texts of entries, line by line.
use crate::trees::{atom, family, function};
use clf_printer::entry_text;
use clf_sig::{Class, Entry, Signature};
use clf_syntax::{Head, Mode, Neutral, Obj, Ty};
use sqlite_items::Items;
use std::alloc::Global;
use std::process::Abort;
use std::test::Fail;

/// The family at an index, the variable that is bound nearest.
fn family_at_variable(alloc: Global) -> Result<Ty, Fail> {
    let head = Head::Var(0);
    let spine = Items::new(alloc);
    let neutral = Neutral { head, spine };
    let mut indices = Items::new(alloc);
    indices.push(Obj::At { neutral })?;
    Ok(Ty::Fam { family: 0, indices })
}

/// `x1`, a constant with an implicit argument.
fn with_implicit(alloc: Global) -> Result<Entry, Fail> {
    let rest = family_at_variable(alloc)?;
    let class = Class::Constant(function(alloc, Mode::Persistent, atom(alloc, 0), rest)?);
    Ok(Entry { implicit: 1, class })
}

/// Asserts that the entry at a place is printed as this text.
fn assert_printed(
    rt: &impl Abort,
    alloc: Global,
    sig: &Signature,
    place: u32,
    text: &str,
) -> Result<(), Fail> {
    let shown = entry_text(alloc, sig, place)?;
    assert!(rt; shown.as_slice() == text.as_bytes(), "of {text}");
    Ok(())
}

fn assert_texts(rt: &impl Abort, alloc: Global, sig: &Signature) -> Result<(), Fail> {
    assert_printed(rt, alloc, sig, 0, "a : type.")?;
    assert_printed(rt, alloc, sig, 1, "x1 : [1] Pi x1: a. a !x1.")?;
    assert_printed(rt, alloc, sig, 2, "$")
}

#[test]
fn prints_entries(rt: HostRuntime) -> Result<(), Fail> {
    let alloc = rt.alloc();
    let constant = with_implicit(alloc)?;
    let mut sig = Signature::new(alloc);
    let _ = sig.add("a", family(alloc));
    let _ = sig.add("x1", constant);
    assert_texts(&rt, alloc, &sig)
}
