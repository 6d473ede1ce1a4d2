//! The calls of a signature and its entries that the program does not make. Those that it makes are tried by files in
//! tests/, and a full signature by tools/check-limits.
use crate::trees::{atom, constant, family, function};
use clf_sig::{Entry, Signature};
use clf_syntax::Mode;
use std::alloc::Global;
use std::process::Abort;
use std::test::Fail;

/// `a -o a`
fn arrow(alloc: Global) -> Result<Entry, Fail> {
    Ok(constant(function(alloc, Mode::Linear, atom(alloc, 0), atom(alloc, 0))?))
}

/// A copy of the entry of `a -o a`.
fn copied_arrow(alloc: Global) -> Result<Entry, Fail> {
    let entry = arrow(alloc)?;
    let copy = entry.copy(alloc);
    // By a call: dropped at the end, each form of the tree would be a case of this function.
    drop(entry);
    Ok(copy?)
}

/// Asserts that the entry is declared at this place.
fn assert_added(rt: &impl Abort, signature: &mut Signature, name: &str, entry: Entry, place: u32) {
    match signature.add(name, entry) {
        Ok(added) => assert_eq!(rt; added, place),
        Err(_fault) => panic!(rt; "{name} is not added"),
    }
}

#[test]
fn a_copy_is_declared(rt: HostRuntime) -> Result<(), Fail> {
    let alloc = rt.alloc();
    let arrow = copied_arrow(alloc)?;
    let mut signature = Signature::new(alloc);
    assert!(rt; signature.is_empty());
    assert_added(&rt, &mut signature, "a", family(alloc), 0);
    assert_added(&rt, &mut signature, "c", arrow, 1);
    Ok(())
}
