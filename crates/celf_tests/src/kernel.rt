//! The call of the kernel that the program does not make. Those that it makes are tried by checks, as files in tests/.
ghost use Rattle.std.specs.Prelude.{◌≡◌};
ghost use Rattle.clf_sig.specs.Signature.{plain_entry, plain_signature};
ghost use Rattle.clf_rules.specs.WellFormed.{WellFormedSignature};

use crate::trees::{atom, constant, family, function};
use clf_kernel::{Cause, Refusal, check_entry};
use clf_sig::{Entry, Signature};
use clf_syntax::{Head, Mode, OrWide, Ty};
use std::alloc::Global;
use std::process::Abort;
use std::test::Fail;

/// The answer about an entry none of whose arguments is implicit.
fn checked(alloc: Global, sig: &Signature, entry: Entry) -> Result<(), OrWide<Refusal>>
    requires signature { WellFormedSignature (plain_signature sig.now) }
    requires implicit { (plain_entry entry).implicit ≡ 0 }
{
    let answer = check_entry(alloc, sig, &entry);
    // By a call, as below: dropped at the end, each form of the tree would be a case of this function.
    drop(entry);
    answer
}

fn assert_accepted(rt: &impl Abort, answer: Result<(), OrWide<Refusal>>) {
    let accepted = answer.is_ok();
    drop(answer);
    assert!(rt; accepted);
}

/// Asserts that the family on the right of a function is refused, which the signature does not have.
fn assert_unknown(rt: &impl Abort, refusal: &Refusal) {
    assert!(rt; refusal.path.as_slice() == [1].as_slice());
    assert!(rt;
        matches!(
            refusal.cause,
            Cause::UnknownHead {
                head: Head::Const(0)
            }
        )
    );
}

fn assert_refused(rt: &impl Abort, answer: Result<(), OrWide<Refusal>>) {
    match answer {
        Err(OrWide::Fault(refusal)) => {
            assert_unknown(rt, &refusal);
            drop(refusal);
        }
        Ok(_answer) => panic!(rt; "not refused"),
        Err(OrWide::NoMemory) => panic!(rt; "no memory"),
        Err(OrWide::TooFar(_wide)) => panic!(rt; "too far"),
    }
}

#[test]
fn entries_are_checked(rt: HostRuntime) -> Result<(), Fail> {
    let alloc = rt.alloc();
    let sig = Signature::new(alloc);
    assert_accepted(&rt, checked(alloc, &sig, family(alloc)));
    // `<T> -o a`, where nothing is declared
    let ty = function(alloc, Mode::Linear, Ty::Top, atom(alloc, 0))?;
    assert_refused(&rt, checked(alloc, &sig, constant(ty)));
    Ok(())
}
