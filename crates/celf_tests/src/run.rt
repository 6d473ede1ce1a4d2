//! Runs over files that are held in memory, whose calls fail in turn. What is answered to which text stands in tests/,
//! as files, and tools/check-limits tries the words of the command.
use celf_run::run;
use celf_source::{MemShelf, MemSink, Shelf, ShelfFile, Sink, SureSink};
use clf_syntax::Name;
use std::alloc::Global;
use std::process::Abort;
use std::test::Fail;

const WORDS: [&str; 2] = ["celf", "file"];

/// The numbers of the statuses.
const REFUSED: u8 = 3;

const READ_FAULT: u8 = 4;

const WRITE_FAULT: u8 = 5;

fn words_of(alloc: Global, words: &[&str]) -> Result<Vec<Name>, Fail> {
    let mut names = Vec::new(alloc);
    for word in words {
        names.push(Name::new(alloc, word)?)?;
    }
    Ok(names)
}

/// The number of the status with which a run ends.
fn answer<F: Shelf, W: Sink>(alloc: Global, shelf: &mut F, out: &mut W) -> Result<u8, Fail> {
    let words = words_of(alloc, &WORDS)?;
    Ok(run(alloc, words.as_slice(), shelf, out).number())
}

fn assert_same(rt: &impl Abort, ended: u8, status: u8, written: &[u8], wanted: &[u8]) {
    assert_eq!(rt; ended, status);
    assert_eq!(rt; written, wanted);
}

/// A shelf with the file, whose call of this number fails.
fn shelf_with(alloc: Global, reading: u64) -> Result<MemShelf, Fail> {
    let file = ShelfFile {
        name: Name::new(alloc, "file")?,
        bytes: b"a : type. b : type. c : a -o b. d : e.".to_vec(alloc)?,
    };
    Ok(MemShelf::new(alloc, vec![in alloc; file]?, vec![in alloc; reading]?)?)
}

/// Asserts how a run ends, and what it writes, where these calls of its shelf and its sink fail.
fn assert_failing(
    rt: &impl Abort,
    alloc: Global,
    reading: u64,
    writing: u64,
    status: u8,
    written: &str,
) -> Result<(), Fail> {
    let mut shelf = shelf_with(alloc, reading)?;
    let mut out = MemSink::new(alloc, vec![in alloc; writing]?)?;
    let ended = answer(alloc, &mut shelf, &mut out)?;
    assert_same(rt, ended, status, out.written(), written.as_bytes());
    Ok(())
}

#[test]
fn a_run_needs_its_file(rt: HostRuntime) -> Result<(), Fail> {
    let alloc = rt.alloc();
    let mut empty = MemShelf::new(alloc, Vec::new(alloc), Vec::new(alloc))?;
    let mut out = SureSink::new(alloc)?;
    let ended = answer(alloc, &mut empty, &mut out)?;
    assert_same(&rt, ended, READ_FAULT, out.written(), b"");
    Ok(())
}

#[test]
fn each_call_of_shelf_and_sink_fails_in_turn(rt: HostRuntime) -> Result<(), Fail> {
    let alloc = rt.alloc();
    // One call opens the file and two read it; a call is made for each line. No call has the number 9.
    for (reading, writing, status, written) in [
        (1, 9, READ_FAULT, ""),
        (2, 9, READ_FAULT, ""),
        (3, 9, READ_FAULT, ""),
        (9, 1, WRITE_FAULT, ""),
        (9, 2, WRITE_FAULT, "a : type.\n"),
        (9, 3, WRITE_FAULT, "a : type.\nb : type.\n"),
        (9, 4, WRITE_FAULT, "a : type.\nb : type.\nc : a -o b.\n"),
        (
            9,
            9,
            REFUSED,
            "a : type.\nb : type.\nc : a -o b.\nrefused at 36: unknown name e.\n",
        ),
    ] {
        assert_failing(&rt, alloc, reading, writing, status, written)?;
    }
    Ok(())
}
