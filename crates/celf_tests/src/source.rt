//! Files that are read and texts that are written. Each call of a sink fails in turn in `run`.
use celf_source::{MemShelf, ReadAllFault, ShelfFile, SureShelf, SureSink, read_all, write_all};
use clf_syntax::Name;
use std::alloc::Global;
use std::test::Fail;

fn file_of(alloc: Global, name: &str, bytes: &[u8]) -> Result<ShelfFile, Fail> {
    Ok(ShelfFile {
        name: Name::new(alloc, name)?,
        bytes: bytes.to_vec(alloc)?,
    })
}

/// Two files of one name, of which the first is the one that is read.
fn shelf_with(alloc: Global, failing: u64) -> Result<MemShelf, Fail> {
    let mut files = Vec::new(alloc);
    files.push(file_of(alloc, "long", &[7; 5000])?)?;
    files.push(file_of(alloc, "long", b"hidden")?)?;
    Ok(MemShelf::new(alloc, files, vec![in alloc; failing]?)?)
}

fn size_of(file: Result<Vec<u8>, ReadAllFault>) -> Result<usize, ReadAllFault> {
    match file {
        Ok(bytes) => Ok(bytes.len()),
        Err(fault) => Err(fault),
    }
}

/// The size of a file of so many bytes that is read with this limit.
fn size_read(alloc: Global, size: usize, limit: u32) -> Result<Result<usize, ReadAllFault>, Fail> {
    let mut shelf = SureShelf::new(alloc, vec![in alloc; 7u8; size]?)?;
    Ok(size_of(read_all(alloc, &mut shelf, "any", limit)))
}

#[test]
fn a_file_is_read_to_its_end_or_its_limit(rt: HostRuntime) -> Result<(), Fail> {
    let alloc = rt.alloc();
    assert_eq!(rt; size_read(alloc, 4097, 4097)?, Ok(4097));
    assert_eq!(rt; size_read(alloc, 4097, 4096)?, Err(ReadAllFault::TooLarge));
    Ok(())
}

/// What is read of a file where this call of the shelf fails, and how many calls there are.
fn read_with(alloc: Global, failing: u64) -> Result<(Result<usize, ReadAllFault>, u64), Fail> {
    let mut shelf = shelf_with(alloc, failing)?;
    let size = size_of(read_all(alloc, &mut shelf, "long", 5000));
    Ok((size, shelf.calls()))
}

#[test]
fn each_call_of_a_shelf_fails_in_turn(rt: HostRuntime) -> Result<(), Fail> {
    let alloc = rt.alloc();
    // One call opens the file, and three read 4,096 bytes, 904 bytes and the end.
    for (failing, wanted) in [
        (1, (Err(ReadAllFault::ReadFault), 1)),
        (2, (Err(ReadAllFault::ReadFault), 2)),
        (3, (Err(ReadAllFault::ReadFault), 3)),
        (4, (Err(ReadAllFault::ReadFault), 4)),
        (5, (Ok(5000), 4)),
    ] {
        assert_eq!(rt; read_with(alloc, failing)?, wanted, "call {failing} fails");
    }
    Ok(())
}

#[test]
fn a_sure_sink_takes_all(rt: HostRuntime) -> Result<(), Fail> {
    let mut sink = SureSink::new(rt.alloc())?;
    assert_eq!(rt; write_all(&mut sink, b"one "), Ok(()));
    assert_eq!(rt; write_all(&mut sink, b"two"), Ok(()));
    assert_eq!(rt; sink.written(), b"one two".as_slice());
    Ok(())
}
