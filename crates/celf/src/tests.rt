use crate::file_shelf::FileShelf;
use crate::print_sink::PrintSink;
use celf_source::{Failed, Shelf, Sink, SinkFault};
use std::fmt::Display;
use std::test::Fail;
use std::{fs, io};

#[test]
fn a_file_is_read_by_its_path(rt: HostRuntime) -> Result<(), Fail> {
    let path = "celf-shelf-test.txt";
    fs::write(&rt, path, "abc")?;
    let mut shelf = FileShelf::new(&rt);
    let mut buf = [0; 2];
    assert_eq!(rt; shelf.read(&mut buf), Err(Failed), "nothing is open");
    assert_eq!(rt; shelf.open_file("celf-shelf-test-missing.txt"), Err(Failed));
    assert_eq!(rt; shelf.open_file(path), Ok(()));
    assert_eq!(rt; shelf.read(&mut buf), Ok(2));
    assert_eq!(rt; buf, *b"ab");
    assert_eq!(rt; shelf.read(&mut buf), Ok(1));
    assert_eq!(rt; buf[0], b'c');
    assert_eq!(rt; shelf.read(&mut buf), Ok(0));
    fs::remove_file(&rt, path)?;
    Ok(())
}

/// An output that takes so many bytes of each piece, or fails where there is no number.
#[derive(Drop)]
struct Output {
    takes: Option<usize>,
}

impl Print for Output {
    fn print<D: Display + Drop>(&self, _value: D) -> io::Result<()> {
        Ok(())
    }

    fn println<D: Display + Drop>(&self, _value: D) -> io::Result<()> {
        Ok(())
    }

    fn write_all(&self, _bytes: &[u8]) -> io::Result<()> {
        Ok(())
    }

    fn write_some(&self, bytes: &[u8]) -> io::Result<usize> {
        match self.takes {
            Some(takes) => Ok(bytes.len().min(takes)),
            None => Err(io::ErrorKind::BrokenPipe.into()),
        }
    }
}

#[test]
fn an_output_fails_where_it_takes_nothing(rt: HostRuntime) -> Result<(), Fail> {
    for (takes, piece, wanted) in [
        (Some(5), "abc", Ok(3)),
        (Some(2), "abc", Ok(2)),
        (Some(0), "", Ok(0)),
        (Some(0), "abc", Err(SinkFault::Failed)),
        (None, "abc", Err(SinkFault::Failed)),
    ] {
        let mut sink = PrintSink::new(Output { takes });
        assert_eq!(rt;
            sink.write(piece.as_bytes()),
            wanted,
            "{takes:?} of {piece:?}"
        );
    }
    Ok(())
}
