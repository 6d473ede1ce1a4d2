//! The program: `celf FILE`.
#![tactic(auto)]

ghost use Rattle.std.specs.Prelude.{◌≡◌, IfOk, map, string_bytes};

mod file_shelf;
mod print_sink;
#[cfg(test)]
mod tests;

use celf_run::{Status, run};
use clf_syntax::Name;
use file_shelf::FileShelf;
use print_sink::PrintSink;
use std::alloc::{AllocError, Global};
use std::env;
use std::io::ErrorKind;
use std::process::ExitCode;
use std::rt::{Env, Runtime};

/// Ends with the status's number. Where the words are faulty, it tells the usage on standard error.
fn main(rt: HostRuntime) -> ExitCode {
    let status = answer(&rt);
    if matches!(&status, Status::BadWords) {
        // Where standard error takes nothing, the status tells all the same.
        let _ = eprintln!(rt; "usage: celf FILE");
    }
    ExitCode::from(status.number())
}

/// Answers the items of the file that the command line names, on standard output.
fn answer<R: Runtime + AllocGlobal>(rt: &R) -> Status {
    let words = match words(rt) {
        Ok(words) => words,
        Err(status) => return status,
    };
    match names(rt.alloc(), words.as_slice()) {
        Ok(names) => run(
            rt.alloc(),
            names.as_slice(),
            &mut FileShelf::new(rt),
            &mut PrintSink::new(rt),
        ),
        Err(_) => Status::NoMemory,
    }
}

/// The words of the command line. One that isn't UTF-8 is a faulty word.
fn words<R: Env + AllocGlobal>(rt: &R) -> Result<Vec<String>, Status> {
    match env::args(rt) {
        Ok(args) => args.collect(rt.alloc()).map_err(|_| Status::NoMemory),
        Err(error) if error.kind() == ErrorKind::OutOfMemory => Err(Status::NoMemory),
        Err(_) => Err(Status::BadWords),
    }
}

/// The words as names. It fails only where memory runs out.
fn names(alloc: Global, words: &[String]) -> Result<Vec<Name>, AllocError>
    ensures { IfOk result (λ names. names.items ≡ map string_bytes words.now) }
{
    let mut names = Vec::new(alloc);
    for word in words {
        names.push(Name::new(alloc, word.as_str())?)?;
    }
    Ok(names)
}
