//! A sink over standard output.
ghost use Rattle.std.specs.Prelude.{◌≡◌, ◌≤◌, None};
ghost use Rattle.celf_source.specs.Count.{Rose};
ghost use Rattle.celf_source.specs.declared.sink.SinkFault.TheVariants as variant;

use celf_source::{Sink, SinkFault};
use std::io;
use std::io::Write;

/// Standard output, and a count of failures. It tells nothing of what was written.
#[derive(Drop)]
pub struct PrintSink<R: Print + Drop> {
    output: R,
    faults: u64,
}

impl<R: Print + Drop> PrintSink<R> {
    /// A sink that has not failed.
    pub fn new(output: R) -> PrintSink<R>
        ensures { ⟦<PrintSink<R> as Sink>⟧.faults result ≡ 0 }
    {
        PrintSink { output, faults: 0 }
    }

    /// Counts a failure. The count stays at its type's end.
    fn fail(&mut self) -> SinkFault
        ensures answer { result ≡ variant.Failed }
        ensures failed { Rose self.old.faults self.new.faults }
        ensures faults { self.old.faults ≤ self.new.faults }
    {
        self.faults = self.faults.saturating_add(1);
        SinkFault::Failed
    }
}

impl<R: Print + Drop> Sink for PrintSink<R> {
    ghost written = { λ _. None };

    ghost faults = { λ sink. sink.faults };

    /// A write that takes nothing of a piece that isn't empty counts as a failure.
    fn write(&mut self, bytes: &[u8]) -> Result<usize, SinkFault> {
        match io::writer(&self.output).write(bytes) {
            Ok(0) if !bytes.is_empty() => Err(self.fail()),
            Ok(count) => Ok(count),
            Err(_) => Err(self.fail()),
        }
    }
}
