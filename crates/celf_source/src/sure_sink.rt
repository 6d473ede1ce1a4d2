//! A sink in memory that fails by lack of memory alone.
ghost use Rattle.std.specs.Prelude.{◌≡◌, [], ◌++◌, length, IfOk, OnOk, OnErr, IsErrOf, Some};

use crate::sink::{Sink, SinkFault};
use std::alloc::{AllocError, Global};
use std::marker::Model;

/// What was written. It never answers `Failed`.
#[derive(Debug, Drop)]
pub struct SureSink {
    written: Vec<u8>,
}

impl Model for SureSink {
    ghost use Rattle.std.specs.Prelude.{List, ℕ};

    ghost Value = { List ℕ };

    ghost view = { λ sink. sink.written.items };
}

impl SureSink {
    /// A sink to which nothing was written.
    pub fn new(alloc: Global) -> Result<SureSink, AllocError>
        ensures { IfOk result (λ sink. sink ≡ []) }
    {
        Ok(SureSink {
            written: Vec::new(alloc),
        })
    }

    /// What was written so far.
    pub fn written(&self) -> &[u8]
        ensures { result.now ≡ self.now }
    {
        self.written.as_slice()
    }
}

impl Sink for SureSink {
    ghost written = { λ sink. Some sink };

    ghost faults = { λ _. 0 };

    fn write(&mut self, bytes: &[u8]) -> Result<usize, SinkFault>
        ensures whole { IfOk result (λ count. count ≡ length bytes.now) }
        ensures written { OnOk result (self.new ≡ self.old ++ bytes.now) }
        ensures nothing { OnErr result (self.new ≡ self.old) }
        ensures sure { IsErrOf result SinkFault.Failed → ⊥ }
    {
        self.written.extend_from_slice(bytes)?;
        Ok(bytes.len())
    }
}
