//! How a run ends.
ghost use Rattle.std.specs.Prelude.{◌≡◌};
ghost use Rattle.celf_run.specs.Number.{number_of};

use clf_syntax::Wide;

/// How a run ended; `number` is the program's exit status.
#[derive(Drop)]
pub enum Status {
    /// Every item was answered.
    Done,
    /// An item was refused; its line is the last.
    Refused,
    /// The words are not the program's name and a file's name; nothing was read or written.
    BadWords,
    /// The shelf failed; nothing was written.
    ReadFault,
    /// The sink failed; what was written is the front of what was to be written.
    WriteFault,
    /// Memory ran out; the answers of earlier items and the front of the next one's are written.
    NoMemory,
    /// The file has more than 16,777,216 bytes; nothing was written.
    TooLarge,
    /// A number that counts binders or parts would pass its range; written is what is written at `NoMemory`.
    TooFar(Wide),
}

impl Status {
    /// The exit status of the program.
    pub fn number(&self) -> u8
        ensures { result ≡ number_of self.now }
    {
        match self {
            Status::Done => 0,
            Status::BadWords => 2,
            Status::Refused => 3,
            Status::ReadFault => 4,
            Status::WriteFault => 5,
            Status::NoMemory => 6,
            Status::TooLarge => 7,
            Status::TooFar(_) => 8,
        }
    }
}
