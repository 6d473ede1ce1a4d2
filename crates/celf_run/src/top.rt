//! A whole run.
ghost use Rattle.std.specs.Prelude.{ℕ, List, ◌≡◌, ◌≤◌, ◌↔◌, length, Some, IsNone};
ghost use Rattle.celf_lexer.specs.Tokens.{size_limit};
ghost use Rattle.celf_source.specs.Count.{Rose};
ghost use Rattle.celf_source.specs.Shelf.{CountsLack};
ghost use Rattle.celf_run.specs.Options.{default_options};
ghost use Rattle.celf_run.specs.Run.{Run, silent, start, nothing_held, way};
ghost use Rattle.celf_run.specs.Turning.{Finishes, KeepsWide};
ghost use Rattle.celf_run.specs.Words.{file_word as file_word_of};

use crate::options::Options;
use crate::status::Status;
use crate::turn::{Turn, next_turn};
use crate::words::file_word;
use celf_source::{ReadAllFault, Shelf, Sink, read_all};
use clf_sig::Signature;
use clf_syntax::Name;
use std::alloc::Global;

/// The greatest size of a file, in bytes.
const MAX_BYTES: u32 = 16_777_216;

/// Reads the file that the words name and answers its items in order, each by the lines of its reply.
///
/// The words are the program's name and a file's name. The lines of an item are written before the next item is begun.
/// `Status` says how the run ended; lack of memory is the one end that no clause ties to a cause.
pub fn run<F: Shelf, W: Sink>(alloc: Global, words: &[Name], shelf: &mut F, out: &mut W) -> Status
    ensures bad_words { (result ≡ Status.BadWords) ↔ IsNone (file_word_of words.now) }
    ensures idle { result ≡ Status.BadWords → shelf.new ≡ shelf.old }

    // What is written, by what the shelf tells of its files.
    ensures run { (name : List ℕ) → file_word_of words.now ≡ Some name →
        Run default_options name (F.told shelf.old) result (W.written out.old) (W.written out.new) }
    ensures silent { way result ≡ silent → out.new ≡ out.old }

    // A fault is answered only where the device's count of faults rose in this call, and no other file is asked for.
    ensures read_fault { result ≡ Status.ReadFault → Rose (F.faults shelf.old) (F.faults shelf.new) }
    ensures write_fault { result ≡ Status.WriteFault → Rose (W.faults out.old) (W.faults out.new) }
    ensures lacks { (name : List ℕ) → file_word_of words.now ≡ Some name →
        CountsLack (F.told shelf.old name) (F.lacks shelf.old) (F.lacks shelf.new) }
    ensures told { F.told shelf.new ≡ F.told shelf.old }

    // A number is past its range only with the long list that was counted.
    ensures too_far { KeepsWide result }
{
    let Some(file) = file_word(words) else {
        return Status::BadWords;
    };
    match read_all(alloc, shelf, file.as_str(), MAX_BYTES) {
        Ok(bytes) => answer_all(alloc, &Options::new(), bytes.as_slice(), out),
        Err(ReadAllFault::ReadFault) => Status::ReadFault,
        Err(ReadAllFault::TooLarge) => Status::TooLarge,
        Err(ReadAllFault::NoMemory) => Status::NoMemory,
    }
}

/// Answers the items of a text, one after the other.
fn answer_all<W: Sink>(alloc: Global, options: &Options, bytes: &[u8], out: &mut W) -> Status
    requires { length bytes.now ≤ size_limit }
    ensures ended { Finishes options.now (start bytes.now) nothing_held (W.written out.old) (W.written out.new) result }
    ensures write_fault { result ≡ Status.WriteFault → Rose (W.faults out.old) (W.faults out.new) }
    ensures too_far { KeepsWide result }
{
    let mut sig = Signature::new(alloc);
    let mut at = 0;
    'items: loop {
        match next_turn(alloc, options, bytes, at, &mut sig, out) {
            Turn::Next(end) => at = end,
            Turn::Ended(status) => return status,
        }
    }
}
