//! Files in memory.
ghost use Rattle.std.specs.Prelude.{◌≡◌, ◌<◌, ◌+◌, ◌^◌, length, take, min, MatchOption};
ghost use Rattle.celf_source.specs.Shelf.{lacking, holding};
ghost use Rattle.celf_source.specs.Files.{told_in, bytes_at, left_in, IsOpenedIn};

use clf_syntax::Name;
use std::marker::Model;

/// A file and its name.
#[derive(Drop)]
pub struct ShelfFile {
    pub name: Name,
    pub bytes: Vec<u8>,
}

impl Model for ShelfFile {
    ghost use Rattle.celf_source.specs.Files.{NamedFile};

    ghost Value = { NamedFile };

    ghost view = { λ file. record { name = file.name; bytes = file.bytes.items } };
}

/// The place of the first file of a name.
pub(crate) fn place_of(files: &[ShelfFile], name: &str) -> Option<usize>
    ensures place { MatchOption result (told_in files.now name.now ≡ lacking)
        (λ place. told_in files.now name.now ≡ holding (bytes_at files.now place)) }
    ensures within { MatchOption result (Unit {0}) (λ place. place < length files.now) }
{
    for (place, file) in files.iter().enumerate() {
        if file.name.as_str() == name {
            return Some(place);
        }
    }
    None
}

/// What is left of the opened file after the bytes taken: nothing, where none was opened.
pub(crate) fn left_of(files: &[ShelfFile], opened: Option<usize>, taken: usize) -> &[u8]
    requires { IsOpenedIn files.now opened taken }
    ensures left { result.now ≡ left_in files.now opened taken }
    ensures bound { taken + length result.now < 2 ^ 64 }
{
    match opened {
        None => &[],
        Some(place) => {
            let file = &files[place];
            &file.bytes[taken..]
        }
    }
}

/// Copies the first bytes of `rest` to the front of the buffer, as many as both have, and answers how many.
pub(crate) fn copy_front(rest: &[u8], buf: &mut [u8]) -> usize
    ensures count { result ≡ min (length rest.now) (length buf.old) }
    ensures front { take result buf.new ≡ take result rest.now }
{
    let count = rest.len().min(buf.len());
    buf[..count].copy_from_slice(&rest[..count]);
    count
}
