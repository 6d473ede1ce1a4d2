//! A shelf over the files of the system.
ghost use Rattle.std.specs.Prelude.{◌≡◌, ◌≤◌, None};
ghost use Rattle.celf_source.specs.Count.{Rose};
ghost use Rattle.celf_source.specs.Shelf.{untold};

use celf_source::{Failed, Shelf};
use std::fs;
use std::io::Read;
use std::rt::Files;

/// The files of the system by their paths, of which one is open at a time, and a count of failures.
/// It tells nothing of what the files hold.
#[derive(Drop)]
pub struct FileShelf<R: Files + Drop> {
    files: R,
    open: Option<R::File>,
    faults: u64,
}

impl<R: Files + Drop> FileShelf<R> {
    /// A shelf with no file open.
    pub fn new(files: R) -> FileShelf<R>
        ensures { ⟦<FileShelf<R> as Shelf>⟧.faults result ≡ 0 }
    {
        FileShelf {
            files,
            open: None,
            faults: 0,
        }
    }

    /// Counts a failure. The count stays at its type's end.
    fn fail(&mut self) -> Failed
        ensures failed { Rose self.old.faults self.new.faults }
        ensures faults { self.old.faults ≤ self.new.faults }
    {
        self.faults = self.faults.saturating_add(1);
        Failed
    }
}

impl<R: Files + Drop> Shelf for FileShelf<R> {
    ghost told = { λ _ _. untold };

    ghost left = { λ _. None };

    ghost faults = { λ shelf. shelf.faults };

    ghost lacks = { λ _. 0 };

    fn open_file(&mut self, name: &str) -> Result<(), Failed> {
        match fs::open(&self.files, name) {
            Ok(file) => {
                self.open = Some(file);
                Ok(())
            }
            Err(_) => Err(self.fail()),
        }
    }

    /// Fails where no file is open.
    fn read(&mut self, buf: &mut [u8]) -> Result<usize, Failed> {
        let Some(file) = &mut self.open else {
            return Err(self.fail());
        };
        match file.read(buf) {
            Ok(count) => Ok(count),
            Err(_) => Err(self.fail()),
        }
    }
}
