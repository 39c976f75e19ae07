//! Standard input as one of the files of a task.

ghost use Rattle.pim_files.specs.Files.{nothing_known};

use pim_files::{Opener, Unopened};
use pim_words::STANDARD_INPUT;
use std::alloc::{AllocError, Global};

/// Opens standard input by one opener, and files by another one. Where any container is read, `-`
/// is the name of standard input.
#[derive(Drop)]
pub struct WithInput<O: Drop, I: Drop> {
    files: O,
    input: I,
    reads_any: bool,
}

impl<O: Drop, I: Drop> WithInput<O, I> {
    /// Returns such an opener, where any container is read or not.
    pub fn new(files: O, input: I, reads_any: bool) -> Self {
        WithInput {
            files,
            input,
            reads_any,
        }
    }
}

impl<O: Opener + Drop, I: Opener<Reader = O::Reader> + Drop> Opener for WithInput<O, I> {
    type Reader = O::Reader;

    ghost known = { λ _. nothing_known };

    fn open(&mut self, alloc: Global, name: &str) -> Result<O::Reader, Unopened> {
        if self.reads_any && name == STANDARD_INPUT {
            return self.input.open(alloc, name);
        }
        self.files.open(alloc, name)
    }

    fn open_later(&mut self, alloc: Global, name: &str) -> Result<O::Reader, AllocError> {
        if self.reads_any && name == STANDARD_INPUT {
            return self.input.open_later(alloc, name);
        }
        self.files.open_later(alloc, name)
    }
}
