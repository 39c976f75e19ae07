//! What opens files.

ghost use Rattle.std.specs.Prelude.{◌≡◌, [], ◌∷◌, Some, IfOk, IfSome};
ghost use Rattle.pim_files.specs.Files.{Known, RequestsFor, Opens, bytes_later};

use pim_addr::Feed;
use std::alloc::{AllocError, Global};

/// Why a file can't be opened.
#[derive(Clone, Copy, Debug, PartialEq, Eq)]
pub enum FileCause {
    /// There is no file of this name.
    Missing,
    /// It may not be read.
    Denied,
    /// It is a directory.
    Directory,
    /// Another cause.
    Other,
}

/// Why a file isn't open.
#[derive(Clone, Copy, Debug, PartialEq, Eq)]
pub enum Unopened {
    /// The file can't be opened.
    File(FileCause),
    /// An allocation was refused.
    Memory,
}

/// A device that opens files by name.
pub trait Opener {
    /// What reads an open file.
    type Reader: Feed + Drop;

    // What is known of the files, and of the names that it was asked for.
    ghost known: { Self → Known };

    /// Opens the file of this name, at its beginning.
    ///
    /// # Errors
    /// Why it isn't open.
    fn open(&mut self, alloc: Global, name: &str) -> Result<Self::Reader, Unopened>
        ensures requested { RequestsFor (known self.old) (known self.new) (name.now ∷ []) }
        ensures opened { IfSome (known self.old).files (λ files.
            Opens Self.Reader.remaining files name.now result) };

    /// Returns a reader of the file of this name, which opens it at its first read. If the file
    /// can't be opened then, that read fails, and so does each later one. The reader closes the
    /// file at its end, or after a read that failed.
    ///
    /// # Errors
    /// If an allocation is refused.
    fn open_later(&mut self, alloc: Global, name: &str) -> Result<Self::Reader, AllocError>
        ensures requested { RequestsFor (known self.old) (known self.new) (name.now ∷ []) }
        ensures opened { IfSome (known self.old).files (λ files. IfOk result (λ reader.
            Self.Reader.remaining reader ≡ Some (bytes_later files name.now))) };
}
