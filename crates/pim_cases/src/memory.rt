//! Files and standard input in memory.

use pim_addr::ScriptedFeed;
use pim_files::HeldFile;
use std::alloc::{AllocError, Global};

/// The most bytes that a read of a short file gives, so that most lines and records come in pieces.
pub const MOST_READ: usize = 7;

/// The most reads, about, that a file takes.
const MOST_READS: usize = 100_000;

/// What a file or standard input holds.
#[derive(Drop)]
pub struct Held<'a> {
    /// The name of the file.
    pub name: &'a str,
    /// Its bytes.
    pub bytes: Vec<u8>,
    /// Whether a read after the bytes fails. Otherwise the file ends there.
    pub fails: bool,
}

impl<'a> Held<'a> {
    /// Returns an empty file of this name.
    pub fn new(alloc: Global, name: &'a str) -> Self {
        Held {
            name,
            bytes: Vec::new(alloc),
            fails: false,
        }
    }

    /// The number of bytes after which each read fails.
    fn fails_from(&self) -> usize {
        if self.fails {
            self.bytes.len()
        } else {
            usize::MAX
        }
    }

    /// Returns a reader at the beginning.
    pub fn reader(&self) -> ScriptedFeed<'_> {
        let most = MOST_READ.max(self.bytes.len() / MOST_READS);
        ScriptedFeed::new(&self.bytes, most, self.fails_from())
    }

    /// Returns the file, for an opener, by this name.
    pub fn as_file<'h>(&'h self, name: &'h str) -> HeldFile<'h> {
        HeldFile {
            name,
            bytes: &self.bytes,
            fails_from: self.fails_from(),
        }
    }
}

/// The files for an opener, the later ones first. So of two with one name it opens the later one.
pub fn files_of<'c>(alloc: Global, held: &'c [Held<'_>]) -> Result<Vec<HeldFile<'c>>, AllocError> {
    let mut files = Vec::new(alloc);
    for file in held.iter().rev() {
        files.push(file.as_file(file.name))?;
    }
    Ok(files)
}
