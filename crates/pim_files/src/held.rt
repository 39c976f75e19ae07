//! Files in memory, for tests.

ghost use Rattle.std.specs.Prelude.{◌≡◌, [], ◌∷◌, Some, option_map, map, string_bytes};
ghost use Rattle.pim_files.specs.Files.{Grows};
ghost use Rattle.pim_files.specs.Held.{held_content, held_files, held_requested, held_known};
ghost use Rattle.pim_files.specs.Held.{reader_bytes, reader_failures};

use crate::opener::{FileCause, Opener, Unopened};
use pim_addr::{Failed, Feed, ScriptedFeed};
use std::alloc::{AllocError, Global};

/// A file in memory.
#[derive(Clone, Copy, Debug)]
pub struct HeldFile<'a> {
    /// Its name.
    pub name: &'a str,
    /// Its bytes.
    pub bytes: &'a [u8],
    /// The number of bytes after which each read fails.
    pub fails_from: usize,
}

/// Opens files in memory, of two with one name the first. It notes the names that it is asked for,
/// while memory lasts.
#[derive(Debug, Drop)]
pub struct HeldFiles<'a> {
    files: &'a [HeldFile<'a>],
    most: usize,
    requested: Vec<String>,
    is_whole: bool,
}

impl<'a> HeldFiles<'a> {
    /// Returns an opener of these files, whose readers give at most `most` bytes in a call.
    pub fn new(alloc: Global, files: &'a [HeldFile<'a>], most: usize) -> Self
        ensures files { held_files result ≡ files.now }
        ensures requested { held_requested result ≡ Some [] }
    {
        HeldFiles {
            files,
            most,
            requested: Vec::new(alloc),
            is_whole: true,
        }
    }

    /// Returns the names that it was asked for, in this order. `None` if memory was refused for the
    /// note of one.
    pub fn requested(&self) -> Option<&[String]>
        ensures { option_map (λ names. map string_bytes names.now) result
            ≡ held_requested self.now }
    {
        if self.is_whole {
            Some(&self.requested)
        } else {
            None
        }
    }

    /// Notes a name.
    fn note(&mut self, alloc: Global, name: &str)
        ensures requested { Grows (held_requested self.old) (held_requested self.new)
            (name.now ∷ []) }
        ensures files { held_files self.new ≡ held_files self.old }
    {
        let Ok(copy) = String::from_str(alloc, name) else {
            self.is_whole = false;
            return;
        };
        if self.requested.push(copy).is_err() {
            self.is_whole = false;
        }
    }
}

/// The first file of this name.
fn file_of_name<'a>(files: &'a [HeldFile<'a>], name: &str) -> Option<HeldFile<'a>>
    ensures { option_map (λ file. file.bytes.now) result ≡ held_content files.now name.now }
{
    for file in files {
        if file.name == name {
            return Some(*file);
        }
    }
    None
}

/// A reader of this file, which gives at most `most` bytes in a call.
fn reader_of(file: HeldFile<'_>, most: usize) -> HeldReader<'_>
    ensures { reader_bytes result ≡ file.entry.bytes.now }
{
    HeldReader::Open(ScriptedFeed::new(file.bytes, most, file.fails_from))
}

/// A reader of a file in memory.
#[derive(Debug, Drop)]
pub enum HeldReader<'a> {
    /// That of a file which is there.
    Open(ScriptedFeed<'a>),
    /// That of a missing file, with the number of its failures: each read fails.
    Missing(u64),
}

impl Feed for HeldReader<'_> {
    ghost remaining = { λ reader. Some (reader_bytes reader) };

    ghost failures = { reader_failures };

    fn read(&mut self, buffer: &mut [u8]) -> Result<usize, Failed> {
        match self {
            HeldReader::Open(feed) => feed.read(buffer),
            HeldReader::Missing(failures) => {
                *failures = failures.saturating_add(1);
                Err(Failed)
            }
        }
    }
}

impl<'a> Opener for HeldFiles<'a> {
    type Reader = HeldReader<'a>;

    ghost known = { held_known };

    fn open(&mut self, alloc: Global, name: &str) -> Result<HeldReader<'a>, Unopened> {
        self.note(alloc, name);
        match file_of_name(self.files, name) {
            Some(file) => Ok(reader_of(file, self.most)),
            None => Err(Unopened::File(FileCause::Missing)),
        }
    }

    fn open_later(&mut self, alloc: Global, name: &str) -> Result<HeldReader<'a>, AllocError> {
        self.note(alloc, name);
        match file_of_name(self.files, name) {
            Some(file) => Ok(reader_of(file, self.most)),
            None => Ok(HeldReader::Missing(0)),
        }
    }
}
