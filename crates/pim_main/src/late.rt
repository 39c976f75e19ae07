//! Files that are opened at their first read, and closed at their end.

ghost use Rattle.std.specs.Prelude.{◌≤◌, length, IfOk};

use crate::progress::{ProgressLine, RunProgress};
use crate::source::CountedInput;
use pim_addr::Failed;
use std::alloc::{AllocError, Global};
use std::fs::File;
use std::io::{self, BufReader, Read};

/// A file that is open, or standard input.
#[derive(Drop)]
pub struct OpenFile<'r> {
    reader: BufReader<CountedInput>,
    /// Its progress, if that is shown.
    progress: Option<RunProgress<'r>>,
}

impl<'r> OpenFile<'r> {
    /// Returns this file, of which nothing was read. Its progress is shown by its name on a line.
    ///
    /// # Errors
    /// If an allocation is refused.
    pub fn of_file(
        alloc: Global,
        rt: &'r HostRuntime,
        line: &'r ProgressLine,
        name: &str,
        file: File,
    ) -> Result<Self, AllocError> {
        let source = CountedInput::of_file(file);
        let progress = RunProgress::of(rt, line, name, source.size());
        let Ok(reader) = BufReader::new(alloc, source) else {
            return Err(AllocError);
        };
        Ok(OpenFile { reader, progress })
    }

    /// Returns standard input.
    ///
    /// # Errors
    /// If an allocation is refused.
    pub fn of_input(alloc: Global, rt: &'r HostRuntime) -> Result<Self, AllocError> {
        let Ok(reader) = BufReader::new(alloc, CountedInput::of_input(rt.stdin())) else {
            return Err(AllocError);
        };
        Ok(OpenFile {
            reader,
            progress: None,
        })
    }
}

/// A file that isn't open yet.
#[derive(Drop)]
pub struct AwaitedFile<'r> {
    alloc: Global,
    rt: &'r HostRuntime,
    /// Where its progress is shown.
    line: &'r ProgressLine,
    name: String,
}

impl<'r> AwaitedFile<'r> {
    /// Opens the file.
    fn open(&self) -> io::Result<OpenFile<'r>> {
        let name = self.name.as_str();
        let file = File::open(self.rt, name)?;
        Ok(OpenFile::of_file(self.alloc, self.rt, self.line, name, file)?)
    }
}

/// A file of the system that is opened at its first read, if it isn't open before. At its end, and
/// after a read that failed, it is closed.
#[derive(Drop)]
pub enum LateFile<'r> {
    /// It isn't open yet.
    Awaited(AwaitedFile<'r>),
    /// It is open.
    Open(OpenFile<'r>),
    /// It was read to its end.
    Ended,
    /// It couldn't be opened, or a read failed.
    Failed,
}

impl<'r> LateFile<'r> {
    /// Returns the file of this name, which isn't open yet. Its progress is shown on a line.
    ///
    /// # Errors
    /// If an allocation is refused.
    pub fn new(
        alloc: Global,
        rt: &'r HostRuntime,
        line: &'r ProgressLine,
        name: &str,
    ) -> Result<Self, AllocError> {
        Ok(LateFile::Awaited(AwaitedFile {
            alloc,
            rt,
            line,
            name: String::from_str(alloc, name)?,
        }))
    }

    /// Opens the file, if it isn't open yet.
    fn begin(&mut self) {
        let LateFile::Awaited(awaited) = self else {
            return;
        };
        let opened = awaited.open();
        *self = match opened {
            Ok(file) => LateFile::Open(file),
            Err(_) => LateFile::Failed,
        };
    }

    /// Fills a front of the buffer and returns its length, which is 0 only at the end of the file
    /// or for an empty buffer.
    ///
    /// # Errors
    /// If the file can't be opened, or a read of it fails. Each later call fails, too.
    pub fn read(&mut self, buffer: &mut [u8]) -> Result<usize, Failed>
        ensures bound { IfOk result (λ n. n ≤ length buffer.new) }
    {
        self.begin();
        let given = match self {
            LateFile::Open(file) => file.reader.read(buffer),
            LateFile::Ended => return Ok(0),
            _ => return Err(Failed),
        };
        let Ok(count) = given else {
            *self = LateFile::Failed;
            return Err(Failed);
        };
        if count == 0 && !buffer.is_empty() {
            *self = LateFile::Ended;
        }
        Ok(count)
    }

    /// Shows the progress of the file if a second has passed since the last time. So many of its
    /// records were passed on.
    pub fn look(&mut self, records: u64) {
        let LateFile::Open(file) = self else {
            return;
        };
        let bytes = file.reader.get_ref().bytes();
        if let Some(progress) = &mut file.progress {
            progress.look(bytes, records);
        }
    }
}
