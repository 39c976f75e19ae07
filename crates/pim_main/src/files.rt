//! The files of the system, and standard input as one of them.

ghost use Rattle.pim_files.specs.Files.{nothing_known};

use crate::late::{LateFile, OpenFile};
use crate::progress::{ProgressLine, Watched};
use pim_files::{FileCause, Opener, Unopened};
use std::alloc::{AllocError, Global};
use std::fs::{File, metadata};
use std::io::ErrorKind;

/// Why the system doesn't open a file.
fn cause_of(kind: ErrorKind) -> FileCause {
    match kind {
        ErrorKind::NotFound => FileCause::Missing,
        ErrorKind::PermissionDenied => FileCause::Denied,
        ErrorKind::IsADirectory => FileCause::Directory,
        _ => FileCause::Other,
    }
}

/// Opens files of the system. No contract can say what they hold.
#[derive(Drop)]
pub struct SystemFiles<'r> {
    rt: &'r HostRuntime,
    /// Where the progress of large captures is shown.
    line: &'r ProgressLine,
    /// Whether captures are of any container.
    reads_any: bool,
    /// The name of the file of routes.
    routes: Option<&'r str>,
    /// The name of the file of local joins.
    local: Option<&'r str>,
}

impl<'r> SystemFiles<'r> {
    /// Returns the opener of this process for a file of routes, one of local joins, and captures,
    /// whose progress is shown on a line.
    pub fn new(
        rt: &'r HostRuntime,
        line: &'r ProgressLine,
        reads_any: bool,
        routes: Option<&'r str>,
        local: Option<&'r str>,
    ) -> Self {
        SystemFiles {
            rt,
            line,
            reads_any,
            routes,
            local,
        }
    }

    /// Whether it refuses a directory of this name. Linux opens one, and refuses the first read.
    fn refuses(&self, name: &str) -> bool {
        self.reads_any
            && self.routes != Some(name)
            && self.local != Some(name)
            && metadata(self.rt, name).is_ok_and(|it| it.is_dir())
    }

    /// Opens the file of this name.
    fn file(&self, name: &str) -> Result<File, FileCause> {
        let file = match File::open(self.rt, name) {
            Ok(file) => file,
            Err(error) => return Err(cause_of(error.kind())),
        };
        if self.refuses(name) {
            return Err(FileCause::Directory);
        }
        Ok(file)
    }
}

impl<'r> Opener for SystemFiles<'r> {
    type Reader = Watched<'r>;

    ghost known = { λ _. nothing_known };

    fn open(&mut self, alloc: Global, name: &str) -> Result<Self::Reader, Unopened> {
        let file = match self.file(name) {
            Ok(file) => file,
            Err(cause) => return Err(Unopened::File(cause)),
        };
        match OpenFile::of_file(alloc, self.rt, self.line, name, file) {
            Ok(file) => Ok(Watched::new(LateFile::Open(file))),
            Err(_) => Err(Unopened::Memory),
        }
    }

    fn open_later(&mut self, alloc: Global, name: &str) -> Result<Self::Reader, AllocError> {
        let file = LateFile::new(alloc, self.rt, self.line, name)?;
        Ok(Watched::new(file))
    }
}

/// Opens standard input, once, whatever its name.
#[derive(Drop)]
pub struct SystemInput<'r> {
    rt: &'r HostRuntime,
    is_lent: bool,
}

impl<'r> SystemInput<'r> {
    /// Returns the opener of this process.
    pub fn new(rt: &'r HostRuntime) -> Self {
        SystemInput { rt, is_lent: false }
    }

    /// Lends standard input.
    fn lend(&mut self, alloc: Global) -> Result<Watched<'r>, AllocError> {
        self.is_lent = true;
        let input = OpenFile::of_input(alloc, self.rt)?;
        Ok(Watched::new(LateFile::Open(input)))
    }
}

impl<'r> Opener for SystemInput<'r> {
    type Reader = Watched<'r>;

    ghost known = { λ _. nothing_known };

    fn open(&mut self, alloc: Global, _name: &str) -> Result<Self::Reader, Unopened> {
        if self.is_lent {
            return Err(Unopened::File(FileCause::Other));
        }
        match self.lend(alloc) {
            Ok(reader) => Ok(reader),
            Err(_) => Err(Unopened::Memory),
        }
    }

    fn open_later(&mut self, alloc: Global, _name: &str) -> Result<Self::Reader, AllocError> {
        if self.is_lent {
            return Ok(Watched::new(LateFile::Failed));
        }
        self.lend(alloc)
    }
}
