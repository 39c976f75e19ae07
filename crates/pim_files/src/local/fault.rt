//! The errors of reading a file of local receivers.

ghost use Rattle.std.specs.Prelude.{◌≡◌};
ghost use Rattle.pim_files.specs.LocalFile.{local_unread};

use crate::line_file::FileFault;
use thiserror::Error;

/// Why a file of local receivers is not read to its end.
#[derive(Clone, Copy, Debug, PartialEq, Eq, Error)]
pub enum LocalFileFault {
    /// The file has more than 1,048,576 bytes.
    #[error("local too-long")]
    TooLong,
    /// The reader failed.
    #[error("local read")]
    Read,
    /// The line with this number, from 1, has another form, or its join is refused.
    #[error("local line {0}")]
    Line(usize),
    /// Memory ran out.
    #[error("memory")]
    Memory,
}

impl From<FileFault> for LocalFileFault {
    ghost from_gives = { λ fault reported. reported ≡ local_unread fault };

    fn from(fault: FileFault) -> LocalFileFault {
        match fault {
            FileFault::TooLong => LocalFileFault::TooLong,
            FileFault::Read => LocalFileFault::Read,
            FileFault::Memory => LocalFileFault::Memory,
        }
    }
}
