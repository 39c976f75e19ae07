//! The errors of reading a file of routes.

ghost use Rattle.std.specs.Prelude.{◌≡◌};
ghost use Rattle.pim_files.specs.RoutesFile.{routes_unread};

use crate::line_file::FileFault;
use thiserror::Error;

/// Why a file of routes is not read to its end.
#[derive(Clone, Copy, Debug, PartialEq, Eq, Error)]
pub enum RoutesFault {
    /// The file has more than 1,048,576 bytes.
    #[error("routes too-long")]
    TooLong,
    /// The reader failed.
    #[error("routes read")]
    Read,
    /// The line with this number, from 1, has another form, or the table refuses its row.
    #[error("routes line {0}")]
    Line(usize),
    /// Memory ran out.
    #[error("memory")]
    Memory,
}

impl From<FileFault> for RoutesFault {
    ghost from_gives = { λ fault reported. reported ≡ routes_unread fault };

    fn from(fault: FileFault) -> RoutesFault {
        match fault {
            FileFault::TooLong => RoutesFault::TooLong,
            FileFault::Read => RoutesFault::Read,
            FileFault::Memory => RoutesFault::Memory,
        }
    }
}
