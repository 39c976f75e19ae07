//! Why the files of a command aren't open.

use crate::local::LocalFileFault;
use crate::opener::FileCause;
use crate::routes::RoutesFault;

/// Why there is no route table, or a file isn't open.
#[derive(Debug, PartialEq, Eq)]
pub enum OpenFault<'a> {
    /// The upstream neighbour isn't a valid source.
    Upstream,
    /// The RP isn't a valid source.
    Rp,
    /// The file of a port without a link, of the routes or of local receivers can't be opened. This
    /// is the word of the port, or the name of the other file.
    File(&'a str),
    /// The file of a port with a link can't be opened.
    Port {
        /// The name of the file.
        file: &'a str,
        /// Why it can't be opened.
        cause: FileCause,
    },
    /// The file of routes has a fault.
    Routes(RoutesFault),
    /// The file of local receivers has a fault.
    Local(LocalFileFault),
    /// An allocation was refused.
    Memory,
}
