//! The files that the words of a command name: who opens them, in which order, and the fault of one
//! that can't be opened.
//!
//! - `Opener` opens files by name, at once or when they are read. `HeldFiles` is one of files in
//!   memory, for tests.
//! - `table` makes the route table; `read_routes` adds the rows of a file of routes.
//! - `local_joins` makes the list of what local receivers have joined; `read_local` adds the joins
//!   of their file.
//! - `open_with_local` makes the table and the list of joins, and opens the captures of one router.
//!   `open_two` makes the table and opens the captures of two. Both follow the order of the words.
//!   The further files of a port come after its own, and are one capture. Each is opened when it
//!   is read: one that can't be opened is a failed read there.
//!
//! Where the opener knows what files hold, the contracts say that each port has the capture of its
//! own files, and that the fault is that of the first file that can't be opened, of those which are
//! opened at once. Callers: `pim_commands`, and `pim_main` with the files of the system.
#![tactic(auto)]

mod captures;
mod fault;
mod held;
pub mod laws;
mod line_file;
mod lines;
mod local;
mod opener;
mod opening;
mod pair;
mod port;
mod receivers;
mod route_table;
mod routes;

pub use fault::OpenFault;
pub use held::{HeldFile, HeldFiles, HeldReader};
pub use local::{LocalFileFault, read_local};
pub use opener::{FileCause, Opener, Unopened};
pub use opening::{OpenTwo, OpenWithLocal, open_two, open_with_local};
pub use pair::Pair;
pub use port::is_further;
pub use receivers::local_joins;
pub use route_table::{first_rows, table};
pub use routes::{RoutesFault, read_routes};
