//! Tests that are files, but for the commands that they test: scenarios and cases.
//!
//! A scenario is a session with its expected answers (`scenario`). A case is a command line with
//! its files, and the output, errors and status that it must have (`case`). A file whose name ends
//! in `.case` is a list of cases, another one a scenario.
//!
//! `Tally` runs files by a `Runner` that the caller gives. It writes the first difference of each
//! that fails, and counts. This library has no contract, since no clause says what a test prints:
//! the stored run of `failing_cases` shows what it says of files that fail. It is apart from
//! `pimtree_cases` so that it does not wait for the proofs of commands.
#![tactic(auto)]

mod case;
mod differing;
mod ending;
mod lines;
mod listing;
mod memory;
mod scenario;
mod tally;

pub use case::Case;
pub use ending::Runner;
pub use listing::files_below;
pub use memory::{Held, MOST_READ, files_of};
pub use tally::Tally;
