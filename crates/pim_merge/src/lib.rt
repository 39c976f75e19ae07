//! Merges the captures of several ports by time into one list of turns.
//!
//! - `Merge::add` appends a capture, `add_any` one of any container with a choice of its packets,
//!   and `add_files` one of several files.
//! - `Merge::next` returns the first record of least time among the heads of the captures, with its
//!   moment in milliseconds since the first record. `Merge::advance` does so up to an `End`.
//! - `Turn::content` says what a record holds for a router of one address family.
//! - `Merge::tally` counts what was taken of a capture. A `Census` in it says whom the Join/Prune
//!   messages name: none for this router, or a Join(*,G) of a group without an RP. `Unchosen` has the
//!   links of the PIM packets that a choice leaves out.
//!
//! The turns are a function of the bytes of the readers (`IsMerge` in `specs/Merge.antt`). A time
//! that runs back counts as the moment of the last record. The bytes of a turn stay until the next
//! call. Callers: `pim_run`, `pim_files` and `pim_commands`.
#![tactic(auto)]

mod census;
mod chosen;
mod clock;
mod content;
mod end;
mod lane;
pub mod laws;
mod merge;
mod run;
mod search;
mod slots;
mod source;
mod taker;
mod tally;
mod unchosen;

pub use census::Census;
pub use clock::Clock;
pub use content::{Content, Datagram};
pub use end::End;
pub use merge::{Merge, MergeFault, Turn};
pub use pim_capture::{Incomplete, Link, RecordPlace};
pub use tally::Tally;
pub use unchosen::Unchosen;
