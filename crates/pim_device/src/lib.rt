//! Devices: what bytes are read from (`Feed`) and written to (`Drain`).
//!
//! - `read` and `write` move the number of bytes that they return; a failed call moves none and
//!   raises the count of failures by one, up to 2^64 - 1. A write that takes none of some bytes has
//!   failed.
//! - `write_all` writes all bytes, `read_up_to` fills a buffer. Both stop at the first failure.
//! - `pass_record` counts a record of the device's bytes, to show the progress of a program.
//! - `Counted` makes a device of a reader or writer of std, where any error is a failure.
//! - `ScriptedFeed` and `ScriptedDrain` fail at a given byte, for tests.
//!
//! Clauses on bytes hold where the contents of the device are known. Only `ScriptedDrain` takes
//! memory. Callers: all crates that read or write.
#![tactic(auto)]

mod counted;
mod device;
mod scripted;

pub use counted::Counted;
pub use device::{Drain, Failed, Feed, read_up_to, write_all};
pub use scripted::{ScriptedDrain, ScriptedFeed};
