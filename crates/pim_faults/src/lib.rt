//! The faults and warnings of `pimtree`'s commands, and their lines.
//!
//! - `Fault` is why a command wasn't done. It holds faults of the crates below. `fault_line` writes
//!   its line, and `report_fault` writes it on one of two devices and returns the status.
//!   `ending_line` writes it after the lines of what precedes the fault.
//! - `Warning` is what a command says of a capture beside its result. `warning_line` writes its
//!   line. `missed_line` and `unserved_line` write those on whom the messages of a capture name, and
//!   `unchosen_line` that on a choice of records.
//!
//! A device's count of failures rises exactly where its failure is the result.
//!
//! The crate is apart from `pim_commands`, so that it is checked before the engines of captures.
//! Callers: `pim_commands` and `pim_main`.
#![tactic(auto)]

mod causes;
mod ending;
mod fault;
mod missing;
mod unchosen;
mod unopened;
mod warning;

pub use ending::{FAULTY, report_fault};
pub use fault::{Fault, ending_line, fault_line};
pub use missing::{missed_line, unserved_line};
pub use unchosen::unchosen_line;
pub use warning::{Warning, warning_line};
