//! The commands of `pimtree`, as calls that take their devices from the caller.
//!
//! - `run_task` does what a task of a plan of `pim_words` asks for. It returns the status or a
//!   fault of `pim_faults`, and writes nothing where a file, the writer or a router can't be made.
//! - `check_into` prints one message, and `build_into` writes the bytes of the message of a text.
//!   `check_partial_into` also prints what precedes the first fault of a message, and that fault.
//! - `replay`, `trace`, `audit`, `same`, `mirror`, `emit` and `change` open the files by an opener
//!   that the caller gives (`pim_files`). Each calls the engine of that name in `pim_replay`,
//!   `pim_trace`, `pim_audit` or `pim_exchange`. Warnings follow on a device for errors.
//!
//! The file of routes is opened first, then that of local joins, then the files of the ports in the
//! order of the words, but further ones when they are read. A device's count of failures rises
//! exactly where its failure is the result. By a law, `trace` ends with the router whose state
//! `replay` prints. Callers: `pim_main`.
#![tactic(auto)]

mod answers;
mod auditing;
mod build;
mod check;
mod check_partial;
pub mod laws;
mod one_router;
mod opening;
mod routers;
mod running;
mod shown;
mod tracing;
mod two_routers;

pub use build::{build_into, build_task};
pub use check::{check_into, check_task};
pub use check_partial::{check_partial_into, check_partial_task};
pub use one_router::{audit, emit, mirror, replay, trace};
pub use pim_faults::{FAULTY, Fault, Warning, ending_line, fault_line, report_fault, warning_line};
pub use running::run_task;
pub use two_routers::{change, same};
