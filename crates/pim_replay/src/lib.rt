//! The replay of a router's captures, and the report that is written of it.
//!
//! - `replay_into` writes the report: the lines of the events, then the final state. `specs/`
//!   defines it byte by byte, with lines of `pim_report`. If the device fails, a prefix of it was
//!   written. After a fault of a capture, exactly the lines of the turns before it were written.
//! - `replay_quietly` writes nothing and only moves the router on.
//!
//! A replay is a run (`pim_run`) whose listener hears each packet and each echo, and writes what
//! its output has of it. So a new output of a replay is one module with a listener, as `report` is.
//!
//! The caller gives a merge with one capture for each port, and a router not later than
//! `latest_moment`. Callers: `pim_commands` and `pim_exchange`.
#![tactic(auto)]

mod event;
pub mod laws;
mod listener;
mod passing;
mod quiet;
mod replay;
mod report;
mod turns;

pub use quiet::replay_quietly;
pub use report::replay_into;
