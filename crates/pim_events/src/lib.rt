//! The events of a trace, and which of them are shown.
//!
//! - `TraceEvent` is a value: what happened, when, on which port, and why.
//! - `Filter` says which events a user wants to see; `is_shown` returns whether an event is one of
//!   them. `specs/Filter.antt` defines it. An audit uses its parts `is_early` and `is_wanted`.
//! - `EventWriter` takes events, and writes a text of each to a device.
//!
//! The crate does not compute events. It is separate from their lines, so that what computes them
//! does not wait for the proofs of lines. Callers: `pim_trace` and `pim_event_lines`.
#![tactic(auto)]

mod event;
mod event_writer;
mod filter;
mod parts;

pub use event::{
    Cause, EndOfTrace, Fired, Greeting, Happening, HeldMachine, Ignored, Judgment, OwnRestart,
    Skip, SkipCounts, Skipping, TimeOut, TraceEvent, TransitionEvent, WantedEntry, WantedWhat,
    epoch_at,
};
pub use event_writer::EventWriter;
pub use filter::{Filter, is_early, is_shown, is_wanted};
pub use parts::{pending_in, state_in};
