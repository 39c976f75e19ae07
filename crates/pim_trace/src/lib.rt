//! Turns the captures of a router into events: each change of each machine, in time, with its
//! cause.
//!
//! `trace_into` is a run over the records of a merge (`pim_run`), as a replay is. An `EventWriter`
//! of `pim_events` gets what happens. The clause `Traces` of `specs/Trace.antt` says which events a
//! run has, what was written of them at the end, and what was written before a fault. At a fault of
//! a capture, what is due at the moment of the last record has still happened.
//!
//! `trace_state_into` also writes the state at the end of the run: each machine that is held, for
//! how long, and what the router wants. `specs/StateEvents.antt` has these events.
//!
//! A `Ledger` remembers what the router doesn't: which packet set each timer, since when a machine
//! is held, and how far each capture was read. `specs/Ledger.antt` has it as functions, so that
//! each of its changes is one line. An audit counts records by a ledger, too.
//!
//! Laws: the events show the state of each machine, from its state at the start to that at the
//! end, and the cause of each timer that fires. With the state, they list exactly the records and
//! the demand at the end. Callers: `pim_commands`, `pim_audit`.
#![tactic(auto)]

mod by_machine;
mod changing;
mod hearing;
mod ignoring;
pub mod laws;
mod ledger;
mod passing;
mod state_events;
mod trace;
mod turns;
mod writing_events;

pub use ledger::{Ledger, frame_after};
pub use trace::{trace_into, trace_state_into};
