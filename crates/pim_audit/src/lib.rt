//! An audit of a router toward its upstream neighbour: which entries of Join/Prune messages are
//! *due*, that is, which the router has to send and did not send yet (RFC 7761, 4.5).
//!
//! - `audit_into` is a run over the records of a merge (`pim_run`), as a trace is. An `AuditWriter`
//!   of `pim_audit_events` gets the lines. The clause `Audits` of `specs/Run.antt` says which lines
//!   a run has, and what was written of them at the end and before a fault.
//! - An `Audit` keeps what the neighbour was asked for, and what was due at the last look. The
//!   former are the machines of one port that hears what the neighbour hears.
//! - A turn lets time pass for the router and the audit, looks, lets a port of the router take a
//!   message, and looks again. A look follows each end of a timer or of a neighbour's time.
//!
//! A look finds what changed at the machines that something touched since the last look. It takes
//! time for these machines alone; with (*,G), for all (S,G,rpt) of its group. Callers:
//! `pim_commands`.
#![tactic(auto)]

mod asked;
mod audit;
mod changes;
mod due;
mod due_map;
mod dues;
mod entry_key;
pub mod laws;
mod lines;
mod look;
mod machine;
mod order;
mod own;
mod passing;
mod run;
mod sides;
mod taking;
mod totals;
mod touched;
mod tracked;
mod turn;
mod watched;

pub use run::{AuditOptions, audit_into};
