//! What `pimtree` says of the files of captures beside its result: the file in which a fault is, and
//! warnings after a run.
//!
//! - `begin_census` and `begin_both` begin the census of captures before a run (`pim_merge`).
//! - `warn_of_one` and `warn_of_both` write the warnings after it.
//! - `port_fault` makes the program's fault of one of a capture. It names the file of a port with a
//!   link, by `name_at`.
//!
//! The crate is apart from `pim_commands`, so that it is checked before the engines of captures.
//! Caller: `pim_commands`.
#![tactic(auto)]

mod census;
mod naming;
mod warnings;

pub use census::{begin_both, begin_census};
pub use naming::{is_in, name_at, port_fault};
pub use warnings::{warn_of_both, warn_of_one};
