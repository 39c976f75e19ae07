//! Laws on what a port holds that hears the Join/Prune messages of one sender alone (RFC 7761,
//! 4.5), in any order and however often each comes. Nothing in this crate is to be called.
//!
//! The messages name each machine once, an exception after its star, and none is missed for its
//! holdtime. Then:
//!
//! - The port holds exactly the units of the messages that came (`fresh_hearing`).
//! - No run stops at an echo (`no_echo_is_due`), and each reaches its moment.
//! - From the end of the override intervals on, nothing changes but that time passes
//!   (`stays_as_wanted`).
//! - A delivery needs room for the units of the messages up to it (`needs_the_units`).
//!
//! Callers: the laws of `pim_mirror`, `pim_moving` and `pim_settling`.
#![tactic(auto)]

pub mod laws;
