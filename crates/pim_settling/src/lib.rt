//! Laws on where the machines of a port end that hears Joins and Prunes (RFC 7761, 4.5), in any
//! order and however often each comes. Nothing in this crate is to be called.
//!
//! As long as no Expiry Timer ends, and through every echo on the way:
//!
//! - Each machine goes the course that the entries which name it give: not held, held, or in
//!   Prune-Pending up to a moment and then where its timer leads (`courses_are_kept`).
//! - A port is settled at one form and hears messages that say exactly the change to another form.
//!   From the final moment of the deliveries on it is settled at the other form
//!   (`change_settles`). `written_change_settles` says this of the bytes of `pim_change`.
//!
//! The messages of a change, however its units are cut into runs, say exactly that change
//! (`runs_carry_the_change`). A router of one port that is settled at a normal form wants exactly
//! what the form means (`settled_wants`).
#![tactic(auto)]

pub mod laws;
