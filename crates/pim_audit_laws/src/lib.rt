//! Laws on what an audit finds due toward an upstream neighbour (RFC 7761, 4.5). Nothing in this
//! crate is to be called.
//!
//! - Between two normal forms nothing is due exactly if they are one form
//!   (`nothing_due_is_one_form`).
//! - While the neighbour is known, nothing is due toward it exactly if it was asked for what the
//!   router wants of it (`nothing_due_is_one_demand`).
//! - A router without local receivers wants what it asks for in its messages
//!   (`without_local_is_demanded`). If nothing is due while the neighbour is known, the messages
//!   that ask for both are one list (`nothing_due_is_one_list`). If they are one list, nothing is
//!   due (`one_list_is_nothing_due`).
//!
//! While the neighbour is unknown, an audit finds nothing due.
#![tactic(auto)]

pub mod laws;
