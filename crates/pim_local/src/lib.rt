//! What receivers on the router's own links have joined, by IGMP, by MLD or by configuration: stars
//! of groups, and single sources (RFC 7761, 4.1.6: local receivers).
//!
//! - `LocalJoin` is one of these joins. `LocalJoins` is a list of them in one order, each once, at
//!   most 4,096.
//! - `add` refuses a join exactly if it isn't valid, if the list is full, or if memory is refused.
//!   A refusal changes nothing.
//! - `has_star` and `has_source` return whether the list has a join, `joins_of` those of a group.
//!
//! Callers: `pim_files`, which reads a file of joins, and `pim_audit`.
#![tactic(auto)]

mod fault;
mod join;
mod joins;
mod places;

pub use fault::LocalFault;
pub use join::LocalJoin;
pub use joins::LocalJoins;
