//! Which machines of a port a Join/Prune message changed (RFC 7761, 4.5), each with its machine
//! before and after, and the kind of event that changed its state last.
//!
//! There are two calls. [`Affected::of`] lists the machines that a message may change, as they are
//! before it: those that its entries name, and the held (S,G,rpt) machines of each group that it
//! has a Join(*,G) of. After the message [`Affected::changes`] goes over this list and returns the
//! machines that differ, in key order.
//!
//! That these are exactly the machines that the message changed, with exactly those kinds, is the
//! law `candidates_show_transitions`. No event is heard a second time: of each machine the last
//! entry that names it suffices. Callers: `pim_trace`.
#![tactic(auto)]

mod affected;
mod candidate;
mod changes;
pub mod laws;
mod marks;
mod order;
mod same;
mod stars;
mod transition;

pub use affected::Affected;
pub use changes::Changes;
pub use transition::{By, Transition};
