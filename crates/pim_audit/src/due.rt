//! A due entry.

use pim_down::Event;

/// An entry of a Join/Prune message that a router has to send and did not send yet.
#[derive(Clone, Copy, Debug, PartialEq, Eq)]
pub(crate) struct Due<A> {
    /// The entry.
    pub(crate) entry: Event<A>,
    /// The moment since which it is due, in milliseconds.
    pub(crate) since: u64,
    /// Whether it was reported as late.
    pub(crate) is_reported: bool,
}
