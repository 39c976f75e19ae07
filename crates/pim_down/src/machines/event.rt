//! The events of a message, and what a port knows when one comes.

use crate::machines::key::What;

/// A Join or a Prune for one machine of a group (RFC 7761, 4.5.1 to 4.5.3).
#[derive(Clone, Copy, Debug, PartialEq, Eq)]
pub struct Event<A> {
    /// Whether it is a Join rather than a Prune.
    pub joins: bool,
    /// The group.
    pub group: A,
    /// Which machine of the group.
    pub what: What<A>,
}

/// What a port knows of its neighbours when a message comes.
#[derive(Clone, Copy, Debug, PartialEq, Eq)]
pub struct Timing {
    /// J/P_Override_Interval(I) of the port in milliseconds: Effective_Propagation_Delay(I) plus
    /// Effective_Override_Interval(I) (RFC 7761, 4.3.3).
    pub override_ms: u64,
    /// Whether the port has more than one neighbour.
    pub several: bool,
}
