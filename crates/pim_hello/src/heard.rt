//! What `Neighbours::hear` returns.

use thiserror::Error;

/// What an accepted Hello means for the table of neighbours.
#[derive(Clone, Copy, Debug, PartialEq, Eq)]
pub enum Heard {
    /// The sender wasn't known.
    New,
    /// A known sender with the Generation ID, present or absent, of its last accepted Hello.
    Same,
    /// A known sender with another Generation ID: it has lost its state (RFC 7761, 4.3.1).
    Restarted,
    /// A goodbye, whether its sender was known or not. The sender isn't a neighbour.
    Gone,
}

/// Why a Hello is refused.
#[derive(Clone, Copy, Debug, PartialEq, Eq, Error)]
pub enum NeighbourFault {
    /// The sender is new, and the port has 1,024 neighbours.
    #[error("full")]
    Full,
    /// Memory could not be allocated.
    #[error("memory")]
    Memory,
}
