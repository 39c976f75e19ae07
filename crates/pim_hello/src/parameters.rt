//! The options of a Hello without its Address List, and what is kept of its sender.

use crate::delay::LanDelay;

/// The options of a Hello (RFC 7761, 4.9.2) without its Address List.
#[derive(Clone, Copy, Debug, PartialEq, Eq)]
pub struct Parameters {
    /// How long the sender is kept, in seconds (option 1): 0 is a goodbye, 0xffff is forever.
    pub holdtime: Option<u16>,
    /// The LAN Prune Delay (option 2).
    pub lan: Option<LanDelay>,
    /// The DR Priority (option 19).
    pub priority: Option<u32>,
    /// The Generation ID (option 20).
    pub generation: Option<u32>,
}

/// What is kept of one neighbour.
#[derive(Clone, Copy, Debug, PartialEq, Eq)]
pub(crate) struct Kept {
    /// What its last accepted Hello said.
    pub(crate) parameters: Parameters,
    /// The moment in milliseconds at which its time ends, or `None` if it never ends.
    pub(crate) end: Option<u64>,
}
