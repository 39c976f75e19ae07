//! What a run returns.

use crate::machines::key::What;
use crate::machines::machine::{Record, State};

/// How a run up to a moment ended.
#[derive(Clone, Copy, Debug, PartialEq, Eq)]
pub enum Step<A> {
    /// A Prune-Pending Timer of (*,G) or (S,G) expired, and the caller is to send a PruneEcho on
    /// the port (RFC 7761, 4.5.1 and 4.5.2). Other timers that are due stay due.
    Echo {
        /// The port.
        port: usize,
        /// The group.
        group: A,
        /// (*,G) or (S,G).
        what: What<A>,
    },
    /// Nothing is due, and the moment is reached.
    Reached,
}

/// The timers of a downstream machine (RFC 7761, 4.5).
#[derive(Clone, Copy, Debug, PartialEq, Eq)]
pub enum Timer {
    /// The Prune-Pending Timer (PPT).
    PrunePending,
    /// The Expiry Timer (ET).
    Expiry,
}

/// A timer that fired, and what it did to its machine (RFC 7761, Figures 2 to 4).
#[derive(Clone, Copy, Debug, PartialEq, Eq)]
pub struct Firing<A> {
    /// Which timer of the machine fired.
    pub timer: Timer,
    /// The machine when the timer fired; this timer has no time left.
    pub before: Record<A>,
    /// The state of the machine afterwards; `None` is NoInfo.
    pub after: Option<State>,
    /// Whether the caller is to send a PruneEcho on the port of the machine: a Prune-Pending Timer
    /// of (*,G) or (S,G) ended that started with several neighbours (RFC 7761, 4.5.1 and 4.5.2).
    pub echo: bool,
}
