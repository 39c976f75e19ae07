//! A machine as the code holds it. Its timers are deadlines in milliseconds from the moment 0, so
//! that time alone changes nothing. Machines that are returned have countdowns, in types of their
//! own.

use crate::machines::key::Key;
use crate::machines::machine::State;

/// A Prune-Pending Timer that runs.
#[derive(Clone, Copy, Debug)]
pub(crate) struct Waiting {
    pub(crate) ends_at: u64,
    /// Whether the port had more than one neighbour when the timer started.
    pub(crate) several: bool,
}

/// A machine's state and deadlines.
#[derive(Clone, Copy, Debug)]
pub(crate) struct Timed {
    pub(crate) state: State,
    /// `None` is never.
    pub(crate) expires_at: Option<u64>,
    pub(crate) pending: Option<Waiting>,
}

/// A machine with its key.
#[derive(Clone, Copy, Debug)]
pub(crate) struct Held<A> {
    pub(crate) key: Key<A>,
    pub(crate) machine: Timed,
}

/// The values that a message gives the timers that it starts: the Expiry Timer by its holdtime, the
/// Prune-Pending Timer by the port.
#[derive(Clone, Copy)]
pub(crate) struct Start {
    pub(crate) expires_at: Option<u64>,
    pub(crate) pending: Waiting,
}

/// Where a message is heard: its port, and what it gives the timers that it starts.
#[derive(Clone, Copy)]
pub(crate) struct Arrival {
    pub(crate) port: usize,
    pub(crate) start: Start,
}
