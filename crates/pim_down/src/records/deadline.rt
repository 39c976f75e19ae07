//! A timer that runs, in two forms: as contracts see it, with the key of its machine, and as the
//! schedule keeps it, with the number of its record.

use crate::machines::key::Key;

/// The kinds of timers. Of the timers that end at one moment, Prune-Pending Timers fire first.
#[derive(Clone, Copy, Debug)]
pub(crate) enum TimerKind {
    PendingTimer,
    ExpiryTimer,
}

/// A timer that runs.
#[derive(Clone, Copy, Debug)]
pub(crate) struct Deadline<A> {
    pub(crate) ends_at: u64,
    pub(crate) timer: TimerKind,
    /// The machine whose timer it is.
    pub(crate) key: Key<A>,
}

/// A timer of one kind in the schedule: its end, and the number of its record. A record keeps its
/// number and its key while it is held.
#[derive(Clone, Copy, Debug, Drop)]
pub(crate) struct Alarm {
    pub(crate) ends_at: u64,
    pub(crate) number: usize,
}
