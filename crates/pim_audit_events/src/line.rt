//! The lines of an audit, as values.

use pim_capture::RecordPlace;
use pim_down::Event;
use pim_events::OwnRestart;

/// Why the upstream neighbour lost what it was asked.
#[derive(Clone, Copy, Debug, PartialEq, Eq)]
pub enum Loss {
    /// It restarted: its Generation ID is another one (RFC 7761, 4.3.1).
    Restarted,
    /// It said goodbye.
    Gone,
    /// Its time is over (RFC 7761, 4.3.2).
    TimedOut,
}

/// The record of a message.
#[derive(Clone, Copy, Debug, PartialEq, Eq)]
pub struct MessageOrigin<A> {
    /// The port, counted from 0.
    pub port: usize,
    /// Its place in the capture of the port.
    pub frame: RecordPlace,
    /// The IP source.
    pub from: A,
}

/// What an audit has counted.
#[derive(Clone, Copy, Debug, PartialEq, Eq)]
pub struct AuditTotals {
    /// How many entries were ever due.
    pub due: u64,
    /// How many of them became late.
    pub late: u64,
    /// The longest time that a late entry was due, in milliseconds.
    pub worst: u64,
    /// How many late entries are still due.
    pub open: u64,
}

/// What a line says. Times are in milliseconds.
#[derive(Clone, Copy, Debug, PartialEq, Eq)]
pub enum AuditEvent<A> {
    /// An entry is due from this moment on.
    Due(Event<A>),
    /// An entry is late: it has been due since this moment.
    Late {
        /// The entry.
        entry: Event<A>,
        /// Since when it is due.
        since: u64,
    },
    /// A late entry was sent.
    Sent {
        /// The entry.
        entry: Event<A>,
        /// For how long it was due.
        after: u64,
    },
    /// A late entry is no longer due.
    Dropped {
        /// The entry.
        entry: Event<A>,
        /// For how long it was due.
        after: u64,
    },
    /// The upstream neighbour lost what it was asked.
    Lost(Loss),
    /// The upstream neighbour has no room for a message, which needs this many records.
    Full {
        /// The number of records.
        needed: usize,
    },
    /// The router restarted: its Hello has another Generation ID than its last one on the port.
    Restarted(OwnRestart),
    /// The run ended.
    End(AuditTotals),
}

/// A line of an audit.
#[derive(Clone, Copy, Debug, PartialEq, Eq)]
pub struct AuditLine<A> {
    /// The moment, in milliseconds.
    pub moment: u64,
    /// The record that it is about; `None` if it is about none.
    pub origin: Option<MessageOrigin<A>>,
    /// What it says.
    pub said: AuditEvent<A>,
}
