//! What a message changed.

use pim_down::{Key, Machine};

/// The kind of an event of a Join/Prune message.
#[derive(Clone, Copy, Debug, PartialEq, Eq)]
pub enum By {
    /// A Join entry (RFC 7761, 4.5.1 to 4.5.3).
    Join,
    /// A Prune entry.
    Prune,
    /// End of Message (RFC 7761, 4.5.3, Figure 4).
    End,
}

/// A machine that a message changed.
#[derive(Clone, Copy, Debug, PartialEq, Eq)]
pub struct Transition<A> {
    /// Which machine.
    pub key: Key<A>,
    /// The machine before the message; `None` is NoInfo.
    pub before: Option<Machine>,
    /// The machine after the message; `None` is NoInfo.
    pub after: Option<Machine>,
    /// The last event that changed the machine's state. Where only a timer changed, `Join` for a
    /// machine in Join, else `Prune`.
    pub by: By,
}
