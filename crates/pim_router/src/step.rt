//! The end of a run.

use pim_down::What;

/// How a run up to a moment ended.
#[derive(Clone, Copy, Debug, PartialEq, Eq)]
pub enum Step<A> {
    /// A Prune-Pending Timer of (*,G) or (S,G) ended, and a PruneEcho is to be sent on the port
    /// (RFC 7761, 4.5.1 and 4.5.2). What is still due stays due.
    Echo {
        /// The port.
        port: usize,
        /// The group.
        group: A,
        /// (*,G) or (S,G).
        what: What<A>,
    },
    /// A refresh is due: each upstream neighbour is to be asked again for what is wanted of it, 60
    /// s after the last refresh (RFC 7761, 4.11: t_periodic). All other timers of this millisecond
    /// have fired.
    Refresh,
    /// Nothing is due, and the moment is reached.
    Reached,
}
