//! What a replay reports, one by one: packets that ports took, and echoes.

use pim_down::What;
use pim_router::Verdict;

/// An event of a replay. Its moment is in milliseconds since the first record.
#[derive(Clone, Copy, Debug, PartialEq, Eq)]
pub(crate) enum ReplayEvent<A> {
    /// A port took a packet.
    Packet {
        /// The moment.
        moment: u64,
        /// The port, numbered from 0.
        port: usize,
        /// The sender.
        source: A,
        /// What became of the packet.
        verdict: Verdict,
    },
    /// The router is to send a PruneEcho (RFC 7761, 4.5.1 and 4.5.2).
    Echo {
        /// The moment.
        moment: u64,
        /// The port, numbered from 0.
        port: usize,
        /// The group.
        group: A,
        /// Which machine of the group.
        what: What<A>,
    },
}
