//! The verdict on a packet.

use pim_frame::FrameFault;
use pim_hello::{Heard, HelloFault};
use pim_jp::JpFault;

/// The first fault of a message: of its header, or else of its body.
#[derive(Clone, Copy, Debug, PartialEq, Eq)]
pub enum Malformed {
    /// The header, the checksum or the destination.
    Frame(FrameFault),
    /// The body of a Hello.
    Hello(HelloFault),
    /// The body of a Join/Prune.
    JoinPrune(JpFault),
}

/// What has no room left.
#[derive(Clone, Copy, Debug, PartialEq, Eq)]
pub enum Store {
    /// The port has 1,024 neighbours, and the sender isn't one of them.
    Neighbours,
    /// The port would need more records than its limit.
    Records {
        /// The records that the port holds, and the entries of the message that create a record
        /// which isn't held, repeats counted.
        needed: usize,
    },
}

/// The verdict on a packet: the first of these that applies. Only `HelloTaken` and `Applied` change
/// the router.
#[derive(Clone, Copy, Debug, PartialEq, Eq)]
pub enum Verdict {
    /// The source is the port's own address.
    Mine,
    /// The message has a fault.
    Malformed(Malformed),
    /// The message has another type, which this is. Its body isn't looked at.
    OtherType(u8),
    /// A Hello that was taken, and what it means for the port's neighbours.
    HelloTaken(Heard),
    /// A Join/Prune message whose source is no neighbour on the port (RFC 7761, 4.3.1).
    UnknownNeighbour,
    /// A Join/Prune message whose upstream neighbour isn't the port's own address (RFC 7761,
    /// 4.5.1).
    NotForUs,
    /// A Hello or a Join/Prune message for which there is no room.
    Full(Store),
    /// A Join/Prune message that was applied to the port's machines.
    Applied,
}
