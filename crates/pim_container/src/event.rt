//! The events of a capture.

use pim_capture::{InterfaceName, Ip, Vlan, Why};
use pim_fragments::Fragment;
use std::ops::Range;

/// The link on which a frame was captured, as far as the frame says it.
#[derive(Clone, Copy, Debug, PartialEq, Eq)]
pub struct Origin {
    /// The number of its interface in the section of a pcapng file, else 0.
    pub interface: u32,
    /// The name of that interface, if it has one.
    pub name: Option<InterfaceName>,
    /// The index of its interface in a cooked header of version 2, else 0.
    pub index: u32,
    /// Its VLAN.
    pub vlan: Vlan,
    /// It is a copy of another packet, which is captured too: a cooked header says that it is
    /// looped back, or that the host sent it to its loopback device.
    pub is_copy: bool,
}

/// What a record or a block of a capture holds.
#[derive(Clone, Debug, PartialEq, Eq, Drop)]
pub enum ContainerEvent {
    /// A PIM packet. The buffer holds its bytes.
    Packet {
        /// The time of capture, in milliseconds since 1970.
        millis: u64,
        /// The link on which it was captured.
        origin: Origin,
        /// Its addresses, and the range of its message in the buffer.
        ip: Ip,
    },
    /// A fragment of a packet that may carry PIM. The buffer holds its bytes.
    Fragment {
        /// The time of capture, in milliseconds since 1970.
        millis: u64,
        /// The link on which it was captured.
        origin: Origin,
        /// Its addresses, and the range of its bytes in the buffer.
        ip: Ip,
        /// Which fragment it is.
        fragment: Fragment,
    },
    /// A frame that holds no whole PIM packet.
    Skipped {
        /// The time of capture, in milliseconds since 1970.
        millis: u64,
        /// The link on which it was captured.
        origin: Origin,
        /// Why it is skipped.
        why: Why,
    },
    /// A simple packet block, which has no time, or another block that tools number as a packet: a
    /// custom one, an entry of a journal, or an event of sysdig.
    Untimed,
    /// A section of a pcapng file begins, with no interfaces; or a classic file begins.
    Section,
    /// An interface is described. Its number is that of interfaces before it in the section.
    Interface {
        /// The range of its name in the buffer.
        name: Range<usize>,
    },
    /// A block of another type.
    Passed,
    /// Nothing is left.
    End,
}
