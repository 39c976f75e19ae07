//! The events of a capture.

ghost use Rattle.std.specs.Prelude.{◌≡◌};
ghost use Rattle.pim_capture.specs.Seen.{ip_seen, LiesIn};

use crate::incomplete::Incomplete;
use crate::link::Link;
use std::ops::Range;

/// An IP packet that carries PIM, with its message in the caller's buffer.
#[derive(Clone, Debug, PartialEq, Eq, Drop)]
pub enum Ip {
    /// IPv4 (RFC 791).
    V4 {
        /// The source address.
        source: [u8; 4],
        /// The destination address.
        destination: [u8; 4],
        /// The range of the PIM message in the buffer.
        payload: Range<usize>,
    },
    /// IPv6 (RFC 8200).
    V6 {
        /// The source address.
        source: [u8; 16],
        /// The destination address.
        destination: [u8; 16],
        /// The range of the PIM message in the buffer.
        payload: Range<usize>,
    },
}

impl Ip {
    /// The PIM message, from the buffer that holds the record's bytes.
    pub fn payload<'a>(&self, buffer: &'a [u8]) -> &'a [u8]
        requires { LiesIn buffer.now self.now }
        ensures { result.now ≡ (ip_seen buffer.now self.now).payload }
    {
        let range = match self {
            Ip::V4 { payload, .. } => payload,
            Ip::V6 { payload, .. } => payload,
        };
        &buffer[range.start..range.end]
    }
}

/// Why a record holds no whole PIM packet. Of several reasons the judgment returns the first one
/// that it meets.
#[derive(Clone, Copy, Debug, PartialEq, Eq)]
pub enum Why {
    /// Fewer bytes were captured than its headers name.
    Cut,
    /// Neither IPv4 nor IPv6.
    NotIp,
    /// An IP header whose lengths contradict each other, or whose version isn't that of the link
    /// layer's family.
    BadHeader,
    /// Another protocol than PIM.
    NotPim,
    /// A fragment of an IPv4 packet.
    Fragment,
    /// A fragment that is held until its packet is whole. `Capture` never returns it.
    Part,
    /// It has no time, as a simple packet of pcapng. Its time counts as 0. `Capture` never returns
    /// it.
    NoTime,
    /// Its link type has this number, which isn't read. `Capture` never returns it.
    LinkType(u16),
    /// The reader of the file wants records of other links. Of a PIM packet or its fragment the
    /// link is named; `None` of another frame. `Capture` never returns it.
    NotChosen(Option<Link>),
    /// It is a copy of another packet, which is captured too. `Capture` never returns it.
    Copy,
    /// Its file ends inside it. Its time counts as 0. `Capture` never returns it.
    CutShort,
    /// The capture goes on with its next file. It is no record of a file. Its time counts as 0.
    /// `Capture` never returns it.
    NextFile,
    /// The PIM packet before this is of this link. It is no record of a file. Its time counts as 0.
    /// `Capture` never returns it.
    OfLink(Link),
    /// From here on the fragments of these packets are incomplete; `None` of no packet. It is no
    /// record of a file. Its time counts as 0. `Capture` never returns it.
    Incomplete(Option<Incomplete>),
}

/// What a record of a capture holds.
#[derive(Clone, Debug, PartialEq, Eq, Drop)]
pub enum Event {
    /// A PIM packet. The buffer holds the bytes of its record.
    Packet {
        /// The time of capture, in milliseconds since 1970.
        millis: u64,
        /// Its addresses, and the range of its message.
        ip: Ip,
    },
    /// A record that holds no whole PIM packet.
    Skipped {
        /// The time of capture, in milliseconds since 1970.
        millis: u64,
        /// Why it is skipped.
        why: Why,
    },
    /// No record is left.
    End,
}
