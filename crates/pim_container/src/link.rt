//! Link types, and the byte order of the numbers in a file.

ghost use Rattle.std.specs.Prelude.{◌≡◌, ◌+◌, ◌≤◌, length, drop};
ghost use Rattle.pim_container.specs.Link.{number, link_of};

use byteorder::{BigEndian, ByteOrder, LittleEndian};

/// The byte order of the numbers of a file or a section.
#[derive(Clone, Copy, Debug, PartialEq, Eq)]
pub enum BlockEndianness {
    /// The highest byte first.
    Big,
    /// The lowest byte first.
    Little,
}

impl BlockEndianness {
    /// The 16-bit number at the index `at`.
    pub fn read_u16_at(self, bytes: &[u8], at: usize) -> u16
        requires { at + 2 ≤ length bytes.now }
        ensures { result ≡ number self 2 (drop at bytes.now) }
    {
        let (_, rest) = bytes.split_at(at);
        match self {
            BlockEndianness::Big => BigEndian::read_u16(rest),
            BlockEndianness::Little => LittleEndian::read_u16(rest),
        }
    }

    /// The 32-bit number at the index `at`.
    pub fn read_u32_at(self, bytes: &[u8], at: usize) -> u32
        requires { at + 4 ≤ length bytes.now }
        ensures { result ≡ number self 4 (drop at bytes.now) }
    {
        let (_, rest) = bytes.split_at(at);
        match self {
            BlockEndianness::Big => BigEndian::read_u32(rest),
            BlockEndianness::Little => LittleEndian::read_u32(rest),
        }
    }

    /// The 64-bit number at the index `at`.
    pub fn read_u64_at(self, bytes: &[u8], at: usize) -> u64
        requires { at + 8 ≤ length bytes.now }
        ensures { result ≡ number self 8 (drop at bytes.now) }
    {
        let (_, rest) = bytes.split_at(at);
        match self {
            BlockEndianness::Big => BigEndian::read_u64(rest),
            BlockEndianness::Little => LittleEndian::read_u64(rest),
        }
    }
}

/// What a frame begins with.
#[derive(Clone, Copy, Debug, PartialEq, Eq)]
pub enum LinkLayer {
    /// An Ethernet header (link type 1).
    Ethernet,
    /// An IP header of either version (link types 101, 12 and 14).
    Raw,
    /// An IPv4 header (link type 228).
    Ipv4,
    /// An IPv6 header (link type 229).
    Ipv6,
    /// The header of a Linux cooked capture (link type 113).
    Cooked,
    /// The header of its second version (link type 276).
    CookedV2,
    /// A BSD loopback header, in either byte order (link types 0 and 108).
    Loopback,
    /// A header that isn't read, of the link type with this number.
    Other(u16),
}

/// What the frames of a link type begin with.
pub fn link_of(number: u16) -> LinkLayer
    ensures { result ≡ link_of number }
{
    match number {
        1 => LinkLayer::Ethernet,
        12 | 14 | 101 => LinkLayer::Raw,
        228 => LinkLayer::Ipv4,
        229 => LinkLayer::Ipv6,
        113 => LinkLayer::Cooked,
        276 => LinkLayer::CookedV2,
        0 | 108 => LinkLayer::Loopback,
        _ => LinkLayer::Other(number),
    }
}
