//! The file header of a capture, and the numbers in all headers.

ghost use Rattle.std.specs.Prelude.{◌≡◌, ◌+◌, ◌≤◌, length, drop, IfErr};
ghost use Rattle.pim_addr.specs.Faults.{Answers};
ghost use Rattle.pim_capture.specs.Header.{number, is_magic, judge_header, IsOfBytes};

use crate::fault::CaptureFault;
use byteorder::{BigEndian, ByteOrder, LittleEndian};

/// The byte order of the numbers of a capture.
#[derive(Clone, Copy, Debug, PartialEq, Eq)]
pub enum Endianness {
    /// The highest byte first.
    Big,
    /// The lowest byte first.
    Little,
}

/// The unit of the fraction of a record's time.
#[derive(Clone, Copy, Debug, PartialEq, Eq)]
pub enum Resolution {
    /// Millionths of a second.
    Microseconds,
    /// Billionths of a second.
    Nanoseconds,
}

/// The header with which the captured bytes of a record begin.
#[derive(Clone, Copy, Debug, PartialEq, Eq)]
pub enum Link {
    /// An Ethernet header (link type 1).
    Ethernet,
    /// An IP header (link type 101).
    Raw,
}

/// What the header of a capture says of its records.
#[derive(Clone, Copy, Debug, PartialEq, Eq)]
pub struct Format {
    /// The byte order of all numbers in the file.
    pub endianness: Endianness,
    /// The unit of the fractions of its times.
    pub resolution: Resolution,
    /// The header with which the captured bytes of its records begin.
    pub link: Link,
}

/// The magic of a capture whose times count microseconds.
const MICROSECONDS_MAGIC: u32 = 0xa1b2_c3d4;

/// The magic of a capture whose times count nanoseconds.
const NANOSECONDS_MAGIC: u32 = 0xa1b2_3c4d;

impl Endianness {
    /// The 32-bit number at the front.
    pub fn read_u32(self, bytes: &[u8]) -> u32
        requires { 4 ≤ length bytes.now }
        ensures { result ≡ number self 4 bytes.now }
    {
        match self {
            Endianness::Big => BigEndian::read_u32(bytes),
            Endianness::Little => LittleEndian::read_u32(bytes),
        }
    }

    /// The 32-bit number at the index `at`.
    pub fn read_u32_at(self, bytes: &[u8], at: usize) -> u32
        requires { at + 4 ≤ length bytes.now }
        ensures { result ≡ number self 4 (drop at bytes.now) }
    {
        let (_, rest) = bytes.split_at(at);
        self.read_u32(rest)
    }

    /// Whether the number at the front is one of the two magics in this byte order.
    fn reads_magic(self, bytes: &[u8]) -> bool
        requires { 4 ≤ length bytes.now }
        ensures { result ≡ is_magic self bytes.now }
    {
        let magic = self.read_u32(bytes);
        magic == MICROSECONDS_MAGIC || magic == NANOSECONDS_MAGIC
    }
}

/// The format that a file header gives, of which at most 24 bytes are given.
///
/// # Errors
/// `Truncated`, `Magic` or `LinkType`, in this order.
pub fn read_header(header: &[u8]) -> Result<Format, CaptureFault>
    ensures answer { Answers (λ format. format) result (judge_header header.now) }
    ensures bytes { IfErr result IsOfBytes }
{
    if header.len() < 24 {
        return Err(CaptureFault::Truncated);
    }
    let endianness = if Endianness::Big.reads_magic(header) {
        Endianness::Big
    } else if Endianness::Little.reads_magic(header) {
        Endianness::Little
    } else {
        return Err(CaptureFault::Magic);
    };
    let resolution = if endianness.read_u32(header) == NANOSECONDS_MAGIC {
        Resolution::Nanoseconds
    } else {
        Resolution::Microseconds
    };
    let link = match endianness.read_u32_at(header, 20) & 0xffff {
        1 => Link::Ethernet,
        101 => Link::Raw,
        _ => return Err(CaptureFault::LinkType),
    };
    Ok(Format {
        endianness,
        resolution,
        link,
    })
}
