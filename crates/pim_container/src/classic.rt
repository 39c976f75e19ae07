//! The file header and the records of a classic pcap file.

ghost use Rattle.std.specs.Prelude.{◌≡◌, ◌≢◌, ◌+◌, ◌≤◌, length, Err};
ghost use Rattle.pim_addr.specs.Faults.{Answers, judged};
ghost use Rattle.pim_container.specs.Classic.{is_magic, file_order, format_with, link_type};
ghost use Rattle.pim_container.specs.Classic.{judge_header};
ghost use Rattle.pim_container.specs.Classic.{captured_length, head_faults, millis_of};
ghost use Rattle.pim_container.specs.Classic.{record_event};
ghost use Rattle.pim_container.specs.Link.{link_of};
ghost use Rattle.pim_container.specs.EventSeen.{event_seen, EventLiesIn, IsBy, latest_moment};

use crate::event::ContainerEvent;
use crate::fault::ContainerFault;
use crate::link::{BlockEndianness, LinkLayer, link_of};
use crate::packet::event_of;

/// The unit of the fraction of a record's time.
#[derive(Clone, Copy, Debug, PartialEq, Eq)]
pub enum ClassicResolution {
    /// Millionths of a second.
    Microseconds,
    /// Billionths of a second.
    Nanoseconds,
}

/// What the header of a classic file says of its records.
#[derive(Clone, Copy, Debug, PartialEq, Eq)]
pub struct ClassicFormat {
    /// The byte order of all numbers in the file.
    pub order: BlockEndianness,
    /// The unit of the fractions of its times.
    pub resolution: ClassicResolution,
    /// What the frames begin with.
    pub link: LinkLayer,
}

/// The magic of a file whose fractions count microseconds.
const MICROSECONDS_MAGIC: u32 = 0xa1b2_c3d4;

/// The magic of a file whose fractions count nanoseconds.
const NANOSECONDS_MAGIC: u32 = 0xa1b2_3c4d;

/// The first two bytes of a file that gzip compressed (RFC 1952, 2.3.1).
const GZIP_MAGIC: u16 = 0x1f8b;

/// The greatest captured length of a record that is read, in bytes.
const MOST_CAPTURED: u32 = 262_144;

/// Whether a file begins with a magic in this byte order.
fn is_magic(order: BlockEndianness, header: &[u8]) -> bool
    requires { 4 ≤ length header.now }
    ensures { result ≡ is_magic order header.now }
{
    let magic = order.read_u32_at(header, 0);
    magic == MICROSECONDS_MAGIC || magic == NANOSECONDS_MAGIC
}

/// The format of a file with this byte order and link word.
fn format_in(order: BlockEndianness, header: &[u8]) -> Result<ClassicFormat, ContainerFault>
    requires whole { 24 ≤ length header.now }
    requires order { order ≡ file_order header.now }
    ensures answer { Answers (λ format. format) result
        (format_with header.now (link_of (link_type header.now))) }
    ensures not_read { result ≢ Err ContainerFault.Read }
    ensures not_memory { result ≢ Err ContainerFault.Memory }
{
    let number = (order.read_u32_at(header, 20) & 0xffff) as u16;
    let link = match link_of(number) {
        LinkLayer::Other(_) => return Err(ContainerFault::LinkType(number)),
        link => link,
    };
    let resolution = if order.read_u32_at(header, 0) == NANOSECONDS_MAGIC {
        ClassicResolution::Nanoseconds
    } else {
        ClassicResolution::Microseconds
    };
    Ok(ClassicFormat {
        order,
        resolution,
        link,
    })
}

/// The format that a file header of 24 bytes gives.
///
/// # Errors
/// `Gzip`, `Magic` or `LinkType`, in this order.
pub fn read_header(header: &[u8]) -> Result<ClassicFormat, ContainerFault>
    requires { 24 ≤ length header.now }
    ensures answer { Answers (λ format. format) result (judge_header header.now) }
    ensures not_read { result ≢ Err ContainerFault.Read }
    ensures not_memory { result ≢ Err ContainerFault.Memory }
{
    if is_magic(BlockEndianness::Big, header) {
        return format_in(BlockEndianness::Big, header);
    }
    if is_magic(BlockEndianness::Little, header) {
        return format_in(BlockEndianness::Little, header);
    }
    if BlockEndianness::Big.read_u16_at(header, 0) == GZIP_MAGIC {
        return Err(ContainerFault::Gzip);
    }
    Err(ContainerFault::Magic)
}

/// The length of the record with this head of 16 bytes.
///
/// # Errors
/// `TooLong` if its captured length is above 262,144.
pub fn record_length(format: ClassicFormat, head: &[u8]) -> Result<usize, ContainerFault>
    requires { 16 ≤ length head.now }
    ensures { Answers (λ size. size) result
        (judged (head_faults format head.now) (16 + captured_length format head.now)) }
{
    let captured = format.order.read_u32_at(head, 8);
    if captured > MOST_CAPTURED {
        return Err(ContainerFault::TooLong);
    }
    Ok(16 + captured as usize)
}

/// The time of a record, in milliseconds since 1970.
fn millis_of(format: ClassicFormat, record: &[u8]) -> u64
    requires { 8 ≤ length record.now }
    ensures value { result ≡ millis_of format record.now }
    ensures bound { result ≤ latest_moment }
{
    let seconds = format.order.read_u32_at(record, 0);
    let fraction = format.order.read_u32_at(record, 4);
    let per_millisecond = match format.resolution {
        ClassicResolution::Microseconds => 1_000,
        ClassicResolution::Nanoseconds => 1_000_000,
    };
    u64::from(seconds) * 1_000 + u64::from(fraction / per_millisecond)
}

/// The event of a whole record.
pub fn read_record(format: ClassicFormat, record: &[u8]) -> ContainerEvent
    requires { 16 ≤ length record.now }
    ensures event { event_seen record.now result ≡ record_event format record.now }
    ensures ranges { EventLiesIn record.now result }
    ensures moment { IsBy latest_moment result }
    ensures record { result ≢ ContainerEvent.End }
{
    let millis = millis_of(format, record);
    event_of(millis, 0, None, format.link, record, 16)
}
