//! The headers of an IPv6 packet that stand before PIM.

ghost use Rattle.std.specs.Prelude.{◌≡◌, ◌+◌, ◌≤◌, length, drop, IfOk, Ok};
ghost use Rattle.byteorder.specs.Endian.{big_number};
ghost use Rattle.pim_addr.specs.Faults.{judged};
ghost use Rattle.pim_fragments.specs.Headers.{is_option_header, is_read, may_hold_pim};
ghost use Rattle.pim_fragments.specs.Headers.{header_length, reach_whys, header_whys};
ghost use Rattle.pim_fragments.specs.Headers.{fragment_at, is_part, content_at, walk, most_headers};

use byteorder::{BigEndian, ByteOrder};
use pim_capture::Why;

/// The IP protocol number of PIM (RFC 7761, 4.9).
pub(crate) const PIM: u8 = 103;

/// The number of the Fragment header.
const FRAGMENT: u8 = 44;

/// More headers than a packet has.
const MOST_HEADERS: usize = 8200;

/// Which fragment of a packet this is.
#[derive(Clone, Copy, Debug, PartialEq, Eq)]
pub struct Fragment {
    /// The protocol of the packet. Over IPv6 it is the next header of the Fragment header.
    pub protocol: u8,
    /// The identification of the packet.
    pub identification: u32,
    /// The index of the fragment's first byte in the packet's payload.
    pub offset: u16,
    /// Whether more fragments follow it.
    pub more: bool,
}

/// What the headers of a packet lead to.
#[derive(Clone, Copy, Debug, PartialEq, Eq)]
pub(crate) struct Content {
    /// The index of its first byte.
    pub(crate) begin: usize,
    /// Which fragment it is; `None` for a PIM message.
    pub(crate) fragment: Option<Fragment>,
}

/// The 16-bit number at the index `at`.
pub(crate) fn number_at(bytes: &[u8], at: usize) -> u16
    requires { at + 2 ≤ length bytes.now }
    ensures { result ≡ big_number 2 (drop at bytes.now) }
{
    let (_, rest) = bytes.split_at(at);
    BigEndian::read_u16(rest)
}

/// The 32-bit number at the index `at`.
fn long_number_at(bytes: &[u8], at: usize) -> u32
    requires { at + 4 ≤ length bytes.now }
    ensures { result ≡ big_number 4 (drop at bytes.now) }
{
    let (_, rest) = bytes.split_at(at);
    BigEndian::read_u32(rest)
}

/// Whether a header of this number has options and a length.
fn is_option_header(next: u8) -> bool
    ensures { result ≡ is_option_header next }
{
    next == 0 || next == 43 || next == 60
}

/// Whether a header of this number may stand before PIM.
fn is_read(next: u8) -> bool
    ensures { result ≡ is_read next }
{
    is_option_header(next) || next == FRAGMENT
}

/// Whether a fragment of this protocol may hold PIM.
fn may_hold_pim(next: u8) -> bool
    ensures { result ≡ may_hold_pim next }
{
    is_option_header(next) || next == PIM
}

/// The end of `size` bytes at the index `at`, if the packet has them, and they were captured.
fn reach(at: usize, size: usize, total: usize, bytes: &[u8]) -> Result<usize, Why>
    requires { at ≤ total }
    ensures end { result ≡ judged (reach_whys (at + size) total bytes.now) (at + size) }
    ensures after { IfOk result (λ end. at ≤ end) }
    ensures total { IfOk result (λ end. end ≤ total) }
    ensures captured { IfOk result (λ end. end ≤ length bytes.now) }
{
    if total - at < size {
        return Err(Why::BadHeader);
    }
    let end = at + size;
    if bytes.len() < end {
        return Err(Why::Cut);
    }
    Ok(end)
}

/// The length of the header at the index `at`.
fn header_length(next: u8, at: usize, bytes: &[u8]) -> usize
    requires { at + 8 ≤ length bytes.now }
    ensures { result ≡ header_length next at bytes.now }
{
    if next == FRAGMENT {
        return 8;
    }
    8 * (usize::from(bytes[at + 1]) + 1)
}

/// The end of the header at the index `at`, or why it isn't read.
fn header_end(next: u8, at: usize, total: usize, bytes: &[u8]) -> Result<usize, Why>
    requires { at ≤ total }
    ensures end { result ≡ judged (header_whys next at total bytes.now)
        (at + header_length next at bytes.now) }
    ensures begun { IfOk result (λ end. at + 8 ≤ length bytes.now) }
    ensures after { IfOk result (λ end. at ≤ end) }
    ensures total { IfOk result (λ end. end ≤ total) }
{
    if !is_read(next) {
        return Err(Why::NotPim);
    }
    let _first = reach(at, 8, total, bytes)?;
    reach(at, header_length(next, at, bytes), total, bytes)
}

/// The fields of the Fragment header at the index `at`.
fn fragment_at(at: usize, bytes: &[u8]) -> Fragment
    requires { at + 8 ≤ length bytes.now }
    ensures { result ≡ fragment_at at bytes.now }
{
    let place = number_at(bytes, at + 2);
    Fragment {
        protocol: bytes[at],
        identification: long_number_at(bytes, at + 4),
        offset: 8 * (place / 8),
        more: place % 2 == 1,
    }
}

/// Whether other bytes of its packet stand before or after a fragment.
fn is_part(fragment: Fragment) -> bool
    ensures { result ≡ is_part fragment }
{
    fragment.more || fragment.offset != 0
}

/// The fragment whose bytes begin at the index `begin`, if its packet may hold PIM.
fn content_at(begin: usize, fragment: Fragment) -> Result<Content, Why>
    ensures content { result ≡ content_at begin fragment }
    ensures begin { IfOk result (λ content. content.begin ≡ begin) }
{
    if !may_hold_pim(fragment.protocol) {
        return Err(Why::NotPim);
    }
    Ok(Content {
        begin,
        fragment: Some(fragment),
    })
}

/// Walks over the headers from the index `at` on, of which the first has the number `next`.
pub(crate) fn walk(next: u8, at: usize, total: usize, bytes: &[u8]) -> Result<Content, Why>
    requires { at ≤ total }
    ensures content { result ≡ walk most_headers next at total bytes.now }
    ensures after { IfOk result (λ content. at ≤ content.begin) }
    ensures total { IfOk result (λ content. content.begin ≤ total) }
{
    let mut next = next;
    let mut at = at;
    for _ in 0..MOST_HEADERS {
        if next == PIM {
            return Ok(Content {
                begin: at,
                fragment: None,
            });
        }
        let end = match header_end(next, at, total, bytes) {
            Ok(end) => end,
            Err(why) => return Err(why),
        };
        if next == FRAGMENT {
            let fragment = fragment_at(at, bytes);
            if is_part(fragment) {
                return content_at(end, fragment);
            }
        }
        next = bytes[at];
        at = end;
    }
    Err(Why::BadHeader)
}
