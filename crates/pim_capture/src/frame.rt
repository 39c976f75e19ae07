//! The judgment of a captured frame.
//!
//! A second 802.1Q tag and a tag of another type than 0x8100 count as not IP: a wrong guess of
//! where the packet begins is worse than a skipped record. Extension headers of IPv6 aren't walked,
//! since routers send PIM without them.

ghost use Rattle.std.specs.Prelude.{◌≡◌, ◌+◌, ◌≤◌, length, take, drop, IfOk, Some};
ghost use Rattle.byteorder.specs.Endian.{big_number};
ghost use Rattle.pim_addr.specs.Faults.{judged, Answers};
ghost use Rattle.pim_addr.specs.declared.family.AddressFamily.TheVariants.{Ipv4, Ipv6};
ghost use Rattle.pim_capture.specs.Frame.{header_length, is_bad_header, is_fragment, packet_whys};
ghost use Rattle.pim_capture.specs.Frame.{datagram_of};
ghost use Rattle.pim_capture.specs.Frame.{judge_frame, judge_packet};
ghost use Rattle.pim_capture.specs.Seen.{ip_seen, LiesIn, IsShort};
ghost use Rattle.pim_capture.specs.declared.header.Link.TheVariants.{Ethernet, Raw};

use crate::event::{Ip, Why};
use crate::header::Link;
use byteorder::{BigEndian, ByteOrder};
use pim_addr::{AddressFamily, Family, V4, V6};

/// The IP protocol number of PIM (RFC 7761, 4.9).
const PIM: u8 = 103;

/// The 16-bit number at the index `at`.
fn number_at(bytes: &[u8], at: usize) -> u16
    requires { at + 2 ≤ length bytes.now }
    ensures { result ≡ big_number 2 (drop at bytes.now) }
{
    let (_, rest) = bytes.split_at(at);
    BigEndian::read_u16(rest)
}

/// The address at the index `at`.
fn address_at<F: Family>(bytes: &[u8], at: usize) -> F::Addr
    requires { at + F.LEN ≤ length bytes.now }
    ensures { F.bytes_of result ≡ take F.LEN (drop at bytes.now) }
{
    let (_, rest) = bytes.split_at(at);
    F::take(rest)
}

/// The length of an IPv4 header with its options, in bytes.
fn v4_header_length(packet: &[u8]) -> usize
    requires { 20 ≤ length packet.now }
    ensures { result ≡ header_length Ipv4 packet.now }
{
    4 * usize::from(packet[0] & 0x0f)
}

/// Whether an IPv4 header has another version, or lengths that contradict each other.
fn is_bad_v4_header(packet: &[u8]) -> bool
    requires { 20 ≤ length packet.now }
    ensures { result ≡ is_bad_header Ipv4 packet.now }
{
    let header_length = v4_header_length(packet);
    let total_length = usize::from(number_at(packet, 2));
    packet[0] >> 4 != 4 || header_length < 20 || total_length < header_length
}

/// Whether an IPv4 packet is a fragment: more fragments follow, or its offset is above 0.
fn is_fragment(packet: &[u8]) -> bool
    requires { 20 ≤ length packet.now }
    ensures { result ≡ is_fragment Ipv4 packet.now }
{
    let flags_and_offset = number_at(packet, 6);
    flags_and_offset & 0x2000 != 0 || flags_and_offset & 0x1fff != 0
}

/// Judges the IPv4 packet (RFC 791, 3.1) at the index `at` of the frame.
fn judge_v4(frame: &[u8], at: usize) -> Result<Ip, Why>
    requires { at ≤ length frame.now }
    ensures answer { Answers (ip_seen frame.now) result
        (judged (packet_whys Ipv4 (drop at frame.now)) (datagram_of Ipv4 (drop at frame.now))) }
    ensures range { IfOk result (LiesIn frame.now) }
    ensures short { IfOk result IsShort }
{
    let (_, packet) = frame.split_at(at);
    if packet.len() < 20 {
        return Err(Why::Cut);
    }
    if is_bad_v4_header(packet) {
        return Err(Why::BadHeader);
    }
    if packet[9] != PIM {
        return Err(Why::NotPim);
    }
    if is_fragment(packet) {
        return Err(Why::Fragment);
    }
    let header_length = v4_header_length(packet);
    let total_length = usize::from(number_at(packet, 2));
    if packet.len() < total_length {
        return Err(Why::Cut);
    }
    Ok(Ip::V4 {
        source: address_at::<V4>(packet, 12),
        destination: address_at::<V4>(packet, 16),
        payload: at + header_length..at + total_length,
    })
}

/// Judges the IPv6 packet (RFC 8200, 3) at the index `at` of the frame. Extension headers aren't
/// read.
#[tactic(auto, using(crate::proofs::Ranges::range_drop))]
fn judge_v6(frame: &[u8], at: usize) -> Result<Ip, Why>
    requires { at ≤ length frame.now }
    ensures answer { Answers (ip_seen frame.now) result
        (judged (packet_whys Ipv6 (drop at frame.now)) (datagram_of Ipv6 (drop at frame.now))) }
    ensures range { IfOk result (LiesIn frame.now) }
    ensures short { IfOk result IsShort }
{
    let (_, packet) = frame.split_at(at);
    if packet.len() < 40 {
        return Err(Why::Cut);
    }
    if packet[0] >> 4 != 6 {
        return Err(Why::BadHeader);
    }
    if packet[6] != PIM {
        return Err(Why::NotPim);
    }
    let packet_length = 40 + usize::from(number_at(packet, 4));
    if packet.len() < packet_length {
        return Err(Why::Cut);
    }
    Ok(Ip::V6 {
        source: address_at::<V6>(packet, 8),
        destination: address_at::<V6>(packet, 24),
        payload: at + 40..at + packet_length,
    })
}

/// The PIM packet in the IP packet of this family at the index `at` of the bytes, or the first
/// reason why it holds none.
pub fn judge_packet(family: AddressFamily, bytes: &[u8], at: usize) -> Result<Ip, Why>
    requires { at ≤ length bytes.now }
    ensures answer { Answers (ip_seen bytes.now) result
        (judge_packet (Some family) (drop at bytes.now)) }
    ensures range { IfOk result (LiesIn bytes.now) }
    ensures short { IfOk result IsShort }
{
    match family {
        AddressFamily::Ipv4 => judge_v4(bytes, at),
        AddressFamily::Ipv6 => judge_v6(bytes, at),
    }
}

/// Judges an Ethernet frame, with at most one 802.1Q tag.
fn judge_ethernet(frame: &[u8]) -> Result<Ip, Why>
    ensures answer { Answers (ip_seen frame.now) result (judge_frame Ethernet frame.now) }
    ensures range { IfOk result (LiesIn frame.now) }
{
    if frame.len() < 14 {
        return Err(Why::Cut);
    }
    let start = if number_at(frame, 12) == 0x8100 {
        18
    } else {
        14
    };
    if frame.len() < start {
        return Err(Why::Cut);
    }
    match number_at(frame, start - 2) {
        0x0800 => judge_v4(frame, start),
        0x86dd => judge_v6(frame, start),
        _ => Err(Why::NotIp),
    }
}

/// Judges a frame that begins with an IP header.
fn judge_raw(frame: &[u8]) -> Result<Ip, Why>
    ensures answer { Answers (ip_seen frame.now) result (judge_frame Raw frame.now) }
    ensures range { IfOk result (LiesIn frame.now) }
{
    if frame.is_empty() {
        return Err(Why::Cut);
    }
    match frame[0] >> 4 {
        4 => judge_v4(frame, 0),
        6 => judge_v6(frame, 0),
        _ => Err(Why::NotIp),
    }
}

/// The PIM packet in the captured bytes of a record, or the first reason why they hold none.
pub fn judge(link: Link, frame: &[u8]) -> Result<Ip, Why>
    ensures answer { Answers (ip_seen frame.now) result (judge_frame link frame.now) }
    ensures range { IfOk result (LiesIn frame.now) }
{
    match link {
        Link::Ethernet => judge_ethernet(frame),
        Link::Raw => judge_raw(frame),
    }
}
