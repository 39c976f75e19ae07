//! What an IP packet holds of a packet that carries PIM.

ghost use Rattle.std.specs.Prelude.{◌≡◌, ◌+◌, ◌≤◌, length, take, drop, IfOk, None, Some, Ok, Err};
ghost use Rattle.std.specs.Prelude.{false};
ghost use Rattle.pim_addr.specs.Faults.{Answers};
ghost use Rattle.pim_addr.specs.declared.family.AddressFamily.TheVariants.{Ipv4, Ipv6};
ghost use Rattle.pim_capture.specs.Frame.{header_length, packet_length, judge_packet, Datagram};
ghost use Rattle.pim_capture.specs.declared.event.Why.{Why};
ghost use Rattle.pim_capture.specs.Seen.{LiesIn, IsShort};
ghost use Rattle.pim_fragments.specs.Parts.{v4_fragment, v4_part, v6_part, part_or, part_of};
ghost use Rattle.pim_fragments.specs.Parts.{may_be_part, pim_begins};
ghost use Rattle.pim_fragments.specs.Seen.{part_seen};

use crate::headers::{Fragment, PIM, number_at, walk};
use pim_addr::{AddressFamily, Family, V4, V6};
use pim_capture::{Ip, Why, judge_packet};

/// A packet that carries PIM, or a fragment of one.
#[derive(Clone, Debug, PartialEq, Eq, Drop)]
pub struct Part {
    /// Its addresses, and the range of its payload: the PIM message, or the fragment's bytes.
    pub ip: Ip,
    /// Which fragment it is; `None` for a whole packet.
    pub fragment: Option<Fragment>,
}

/// The address at the index `at`.
fn address_at<F: Family>(bytes: &[u8], at: usize) -> F::Addr
    requires { at + F.LEN ≤ length bytes.now }
    ensures { F.bytes_of result ≡ take F.LEN (drop at bytes.now) }
{
    let (_, rest) = bytes.split_at(at);
    F::take(rest)
}

/// The fields of an IPv4 header that say which fragment it is.
fn v4_fragment(packet: &[u8]) -> Fragment
    requires { 20 ≤ length packet.now }
    ensures { result ≡ v4_fragment packet.now }
{
    let flags_and_offset = number_at(packet, 6);
    Fragment {
        protocol: PIM,
        identification: u32::from(number_at(packet, 4)),
        offset: 8 * (flags_and_offset & 0x1fff),
        more: flags_and_offset & 0x2000 != 0,
    }
}

/// Judges the fragment of an IPv4 packet at the index `at` of the frame.
fn v4_part(frame: &[u8], at: usize) -> Result<Part, Why>
    requires whole { at + 20 ≤ length frame.now }
    requires header { 20 ≤ header_length Ipv4 (drop at frame.now) }
    requires total { header_length Ipv4 (drop at frame.now)
        ≤ packet_length Ipv4 (drop at frame.now) }
    ensures answer { Answers (part_seen frame.now) result (v4_part (drop at frame.now)) }
    ensures range { IfOk result (λ part. LiesIn frame.now part.ip) }
    ensures short { IfOk result (λ part. IsShort part.ip) }
{
    let (_, packet) = frame.split_at(at);
    let header_length = 4 * usize::from(packet[0] & 0x0f);
    let total_length = usize::from(number_at(packet, 2));
    if packet.len() < total_length {
        return Err(Why::Cut);
    }
    Ok(Part {
        ip: Ip::V4 {
            source: address_at::<V4>(packet, 12),
            destination: address_at::<V4>(packet, 16),
            payload: at + header_length..at + total_length,
        },
        fragment: Some(v4_fragment(packet)),
    })
}

/// Judges the IPv6 packet with a header before PIM at the index `at` of the frame.
#[tactic(auto, using(crate::proofs::Ranges::range_drop))]
fn v6_part(frame: &[u8], at: usize) -> Result<Part, Why>
    requires { at + 40 ≤ length frame.now }
    ensures answer { Answers (part_seen frame.now) result (v6_part (drop at frame.now)) }
    ensures range { IfOk result (λ part. LiesIn frame.now part.ip) }
    ensures short { IfOk result (λ part. IsShort part.ip) }
{
    let (_, packet) = frame.split_at(at);
    let total_length = 40 + usize::from(number_at(packet, 4));
    let content = match walk(packet[6], 40, total_length, packet) {
        Ok(content) => content,
        Err(why) => return Err(why),
    };
    if packet.len() < total_length {
        return Err(Why::Cut);
    }
    Ok(Part {
        ip: Ip::V6 {
            source: address_at::<V6>(packet, 8),
            destination: address_at::<V6>(packet, 24),
            payload: at + content.begin..at + total_length,
        },
        fragment: content.fragment,
    })
}

/// What the IPv4 packet at the index `at` holds, which isn't a whole one for this reason.
fn v4_or(why: Why, bytes: &[u8], at: usize) -> Result<Part, Why>
    requires within { at ≤ length bytes.now }
    requires judged { judge_packet (Some Ipv4) (drop at bytes.now) ≡ Err why }
    ensures answer { Answers (part_seen bytes.now) result
        (part_or Ipv4 (drop at bytes.now) (Err why)) }
    ensures range { IfOk result (λ part. LiesIn bytes.now part.ip) }
    ensures short { IfOk result (λ part. IsShort part.ip) }
{
    match why {
        Why::Fragment => v4_part(bytes, at),
        _ => Err(why),
    }
}

/// What the IPv6 packet at the index `at` holds, which isn't a whole one for this reason.
fn v6_or(why: Why, bytes: &[u8], at: usize) -> Result<Part, Why>
    requires within { at ≤ length bytes.now }
    requires judged { judge_packet (Some Ipv6) (drop at bytes.now) ≡ Err why }
    ensures answer { Answers (part_seen bytes.now) result
        (part_or Ipv6 (drop at bytes.now) (Err why)) }
    ensures range { IfOk result (λ part. LiesIn bytes.now part.ip) }
    ensures short { IfOk result (λ part. IsShort part.ip) }
{
    match why {
        Why::NotPim => v6_part(bytes, at),
        _ => Err(why),
    }
}

/// What the IP packet of this family at the index `at` of the bytes holds, or the first reason why
/// it holds nothing of a packet that carries PIM.
pub fn part_of(family: AddressFamily, bytes: &[u8], at: usize) -> Result<Part, Why>
    requires { at ≤ length bytes.now }
    ensures answer { Answers (part_seen bytes.now) result (part_of family (drop at bytes.now)) }
    ensures range { IfOk result (λ part. LiesIn bytes.now part.ip) }
    ensures short { IfOk result (λ part. IsShort part.ip) }
{
    let why = match judge_packet(family, bytes, at) {
        Ok(ip) => return Ok(Part { ip, fragment: None }),
        Err(why) => why,
    };
    match family {
        AddressFamily::Ipv4 => v4_or(why, bytes, at),
        AddressFamily::Ipv6 => v6_or(why, bytes, at),
    }
}

/// A law: a packet that is no fragment, and has no header before PIM, is what `judge_packet` says
/// of it. It has no effect.
pub fn whole_packets_are_as_judged(family: AddressFamily, packet: &[u8])
    ensures whole { (datagram : Datagram) → judge_packet (Some family) packet.now ≡ Ok datagram
        → part_of family packet.now ≡ Ok (record { datagram = datagram; fragment = None }) }
    ensures skipped { (why : Why) → judge_packet (Some family) packet.now ≡ Err why
        → may_be_part family packet.now why ≡ false → part_of family packet.now ≡ Err why }
{
    let _packet = packet;
    let _family = family;
}

/// Where PIM begins in the payload of a packet of this protocol, whose fragments were put together.
pub fn pim_begins(protocol: u8, payload: &[u8]) -> Result<usize, Why>
    ensures begin { result ≡ pim_begins protocol payload.now }
    ensures within { IfOk result (λ begin. begin ≤ length payload.now) }
{
    let content = match walk(protocol, 0, payload.len(), payload) {
        Ok(content) => content,
        Err(why) => return Err(why),
    };
    match content.fragment {
        None => Ok(content.begin),
        Some(_) => Err(Why::Fragment),
    }
}
