//! The headers of IPv6 before PIM, those of fragments, and fragments of IPv4.

use pim_addr::AddressFamily;
use pim_capture::{Ip, Why};
use pim_fragments::{Fragment, part_of, pim_begins};
use std::alloc::{AllocError, Global};
use std::test::Fail;

/// The hop limit and the addresses of IPv6 packets.
const ENDS: [u8; 33] = [
    1, 0xfe, 0x80, 0, 0, 0, 0, 0, 0, 0, 0, 0, 0, 0, 0, 0, 9, 0xff, 2, 0, 0, 0, 0, 0, 0, 0, 0, 0, 0,
    0, 0, 0, 13,
];

/// The header of an IPv4 fragment with 16 bytes, the second one of a packet of PIM.
const V4_HEADER: [u8; 20] = [
    0x45, 0, 0, 36, 0x12, 0x34, 0x20, 2, 1, 103, 0, 0, 10, 0, 0, 9, 224, 0, 0, 13,
];

/// Where the message or the bytes of a fragment are, and which fragment it is; or why it is none.
type Told = Result<(usize, usize, Option<Fragment>), Why>;

/// The payload length and the next header of an IPv6 packet, what is captured after its first 40
/// bytes, and what it is.
type Row = (u8, u8, &'static [u8], Told);

/// A fragment of PIM.
const PART: Fragment = Fragment {
    protocol: 103,
    identification: 0x0102_0304,
    offset: 0,
    more: true,
};

/// Packets of PIM, without a header before it and with one or two.
const ROWS: [Row; 20] = [
    (8, 103, &[1; 8], Ok((40, 48, None))),
    (
        16,
        0,
        &[103, 0, 1, 4, 0, 0, 0, 0, 7, 7, 7, 7, 7, 7, 7, 7],
        Ok((48, 56, None)),
    ),
    (
        16,
        60,
        &[103, 0, 1, 4, 0, 0, 0, 0, 7, 7, 7, 7, 7, 7, 7, 7],
        Ok((48, 56, None)),
    ),
    (
        16,
        43,
        &[103, 0, 4, 0, 0, 0, 0, 0, 7, 7, 7, 7, 7, 7, 7, 7],
        Ok((48, 56, None)),
    ),
    (
        18,
        0,
        &[60, 0, 1, 4, 0, 0, 0, 0, 103, 0, 1, 4, 0, 0, 0, 0, 7, 7, 9],
        Ok((56, 58, None)),
    ),
    (
        16,
        0,
        &[103, 1, 1, 12, 0, 0, 0, 0, 0, 0, 0, 0, 0, 0, 0, 0],
        Ok((56, 56, None)),
    ),
    // A header is longer than the payload, or it is shorter than 8 bytes; or the payload ends
    // before it.
    (
        16,
        0,
        &[103, 2, 1, 4, 0, 0, 0, 0, 7, 7, 7, 7, 7, 7, 7, 7],
        Err(Why::BadHeader),
    ),
    (7, 0, &[103, 0, 1, 4, 0, 0, 0, 0], Err(Why::BadHeader)),
    (8, 0, &[60, 0, 1, 4, 0, 0, 0, 0], Err(Why::BadHeader)),
    // A header is longer than what is captured, and so is a message.
    (
        24,
        0,
        &[103, 2, 1, 4, 0, 0, 0, 0, 7, 7, 7, 7, 7, 7, 7, 7],
        Err(Why::Cut),
    ),
    (24, 0, &[103, 0, 1, 4, 0, 0, 0], Err(Why::Cut)),
    (
        17,
        0,
        &[103, 0, 1, 4, 0, 0, 0, 0, 7, 7, 7, 7, 7, 7, 7, 7],
        Err(Why::Cut),
    ),
    // MLD after a router alert, and UDP after Destination Options.
    (
        12,
        0,
        &[58, 0, 5, 2, 0, 0, 1, 0, 143, 0, 0, 0],
        Err(Why::NotPim),
    ),
    (8, 60, &[17, 0, 1, 4, 0, 0, 0, 0], Err(Why::NotPim)),
    // Fragments: the first one, one that is cut, one of UDP, and a whole packet.
    (
        16,
        44,
        &[103, 9, 0, 1, 1, 2, 3, 4, 7, 7, 7, 7, 7, 7, 7, 7],
        Ok((48, 56, Some(PART))),
    ),
    (
        16,
        44,
        &[103, 9, 0, 1, 1, 2, 3, 4, 7, 7, 7, 7, 7, 7, 7],
        Err(Why::Cut),
    ),
    (
        16,
        44,
        &[17, 9, 0, 1, 1, 2, 3, 4, 7, 7, 7, 7, 7, 7, 7, 7],
        Err(Why::NotPim),
    ),
    (
        16,
        44,
        &[103, 9, 0, 6, 1, 2, 3, 4, 7, 7, 7, 7, 7, 7, 7, 7],
        Ok((48, 56, None)),
    ),
    (7, 44, &[103, 9, 0, 1, 1, 2, 3], Err(Why::BadHeader)),
    // Hop-by-Hop Options before a fragment.
    (
        18,
        0,
        &[44, 0, 5, 2, 0, 0, 1, 0, 103, 0, 0, 1, 1, 2, 3, 4, 7, 7],
        Ok((56, 58, Some(PART))),
    ),
];

/// An IPv6 packet.
fn packet(alloc: Global, length: u8, next: u8, rest: &[u8]) -> Result<Vec<u8>, AllocError> {
    let mut bytes = Vec::new(alloc);
    bytes.extend_from_slice(&[0x60, 0, 0, 0, 0, length, next])?;
    bytes.extend_from_slice(&ENDS)?;
    bytes.extend_from_slice(rest)?;
    Ok(bytes)
}

/// What the packet in these bytes is.
fn told(family: AddressFamily, bytes: &[u8]) -> Told {
    let part = part_of(family, bytes, 0)?;
    match part.ip {
        Ip::V4 { payload, .. } => Ok((payload.start, payload.end, part.fragment)),
        Ip::V6 { payload, .. } => Ok((payload.start, payload.end, part.fragment)),
    }
}

/// The first row that is told otherwise.
fn wrong(alloc: Global) -> Result<Option<usize>, AllocError> {
    for index in 0..ROWS.len() {
        let (length, next, rest, want) = ROWS[index];
        let bytes = packet(alloc, length, next, rest)?;
        if told(AddressFamily::Ipv6, bytes.as_slice()) != want {
            return Ok(Some(index));
        }
    }
    Ok(None)
}

#[test]
fn headers_of_ipv6(rt: HostRuntime) -> Result<(), Fail> {
    assert_eq!(rt; wrong(rt.alloc())?, None);
    Ok(())
}

/// What an IPv4 fragment is that has so many bytes after its header.
fn v4_told(alloc: Global, size: usize) -> Result<Told, AllocError> {
    let mut bytes = Vec::from_slice(alloc, &V4_HEADER)?;
    let (rest, _) = ENDS.split_at(size.min(33));
    bytes.extend_from_slice(rest)?;
    Ok(told(AddressFamily::Ipv4, bytes.as_slice()))
}

#[test]
fn fragments_of_ipv4(rt: HostRuntime) -> Result<(), Fail> {
    let part = Fragment {
        protocol: 103,
        identification: 0x1234,
        offset: 16,
        more: true,
    };
    assert_eq!(rt; v4_told(rt.alloc(), 16)?, Ok((20, 36, Some(part))));
    assert_eq!(rt; v4_told(rt.alloc(), 33)?, Ok((20, 36, Some(part))));
    assert_eq!(rt; v4_told(rt.alloc(), 15)?, Err(Why::Cut));
    Ok(())
}

/// The protocol of a packet that fragments made, its payload, and where PIM begins.
type Begin = (u8, &'static [u8], Result<usize, Why>);

const BEGINS: [Begin; 6] = [
    (103, &[], Ok(0)),
    (103, &[1, 2], Ok(0)),
    (60, &[103, 0, 1, 4, 0, 0, 0, 0, 7], Ok(8)),
    (60, &[17, 0, 1, 4, 0, 0, 0, 0, 7], Err(Why::NotPim)),
    (60, &[103, 1, 1, 4, 0, 0, 0, 0, 7], Err(Why::BadHeader)),
    (17, &[1, 2], Err(Why::NotPim)),
];

/// The first row with another beginning.
fn wrong_begin() -> Option<usize> {
    BEGINS.iter().position(|(protocol, payload, want)| pim_begins(*protocol, payload) != *want)
}

#[test]
fn pim_in_whole_packets(rt: HostRuntime) {
    assert_eq!(rt; wrong_begin(), None);
}
