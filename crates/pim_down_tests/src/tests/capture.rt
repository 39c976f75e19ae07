//! Captures that end or fail at any byte, and why records are passed over.

mod merging;
mod parts;
mod passing;

use pim_addr::ScriptedFeed;
use pim_capture::{Capture, CaptureFault, Event, Ip, Why};
use std::alloc::AllocError;
use std::test::Fail;

/// A capture of two raw IPv4 packets, in the lowest byte first, with microseconds: a Hello at 100
/// s, and 5 ms later a Join/Prune.
const CAPTURE: [u8; 140] = [
    212, 195, 178, 161, 2, 0, 4, 0, 0, 0, 0, 0, 0, 0, 0, 0, 0, 0, 4, 0, 101, 0, 0, 0, 100, 0, 0, 0,
    0, 0, 0, 0, 30, 0, 0, 0, 30, 0, 0, 0, 69, 0, 0, 30, 0, 0, 0, 0, 1, 103, 0, 0, 10, 0, 0, 9, 224,
    0, 0, 13, 32, 0, 0, 0, 0, 1, 0, 2, 223, 252, 100, 0, 0, 0, 136, 19, 0, 0, 54, 0, 0, 0, 54, 0,
    0, 0, 69, 0, 0, 54, 0, 0, 0, 0, 1, 103, 0, 0, 10, 0, 0, 9, 224, 0, 0, 13, 35, 0, 196, 212, 1,
    0, 10, 0, 0, 2, 0, 1, 0, 210, 1, 0, 0, 32, 239, 1, 1, 1, 0, 1, 0, 0, 1, 0, 7, 32, 10, 9, 9, 9,
];

/// The same two messages over IPv6.
const CAPTURE_V6: [u8; 180] = [
    212, 195, 178, 161, 2, 0, 4, 0, 0, 0, 0, 0, 0, 0, 0, 0, 0, 0, 4, 0, 101, 0, 0, 0, 100, 0, 0, 0,
    0, 0, 0, 0, 50, 0, 0, 0, 50, 0, 0, 0, 96, 0, 0, 0, 0, 10, 103, 1, 254, 128, 0, 0, 0, 0, 0, 0,
    0, 0, 0, 0, 0, 0, 0, 9, 255, 2, 0, 0, 0, 0, 0, 0, 0, 0, 0, 0, 0, 0, 0, 13, 32, 0, 0, 0, 0, 1,
    0, 2, 223, 252, 100, 0, 0, 0, 136, 19, 0, 0, 74, 0, 0, 0, 74, 0, 0, 0, 96, 0, 0, 0, 0, 34, 103,
    1, 254, 128, 0, 0, 0, 0, 0, 0, 0, 0, 0, 0, 0, 0, 0, 9, 255, 2, 0, 0, 0, 0, 0, 0, 0, 0, 0, 0, 0,
    0, 0, 13, 35, 0, 196, 212, 1, 0, 10, 0, 0, 2, 0, 1, 0, 210, 1, 0, 0, 32, 239, 1, 1, 1, 0, 1, 0,
    0, 1, 0, 7, 32, 10, 9, 9, 9,
];

/// A capture of one record, of no bytes yet. Behind its header stands an Ethernet frame with a tag
/// of 802.1Q and the Hello over IPv6.
const FRAMED: [u8; 108] = [
    212, 195, 178, 161, 2, 0, 4, 0, 0, 0, 0, 0, 0, 0, 0, 0, 0, 0, 4, 0, 1, 0, 0, 0, 100, 0, 0, 0,
    207, 7, 0, 0, 0, 0, 0, 0, 0, 0, 0, 0, 51, 51, 0, 0, 0, 13, 2, 0, 0, 0, 0, 9, 129, 0, 0, 5, 134,
    221, 96, 0, 0, 0, 0, 10, 103, 1, 254, 128, 0, 0, 0, 0, 0, 0, 0, 0, 0, 0, 0, 0, 0, 9, 255, 2, 0,
    0, 0, 0, 0, 0, 0, 0, 0, 0, 0, 0, 0, 13, 32, 0, 0, 0, 0, 1, 0, 2, 223, 252,
];

/// The same with the Hello as raw IP.
const RAW: [u8; 90] = [
    212, 195, 178, 161, 2, 0, 4, 0, 0, 0, 0, 0, 0, 0, 0, 0, 0, 0, 4, 0, 101, 0, 0, 0, 100, 0, 0, 0,
    207, 7, 0, 0, 0, 0, 0, 0, 0, 0, 0, 0, 96, 0, 0, 0, 0, 10, 103, 1, 254, 128, 0, 0, 0, 0, 0, 0,
    0, 0, 0, 0, 0, 0, 0, 9, 255, 2, 0, 0, 0, 0, 0, 0, 0, 0, 0, 0, 0, 0, 0, 13, 32, 0, 0, 0, 0, 1,
    0, 2, 223, 252,
];

/// A capture of the Hello over IPv4, at 100,001 ms, and of an empty record.
const HELLO: [u8; 86] = [
    212, 195, 178, 161, 2, 0, 4, 0, 0, 0, 0, 0, 0, 0, 0, 0, 0, 0, 4, 0, 101, 0, 0, 0, 100, 0, 0, 0,
    207, 7, 0, 0, 30, 0, 0, 0, 30, 0, 0, 0, 69, 0, 0, 30, 0, 0, 0, 0, 1, 103, 0, 0, 10, 0, 0, 9,
    224, 0, 0, 13, 32, 0, 0, 0, 0, 1, 0, 2, 223, 252, 100, 0, 0, 0, 0, 0, 0, 0, 0, 0, 0, 0, 0, 0,
    0, 0,
];

const NEVER: usize = usize::MAX;

/// A packet over IPv4, from 10.0.0.9 to ALL-PIM-ROUTERS.
fn v4(millis: u64, payload_end: usize) -> Event {
    Event::Packet {
        millis,
        ip: Ip::V4 {
            source: [10, 0, 0, 9],
            destination: [224, 0, 0, 13],
            payload: 20..payload_end,
        },
    }
}

/// A packet over IPv6, from fe80::9 to ALL-PIM-ROUTERS.
fn v6(millis: u64, payload_end: usize) -> Event {
    Event::Packet {
        millis,
        ip: Ip::V6 {
            source: [0xfe, 0x80, 0, 0, 0, 0, 0, 0, 0, 0, 0, 0, 0, 0, 0, 9],
            destination: [0xff, 2, 0, 0, 0, 0, 0, 0, 0, 0, 0, 0, 0, 0, 0, 13],
            payload: 40..payload_end,
        },
    }
}

/// Whether the next answer is this event.
fn tells(capture: &mut Capture<ScriptedFeed<'_>>, buffer: &mut Vec<u8>, event: &Event) -> bool {
    match capture.next(buffer) {
        Ok(reported) => reported == *event,
        Err(_) => false,
    }
}

/// Whether a capture ends, or ends with a fault, and does so for good.
fn ends(
    capture: &mut Capture<ScriptedFeed<'_>>,
    buffer: &mut Vec<u8>,
    fault: Option<CaptureFault>,
) -> bool {
    let later = fault.map(|_| CaptureFault::Failed);
    for fault in [fault, later, later] {
        let is_so = match capture.next(buffer) {
            Ok(reported) => fault.is_none() && reported == Event::End,
            Err(reported) => Some(reported) == fault,
        };
        if !is_so {
            return false;
        }
    }
    true
}

/// Whether a reader of a capture answers these events, and then its end or this fault.
fn answers(
    feed: ScriptedFeed<'_>,
    buffer: &mut Vec<u8>,
    events: &[Event],
    fault: Option<CaptureFault>,
) -> bool {
    let mut capture = Capture::new(feed);
    for event in events {
        if !tells(&mut capture, buffer, event) {
            return false;
        }
    }
    ends(&mut capture, buffer, fault)
}

/// The fault of a capture of two packets that is cut to this length, or whose reads fail from there
/// on. Records begin at the byte 24 and at `first`.
fn fault_of(bytes: &[u8], first: usize, length: usize, fails: bool) -> Option<CaptureFault> {
    if fails {
        Some(CaptureFault::Read)
    } else if length == 24 || length == first || length == bytes.len() {
        None
    } else {
        Some(CaptureFault::Truncated)
    }
}

/// At most how many bytes a read gives, and whether reads fail from the length on, or else the
/// bytes end there.
const WAYS: [(usize, bool); 5] = [(1, false), (7, false), (180, false), (1, true), (180, true)];

/// Whether a capture that is cut in this way answers the packets that are whole before, and then
/// its end.
fn is_cut(
    (bytes, first): (&[u8], usize),
    events: &[Event; 2],
    buffer: &mut Vec<u8>,
    length: usize,
    (most, fails): (usize, bool),
) -> bool {
    let (front, _) = bytes.split_at(length.min(bytes.len()));
    let feed = if fails {
        ScriptedFeed::new(bytes, most, length)
    } else {
        ScriptedFeed::new(front, most, NEVER)
    };
    let (none, _) = events.split_at(0);
    let (one, _) = events.split_at(1);
    let whole = if length < first {
        none
    } else if length < bytes.len() {
        one
    } else {
        events.as_slice()
    };
    answers(feed, buffer, whole, fault_of(bytes, first, length, fails))
}

/// The first length at which one of the ways isn't as it should be.
fn wrong_length(
    capture: (&[u8], usize),
    events: &[Event; 2],
    buffer: &mut Vec<u8>,
) -> Option<usize> {
    for length in 0..=capture.0.len() {
        for way in WAYS {
            if !is_cut(capture, events, buffer, length, way) {
                return Some(length);
            }
        }
    }
    None
}

#[test]
fn cut_anywhere(rt: HostRuntime) {
    let mut buffer = Vec::new(rt.alloc());
    let events = [v4(100_000, 30), v4(100_005, 54)];
    assert_eq!(rt; wrong_length((&CAPTURE, 70), &events, &mut buffer), None);
    let events = [v6(100_000, 50), v6(100_005, 74)];
    assert_eq!(rt; wrong_length((&CAPTURE_V6, 90), &events, &mut buffer), None);
}

/// Whether the only record of a capture is passed over as one that is cut, where it has so many of
/// the bytes behind it.
fn is_passed_over(bytes: &mut [u8], buffer: &mut Vec<u8>, length: u8) -> bool {
    let end = 40 + usize::from(length);
    if end > bytes.len() {
        return false;
    }
    bytes[32] = length;
    bytes[36] = length;
    let skipped = Event::Skipped {
        millis: 100_001,
        why: Why::Cut,
    };
    let (front, _) = bytes.split_at(end);
    let feed = ScriptedFeed::new(front, 1_000_000, NEVER);
    answers(feed, buffer, &[skipped], None)
}

#[test]
fn ipv6_frames_cut_anywhere(rt: HostRuntime) {
    let mut buffer = Vec::new(rt.alloc());
    let mut framed = FRAMED;
    for length in 0..68 {
        assert!(rt; is_passed_over(&mut framed, &mut buffer, length));
    }
    let mut raw = RAW;
    for length in 0..50 {
        assert!(rt; is_passed_over(&mut raw, &mut buffer, length));
    }
}

/// A byte of the Hello's packet that is changed, to which value, and why the packet is passed over
/// then.
type Change = (usize, u8, Why);

const CHANGES: [Change; 7] = [
    (0, 0x00, Why::NotIp),
    (0, 0x44, Why::BadHeader),
    (3, 0x13, Why::BadHeader),
    (9, 0x06, Why::NotPim),
    (6, 0x20, Why::Fragment),
    (7, 0x01, Why::Fragment),
    (3, 0x1f, Why::Cut),
];

/// Whether the Hello is passed over so, and the empty record after it as one that is cut.
fn is_skipped(buffer: &mut Vec<u8>, (at, byte, why): Change) -> bool {
    let mut bytes = HELLO;
    if at >= 30 {
        return false;
    }
    bytes[40 + at] = byte;
    let first = Event::Skipped {
        millis: 100_001,
        why,
    };
    let second = Event::Skipped {
        millis: 100_000,
        why: Why::Cut,
    };
    let feed = ScriptedFeed::new(&bytes, 1_000_000, NEVER);
    answers(feed, buffer, &[first, second], None)
}

/// The first change with which the packet isn't.
fn wrong_change(buffer: &mut Vec<u8>, changes: &[Change]) -> Option<usize> {
    for index in 0..changes.len() {
        if !is_skipped(buffer, changes[index]) {
            return Some(index);
        }
    }
    None
}

#[test]
fn packets_passed_over(rt: HostRuntime) {
    let mut buffer = Vec::new(rt.alloc());
    assert_eq!(rt; wrong_change(&mut buffer, &CHANGES), None);
}

/// Whether the next answer is this packet. Where memory is refused, each later answer has to be
/// that it failed.
fn is_next(
    capture: &mut Capture<ScriptedFeed<'_>>,
    buffer: &mut Vec<u8>,
    want: &Event,
) -> Result<bool, AllocError> {
    match capture.next(buffer) {
        Ok(event) => Ok(event == *want),
        Err(CaptureFault::Memory) => {
            let failed = Err(CaptureFault::Failed);
            if capture.next(buffer) == failed && capture.next(buffer) == failed {
                Err(AllocError)
            } else {
                Ok(false)
            }
        }
        Err(_) => Ok(false),
    }
}

// `tools/each_growth_refused.sh` runs it with each allocation refused in turn. Then it ends with
// this error, if nothing else is wrong: so it passes only if each call succeeds.
#[test]
fn refused_growth(rt: HostRuntime) -> Result<(), Fail> {
    let mut buffer = Vec::new(rt.alloc());
    let mut capture = Capture::new(ScriptedFeed::new(&CAPTURE, 64, NEVER));
    assert!(rt; is_next(&mut capture, &mut buffer, &v4(100_000, 30))?);
    assert!(rt; is_next(&mut capture, &mut buffer, &v4(100_005, 54))?);
    Ok(())
}
