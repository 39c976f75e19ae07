//! A message with each of its bytes changed, and over devices that fail at each byte.

use pim_addr::{ScriptedDrain, ScriptedFeed, V4};
use pim_commands::{Fault, check_into};
use pim_frame::{Body, FrameFault, all_routers, open};
use std::alloc::Global;

/// A Join(*,G) of 239.1.1.1 with the RP 10.9.9.9, to 10.0.0.2.
const JOIN: [u8; 34] = [
    0x23, 0, 0xc4, 0xd4, 1, 0, 10, 0, 0, 2, 0, 1, 0, 210, 1, 0, 0, 32, 239, 1, 1, 1, 0, 1, 0, 0, 1,
    0, 7, 32, 10, 9, 9, 9,
];

const TEXT: &[u8] = b"join/prune upstream 10.0.0.2 holdtime 210 sets 1
set 239.1.1.1 joined 1 pruned 0
join star 10.9.9.9
";

/// Whether a message with this byte changed to each other value fails the checksum.
fn changes_fail_at(message: &mut [u8], place: usize) -> bool {
    for change in 1..=255u8 {
        if place >= message.len() || message.len() >= 100 {
            return false;
        }
        message[place] ^= change;
        let opened = open::<V4>([0; 4], all_routers::<V4>(), message);
        if opened != Err(FrameFault::Checksum) || place >= message.len() {
            return false;
        }
        message[place] ^= change;
    }
    true
}

#[test]
fn changed_bytes_fail_the_checksum(rt: HostRuntime) {
    let mut message = JOIN;
    for place in 1..message.len() {
        assert!(rt; changes_fail_at(&mut message, place));
    }
}

/// Whether the message with this first byte has the right answer: its version and type come before
/// its checksum, which is that of a Join/Prune alone.
fn is_answered(message: &mut [u8], first: u8) -> bool {
    if message.is_empty() || message.len() >= 100 {
        return false;
    }
    message[0] = first;
    let opened = open::<V4>([0; 4], all_routers::<V4>(), message);
    match (first >> 4, first & 0x0f) {
        (2, 3) => opened == Ok(Body::JoinPrune(&JOIN[4..])),
        (2, 0) => opened == Err(FrameFault::Checksum),
        (2, kind) => opened == Ok(Body::Other(kind)),
        (version, _) => opened == Err(FrameFault::Version(version)),
    }
}

#[test]
fn first_bytes_have_a_version_and_a_type(rt: HostRuntime) {
    let mut message = JOIN;
    for first in 0..=255u8 {
        assert!(rt; is_answered(&mut message, first));
    }
}

/// Whether a read that fails from this byte on is the fault, and nothing was written.
fn fails_to_read(alloc: Global, from: usize) -> bool {
    let mut input = ScriptedFeed::new(&JOIN, 1, from);
    let mut output = ScriptedDrain::new(alloc, 1, usize::MAX);
    let (src, dst) = ([0; 4], all_routers::<V4>());
    let answer = check_into::<V4, _, _>(alloc, &mut input, &mut output, src, dst);
    output.written().is_empty() && matches!(answer, Err(Fault::InputRead))
}

/// Whether a write that fails from this byte on is the fault, after a front of the text.
fn fails_to_write(alloc: Global, from: usize) -> bool {
    let mut input = ScriptedFeed::new(&JOIN, usize::MAX, usize::MAX);
    let mut output = ScriptedDrain::new(alloc, 5, from);
    let (src, dst) = ([0; 4], all_routers::<V4>());
    let answer = check_into::<V4, _, _>(alloc, &mut input, &mut output, src, dst);
    output.failures() == 1
        && Some(output.written()) == TEXT.get(..from)
        && matches!(answer, Err(Fault::Output))
}

#[test]
fn devices_fail_at_each_byte(rt: HostRuntime) {
    let alloc = rt.alloc();
    assert!(rt; (0..=JOIN.len()).all(|from| fails_to_read(alloc, from)));
    assert!(rt; (0..TEXT.len()).all(|from| fails_to_write(alloc, from)));
}
