//! A capture with two fragments of one packet that is cut at any byte, or whose reads fail from
//! there.

use super::NEVER;
use super::merging::EACH;
use pim_addr::ScriptedFeed;
use pim_capture::{CaptureFault, Event, Why};
use pim_merge::{Incomplete, Merge, RecordPlace};
use std::alloc::Global;

/// A Hello at 100 s, and 1 and 5 ms later the fragments of a Join/Prune, as raw IP.
const PARTS: [u8; 176] = [
    212, 195, 178, 161, 2, 0, 4, 0, 0, 0, 0, 0, 0, 0, 0, 0, 0, 0, 4, 0, 101, 0, 0, 0, 100, 0, 0, 0,
    0, 0, 0, 0, 30, 0, 0, 0, 30, 0, 0, 0, 69, 0, 0, 30, 0, 0, 0, 0, 1, 103, 0, 0, 10, 0, 0, 9, 224,
    0, 0, 13, 32, 0, 0, 0, 0, 1, 0, 2, 223, 252, 100, 0, 0, 0, 232, 3, 0, 0, 36, 0, 0, 0, 36, 0, 0,
    0, 69, 0, 0, 36, 0, 7, 32, 0, 1, 103, 0, 0, 10, 0, 0, 9, 224, 0, 0, 13, 35, 0, 196, 212, 1, 0,
    10, 0, 0, 2, 0, 1, 0, 210, 1, 0, 100, 0, 0, 0, 136, 19, 0, 0, 38, 0, 0, 0, 38, 0, 0, 0, 69, 0,
    0, 38, 0, 7, 0, 2, 1, 103, 0, 0, 10, 0, 0, 9, 224, 0, 0, 13, 0, 32, 239, 1, 1, 1, 0, 1, 0, 0,
    1, 0, 7, 32, 10, 9, 9, 9,
];

/// The fragment is incomplete.
const LONE: Option<Incomplete> = Some(Incomplete {
    packets: 1,
    first: RecordPlace { file: 0, record: 2 },
});

/// What a turn has: `P` a packet, `F` a fragment that is held, `I` what is told of incomplete
/// packets, `C` a record that the end of the file cuts, `?` another one.
fn letter(event: &Event) -> u8 {
    match event {
        Event::Packet { .. } => b'P',
        Event::Skipped { why, .. } => match why {
            Why::Part => b'F',
            Why::Incomplete(_) => b'I',
            Why::OfLink(_) => b'L',
            Why::CutShort => b'C',
            _ => b'?',
        },
        Event::End => b'?',
    }
}

/// Whether the next turns are these, and then comes the end or this fault.
fn turns_are(
    merge: &mut Merge<ScriptedFeed<'_>>,
    letters: &[u8],
    fault: Option<CaptureFault>,
) -> bool {
    for want in letters {
        match merge.next() {
            Ok(Some(turn)) if letter(&turn.event) == *want => {}
            _ => return false,
        }
    }
    match merge.next() {
        Ok(turn) => fault.is_none() && turn.is_none(),
        Err(found) => Some(found.fault) == fault,
    }
}

/// Whether a merge of this capture has these turns, this end, and these incomplete packets.
fn goes(
    alloc: Global,
    feed: ScriptedFeed<'_>,
    letters: &[u8],
    (fault, incomplete): (Option<CaptureFault>, Option<Incomplete>),
) -> bool {
    let mut merge = Merge::new(alloc);
    let is_added = merge.add_any(alloc, feed, EACH).is_ok();
    is_added
        && turns_are(&mut merge, letters, fault)
        && merge.count() == 1
        && merge.tally(0).incomplete == incomplete
}

/// The turns before the byte at this index, and which packets are incomplete then.
fn turns_before(length: usize) -> (&'static [u8], Option<Incomplete>) {
    match length {
        0..70 => (b"", None),
        70..122 => (b"P", None),
        122..176 => (b"PFI", LONE),
        _ => (b"PFIPI", None),
    }
}

/// The turns of a capture that is cut to this length.
fn turns_of(length: usize) -> (&'static [u8], Option<Incomplete>) {
    match length {
        0..=24 | 70 | 122 | 176 => turns_before(length),
        25..70 => (b"C", None),
        71..122 => (b"PC", None),
        _ => (b"PFIC", LONE),
    }
}

/// Whether it goes as it should where the capture is cut to this length.
fn is_cut(alloc: Global, length: usize) -> bool {
    let (front, _) = PARTS.split_at(length.min(176));
    let (letters, incomplete) = turns_of(length);
    let fault = (length < 24).then_some(CaptureFault::Truncated);
    let feed = ScriptedFeed::new(front, 7, NEVER);
    goes(alloc, feed, letters, (fault, incomplete))
}

/// Whether it does where reads fail from this byte on.
fn is_unread(alloc: Global, length: usize) -> bool {
    let (letters, incomplete) = turns_before(length);
    let feed = ScriptedFeed::new(&PARTS, 7, length);
    goes(alloc, feed, letters, (Some(CaptureFault::Read), incomplete))
}

/// The first length at which it goes otherwise.
fn wrong_length(alloc: Global) -> Option<usize> {
    for length in 0..=176 {
        if !is_cut(alloc, length) || !is_unread(alloc, length) {
            return Some(length);
        }
    }
    None
}

#[test]
fn cut_anywhere_or_unread(rt: HostRuntime) {
    assert_eq!(rt; wrong_length(rt.alloc()), None);
}
