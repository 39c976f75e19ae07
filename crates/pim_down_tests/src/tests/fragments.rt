//! Fragments of packets that are put together, and the headers of IPv6 before PIM.

mod headers;

use pim_capture::{Incomplete, RecordPlace};
use pim_fragments::{Fragment, Fragments};
use std::alloc::{AllocError, Global};
use std::test::Fail;

/// A fragment: the key of its packet, its offset, its length, whether others follow it, the moment
/// of its record, and the length of the payload that it completes, or 0.
type Step = (u8, u16, usize, bool, u64, usize);

/// Fragments in the order of their records, how many packets are incomplete after them, and the
/// number of the first record of these, or 0.
type Course = (&'static [Step], u64, u64);

const FIRST: Step = (0, 0, 16, true, 0, 0);

const SECOND: Step = (0, 16, 16, true, 0, 0);

const LAST: Step = (0, 32, 2, false, 0, 0);

/// The last fragment, which completes the packet.
const WHOLE: Step = (0, 32, 2, false, 0, 34);

/// Fragments that make a packet.
const COMPLETE: [Course; 8] = [
    (&[FIRST, SECOND, WHOLE], 0, 0),
    (&[LAST, SECOND, (0, 0, 16, true, 0, 34)], 0, 0),
    (&[SECOND, LAST, (0, 0, 16, true, 0, 34)], 0, 0),
    (&[FIRST, LAST, (0, 16, 16, true, 0, 34)], 0, 0),
    (&[(0, 0, 34, false, 0, 34)], 0, 0),
    // A fragment that comes twice counts once. After its packet it begins another.
    (&[LAST, LAST, FIRST, FIRST, (0, 16, 16, true, 0, 34)], 0, 0),
    (&[FIRST, SECOND, WHOLE, LAST], 1, 4),
    (
        &[(0, 0, 65_528, true, 0, 0), (0, 65_528, 7, false, 0, 65_535)],
        0,
        0,
    ),
];

/// Two packets, of which one or both stay incomplete.
const TWO: [Course; 4] = [
    (&[FIRST, (1, 16, 16, true, 0, 0), LAST], 2, 1),
    (
        &[
            FIRST,
            (1, 0, 16, true, 0, 0),
            SECOND,
            (1, 32, 2, false, 0, 0),
            WHOLE,
        ],
        1,
        2,
    ),
    (
        &[
            (1, 32, 2, false, 0, 0),
            FIRST,
            (1, 0, 32, true, 0, 34),
            SECOND,
            WHOLE,
        ],
        0,
        0,
    ),
    (&[FIRST, SECOND, WHOLE, FIRST, SECOND, WHOLE], 0, 0),
];

/// Packets that have a hole, or no end.
const HOLES: [Course; 3] = [
    (&[FIRST, LAST], 1, 1),
    (&[SECOND, LAST], 1, 1),
    (&[FIRST, SECOND], 1, 1),
];

/// Packets that are broken. From then on they take nothing.
const BROKEN: [Course; 11] = [
    // An overlap at the beginning of a fragment, at its end, and of one within another.
    (&[FIRST, (0, 8, 24, true, 0, 0), LAST, SECOND], 1, 1),
    (&[LAST, SECOND, (0, 0, 24, true, 0, 0), FIRST], 1, 1),
    (&[FIRST, SECOND, (0, 16, 8, true, 0, 0), LAST], 1, 1),
    // The same bytes at one offset, once as the last ones.
    (&[FIRST, SECOND, (0, 16, 16, false, 0, 0), LAST], 1, 1),
    // Two ends.
    (&[LAST, (0, 40, 2, false, 0, 0), FIRST, SECOND], 1, 1),
    // A fragment of 12 bytes before others, and two without bytes.
    (&[(0, 16, 12, true, 0, 0), FIRST, SECOND, LAST], 1, 1),
    (&[(0, 48, 0, true, 0, 0), FIRST, SECOND, LAST], 1, 1),
    (&[(0, 32, 0, false, 0, 0), FIRST, SECOND, LAST], 1, 1),
    // An end after 65,536 bytes, and more than 65,535 bytes that overlap.
    (
        &[(0, 65_528, 8, false, 0, 0), (0, 0, 65_528, true, 0, 0)],
        1,
        1,
    ),
    (
        &[
            (0, 0, 40_000, true, 0, 0),
            (0, 8, 40_000, true, 0, 0),
            (0, 40_000, 2, false, 0, 0),
        ],
        1,
        1,
    ),
    // It begins again 30,001 ms after its first fragment.
    (
        &[
            FIRST,
            (0, 0, 8, true, 0, 0),
            SECOND,
            (0, 0, 34, false, 30_001, 34),
        ],
        1,
        1,
    ),
];

/// Packets with times.
const TIMES: [Course; 5] = [
    (&[FIRST, SECOND, (0, 32, 2, false, 30_000, 34)], 0, 0),
    (&[FIRST, SECOND, (0, 32, 2, false, 30_001, 0)], 2, 1),
    (
        &[
            FIRST,
            (0, 16, 16, true, 30_000, 0),
            (0, 32, 2, false, 30_001, 0),
        ],
        2,
        1,
    ),
    // A time that runs back ends nothing.
    (
        &[
            (0, 0, 16, true, 5000, 0),
            (0, 16, 16, true, 10, 0),
            (0, 32, 2, false, 35_000, 34),
        ],
        0,
        0,
    ),
    // A fragment of another packet ends it, too.
    (&[FIRST, SECOND, (1, 0, 8, true, 30_001, 0), LAST], 3, 1),
];

/// The bytes of packets, of which 256 are alike each time.
fn payload(alloc: Global) -> Result<Vec<u8>, AllocError> {
    let mut bytes = Vec::new(alloc);
    for byte in 0..=255 {
        bytes.extend_from_slice(&[byte; 256])?;
    }
    Ok(bytes)
}

/// So many bytes from an index on.
fn piece(payload: &[u8], offset: u16, length: usize) -> &[u8] {
    let (_, rest) = payload.split_at(usize::from(offset).min(payload.len()));
    let (bytes, _) = rest.split_at(length.min(rest.len()));
    bytes
}

/// The record of this number, in the first file.
fn record(number: u64) -> RecordPlace {
    RecordPlace {
        file: 0,
        record: number,
    }
}

/// Takes a fragment: whether it completes the packet that it should. If memory is refused, nothing
/// has changed, and the fragment is taken again.
fn goes(
    fragments: &mut Fragments<u8>,
    payload: &[u8],
    number: u64,
    (key, offset, length, more, moment, whole): Step,
) -> Result<bool, AllocError> {
    let fragment = Fragment {
        protocol: 103,
        identification: 7,
        offset,
        more,
    };
    let bytes = piece(payload, offset, length);
    let before = fragments.incomplete();
    let place = record(number);
    let (taken, is_refused) = match fragments.take(key, fragment, bytes, place, moment) {
        Ok(taken) => (taken, false),
        Err(_) if fragments.incomplete() != before => return Ok(false),
        Err(_) => (fragments.take(key, fragment, bytes, place, moment)?, true),
    };
    let is_right = match taken {
        None => whole == 0,
        Some(taken) => whole != 0 && taken.as_slice() == piece(payload, 0, whole),
    };
    if is_right && is_refused {
        return Err(AllocError);
    }
    Ok(is_right)
}

/// What is incomplete where these are so many packets.
fn incomplete(packets: u64, first: u64) -> Option<Incomplete> {
    if packets == 0 {
        return None;
    }
    Some(Incomplete {
        packets,
        first: record(first),
    })
}

/// Whether a course goes as it says.
fn runs(alloc: Global, payload: &[u8], course: Course) -> Result<bool, AllocError> {
    let mut fragments = Fragments::new(alloc);
    let (steps, packets, first) = course;
    let mut number: u64 = 0;
    for step in steps {
        number = number.saturating_add(1);
        if !goes(&mut fragments, payload, number, *step)? {
            return Ok(false);
        }
    }
    Ok(fragments.incomplete() == incomplete(packets, first))
}

/// The first course that doesn't.
fn wrong(alloc: Global, courses: &[Course]) -> Result<Option<usize>, AllocError> {
    let payload = payload(alloc)?;
    for index in 0..courses.len() {
        if !runs(alloc, payload.as_slice(), courses[index])? {
            return Ok(Some(index));
        }
    }
    Ok(None)
}

#[test]
fn fragments_make_packets(rt: HostRuntime) -> Result<(), Fail> {
    assert_eq!(rt; wrong(rt.alloc(), &COMPLETE)?, None);
    assert_eq!(rt; wrong(rt.alloc(), &TWO)?, None);
    Ok(())
}

#[test]
fn fragments_make_none(rt: HostRuntime) -> Result<(), Fail> {
    assert_eq!(rt; wrong(rt.alloc(), &HOLES)?, None);
    assert_eq!(rt; wrong(rt.alloc(), &BROKEN)?, None);
    Ok(())
}

#[test]
fn packets_go_by_time(rt: HostRuntime) -> Result<(), Fail> {
    assert_eq!(rt; wrong(rt.alloc(), &TIMES)?, None);
    Ok(())
}

/// Takes the first or the last half of these packets: whether each completes its packet or none.
fn all_go(
    fragments: &mut Fragments<u8>,
    keys: &[u8],
    offset: u16,
    whole: usize,
) -> Result<bool, AllocError> {
    for key in keys {
        let step = (*key, offset, 8, offset == 0, 0, whole);
        if !goes(fragments, &BYTES, 1 + u64::from(*key), step)? {
            return Ok(false);
        }
    }
    Ok(true)
}

/// Bytes of a packet.
const BYTES: [u8; 34] = [
    0, 1, 2, 3, 4, 5, 6, 7, 8, 9, 10, 11, 12, 13, 14, 15, 16, 17, 18, 19, 20, 21, 22, 23, 24, 25,
    26, 27, 28, 29, 30, 31, 32, 33,
];

const SIXTEEN: [u8; 16] = [1, 2, 3, 4, 5, 6, 7, 8, 9, 10, 11, 12, 13, 14, 15, 16];

#[test]
fn sixteen_packets_are_kept(rt: HostRuntime) -> Result<(), Fail> {
    let mut fragments = Fragments::new(rt.alloc());
    assert!(rt; all_go(&mut fragments, &SIXTEEN, 0, 0)?);
    assert_eq!(rt; fragments.incomplete(), incomplete(16, 2));
    assert!(rt; all_go(&mut fragments, &SIXTEEN, 8, 16)?);
    assert_eq!(rt; fragments.incomplete(), None);
    Ok(())
}

#[test]
fn of_seventeen_the_oldest_goes(rt: HostRuntime) -> Result<(), Fail> {
    let mut fragments = Fragments::new(rt.alloc());
    assert!(rt; all_go(&mut fragments, &[0], 0, 0)?);
    assert!(rt; all_go(&mut fragments, &SIXTEEN, 0, 0)?);
    assert_eq!(rt; fragments.incomplete(), incomplete(17, 1));
    assert!(rt; all_go(&mut fragments, &SIXTEEN, 8, 16)?);
    assert_eq!(rt; fragments.incomplete(), incomplete(1, 1));
    assert!(rt; all_go(&mut fragments, &[0], 8, 0)?);
    assert_eq!(rt; fragments.incomplete(), incomplete(2, 1));
    Ok(())
}

#[test]
fn other_bytes_break_a_packet(rt: HostRuntime) -> Result<(), Fail> {
    let mut fragments = Fragments::new(rt.alloc());
    let mut other = BYTES;
    other[20] = 0;
    assert!(rt; goes(&mut fragments, &BYTES, 1, FIRST)?);
    assert!(rt; goes(&mut fragments, &BYTES, 2, SECOND)?);
    assert!(rt; goes(&mut fragments, &other, 3, SECOND)?);
    assert!(rt; goes(&mut fragments, &BYTES, 4, LAST)?);
    assert_eq!(rt; fragments.incomplete(), incomplete(1, 1));
    Ok(())
}

// `tools/each_growth_refused.sh` runs it with each allocation refused in turn.
#[test]
fn refusals_change_nothing(rt: HostRuntime) -> Result<(), Fail> {
    let mut fragments = Fragments::new(rt.alloc());
    assert!(rt; goes(&mut fragments, &BYTES, 1, LAST)?);
    assert!(rt; goes(&mut fragments, &BYTES, 2, (1, 0, 8, true, 0, 0))?);
    assert!(rt; goes(&mut fragments, &BYTES, 3, SECOND)?);
    assert!(rt; goes(&mut fragments, &BYTES, 4, (0, 0, 16, true, 0, 34))?);
    assert!(rt; goes(&mut fragments, &BYTES, 5, (1, 8, 8, false, 0, 16))?);
    Ok(())
}
