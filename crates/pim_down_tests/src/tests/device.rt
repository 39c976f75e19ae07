//! Devices over std's readers and writers, and scripted ones, move by move.

use pim_device::{
    Counted, Drain, Failed, Feed, ScriptedDrain, ScriptedFeed, read_up_to, write_all,
};
use std::alloc::Global;
use std::io::{self, Write};

/// A reader of no use: it fails in each call.
#[derive(Drop)]
struct Broken;

impl io::Read for Broken {
    fn read(&mut self, _buffer: &mut [u8]) -> io::Result<usize> {
        Err(io::Error::from(io::ErrorKind::TimedOut))
    }
}

/// A writer that takes nothing and says so.
#[derive(Drop)]
struct Stuck;

impl Write for Stuck {
    fn write(&mut self, _bytes: &[u8]) -> io::Result<usize> {
        Ok(0)
    }

    fn flush(&mut self) -> io::Result<()> {
        Ok(())
    }
}

/// Whether a counted reader over one of std's gives its bytes.
fn gives_bytes() -> bool {
    let mut feed = Counted::new(b"hello".as_slice());
    let mut buffer = [0; 8];
    let count = read_up_to(&mut feed, &mut buffer);
    count == Ok(5) && &buffer == b"hello\0\0\0" && feed.failures() == 0
}

/// Whether a counted writer over one of std's takes bytes, and gives that one back.
fn takes_bytes(alloc: Global) -> bool {
    let mut drain = Counted::new(Vec::new(alloc));
    let three = write_all(&mut drain, b"hel");
    let two = drain.write(b"lo");
    let none = drain.write(b"");
    let all_taken = three == Ok(()) && two == Ok(2) && none == Ok(0);
    let is_lent = drain.get_ref().as_slice() == b"hello".as_slice();
    let failures = drain.failures();
    let given = drain.into_inner();
    all_taken && is_lent && failures == 0 && given.as_slice() == b"hello".as_slice()
}

#[test]
fn counted_passes_bytes_on(rt: HostRuntime) {
    assert!(rt; gives_bytes());
    assert!(rt; takes_bytes(rt.alloc()));
}

/// Whether each read of a reader that fails is counted.
fn counts_reads() -> bool {
    let mut feed = Counted::new(Broken);
    for failures in 1..4 {
        let reported = feed.read(&mut [0; 4]);
        if reported != Err(Failed) || feed.failures() != failures {
            return false;
        }
    }
    true
}

/// Whether each write of a writer that takes nothing is counted, but for a write of nothing.
fn counts_writes() -> bool {
    let mut drain = Counted::new(Stuck);
    for failures in 1..4 {
        let reported = write_all(&mut drain, b"some");
        if reported != Err(Failed) || drain.failures() != failures {
            return false;
        }
    }
    drain.write(b"") == Ok(0) && drain.failures() == 3
}

#[test]
fn counted_counts_failures(rt: HostRuntime) {
    assert!(rt; counts_reads());
    assert!(rt; counts_writes());
}

/// A scripted reader of 8 bytes that gives at most so many a call and fails from a byte on: whether
/// 6 bytes are read.
type FeedRow = (usize, usize, bool);

const FEEDS: [FeedRow; 5] = [
    (1, usize::MAX, true),
    (4, usize::MAX, true),
    (4, 6, true),
    (4, 5, false),
    (0, 0, false),
];

/// Whether a scripted reader answers this, and counts it where it is a failure.
fn is_fed((most, fails_from, is_read): FeedRow) -> bool {
    let mut feed = ScriptedFeed::new(b"abcdefgh", most, fails_from);
    let answer = read_up_to(&mut feed, &mut [0; 6]);
    let wanted = if is_read { Ok(6) } else { Err(Failed) };
    answer == wanted && feed.failures() == u64::from(!is_read)
}

/// Whether a scripted reader gives two bytes, one, and then none.
fn is_fed_in_parts() -> bool {
    let mut feed = ScriptedFeed::new(b"abc", 2, usize::MAX);
    let mut buffer = [0; 4];
    for count in [2, 1, 0] {
        if feed.read(&mut buffer) != Ok(count) {
            return false;
        }
    }
    &buffer == b"cb\0\0"
}

/// The first reader that answers otherwise.
fn wrong_feed(rows: &[FeedRow]) -> Option<usize> {
    for index in 0..rows.len() {
        if !is_fed(rows[index]) {
            return Some(index);
        }
    }
    None
}

#[test]
fn scripted_feed_fails_from_a_byte_on(rt: HostRuntime) {
    assert_eq!(rt; wrong_feed(&FEEDS), None);
    assert!(rt; is_fed_in_parts());
}

/// A scripted writer that takes at most so many bytes a call and fails from a byte on: whether
/// `abcdef` goes out, and the front of it that does.
type DrainRow<'a> = (usize, usize, bool, &'a [u8]);

const DRAINS: [DrainRow<'static>; 5] = [
    (1, usize::MAX, true, b"abcdef"),
    (4, 6, true, b"abcdef"),
    (4, 5, false, b"abcde"),
    (0, 1, false, b"a"),
    (9, 0, false, b""),
];

/// Whether a scripted writer answers this, holds that front, and counts a failure.
fn is_drained(alloc: Global, (most, fails_from, goes_out, front): DrainRow<'_>) -> bool {
    let mut drain = ScriptedDrain::new(alloc, most, fails_from);
    let answer = write_all(&mut drain, b"abcdef");
    answer.is_ok() == goes_out
        && drain.written() == front
        && drain.failures() == u64::from(!goes_out)
}

/// The first writer that answers otherwise.
fn wrong_drain(alloc: Global, rows: &[DrainRow<'_>]) -> Option<usize> {
    for index in 0..rows.len() {
        if !is_drained(alloc, rows[index]) {
            return Some(index);
        }
    }
    None
}

#[test]
fn scripted_drain_fails_from_a_byte_on(rt: HostRuntime) {
    assert_eq!(rt; wrong_drain(rt.alloc(), &DRAINS), None);
}
