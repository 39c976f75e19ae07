//! Files of routes whose reader fails at any byte, and the words of their faults.

use pim_addr::{Routes, ScriptedFeed, V4};
use pim_files::{RoutesFault, read_routes};
use std::alloc::Global;

/// A row of a neighbour, and a line that is no row.
const FILE: &[u8] = b"via 0.0.0.0/0 10.0.0.2\nbad\n";

/// Whether so many rows of neighbours, and none of an RP, are in the table.
fn has_rows(routes: &Routes<V4>, count: usize) -> bool {
    routes.rps().count() == 0 && routes.vias().count() == count
}

/// Whether reading the file ends so, where its reader gives at most five bytes and fails from this
/// byte on.
fn ends(alloc: Global, routes: &mut Routes<V4>, fails_from: usize, fault: RoutesFault) -> bool {
    let mut reader = ScriptedFeed::new(FILE, 5, fails_from);
    match read_routes(alloc, &mut reader, routes) {
        Ok(()) => false,
        Err(reported) => reported == fault,
    }
}

/// The same with so many rows of neighbours then.
fn is_read(alloc: Global, fails_from: usize, fault: RoutesFault, count: usize) -> bool {
    let mut routes: Routes<V4> = Routes::new(alloc);
    ends(alloc, &mut routes, fails_from, fault) && has_rows(&routes, count)
}

/// The first byte of the file at which a failure isn't answered so.
fn wrong(alloc: Global) -> Option<usize> {
    for from in 0..=FILE.len() {
        if !is_read(alloc, from, RoutesFault::Read, 0) {
            return Some(from);
        }
    }
    None
}

#[test]
fn a_reader_that_fails(rt: HostRuntime) {
    assert_eq!(rt; wrong(rt.alloc()), None);
    assert!(rt; is_read(rt.alloc(), FILE.len() + 1, RoutesFault::Line(2), 1));
}

/// Whether a fault is told in these words.
fn is_in_words(alloc: Global, fault: RoutesFault, words: &str) -> bool {
    match format!(in alloc; "{fault}") {
        Ok(text) => text.as_str() == words,
        Err(_) => false,
    }
}

const WORDS: [(RoutesFault, &str); 4] = [
    (RoutesFault::TooLong, "routes too-long"),
    (RoutesFault::Read, "routes read"),
    (RoutesFault::Line(12), "routes line 12"),
    (RoutesFault::Memory, "memory"),
];

#[test]
fn a_line_is_told_in_words(rt: HostRuntime) {
    for (fault, words) in WORDS {
        assert!(rt; is_in_words(rt.alloc(), fault, words));
    }
}
