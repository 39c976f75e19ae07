//! Views of a Join/Prune body, which is a message from its byte 4 on, and sets that are written in
//! parts.

use pim_addr::V4;
use pim_jp::{
    Entries, Entry, JpView, SetView, head_length, put_entry, put_group_and_counts, put_head,
};
use std::alloc::Global;
use std::fmt::Debug;

mod changed_bytes;
mod clashes;

/// Upstream 10.0.0.2, holdtime 210, and 239.1.1.1 with the RP 10.9.9.9 joined.
const STAR: [u8; 30] = [
    1, 0, 10, 0, 0, 2, 0, 1, 0, 210, 1, 0, 0, 32, 239, 1, 1, 1, 0, 1, 0, 0, 1, 0, 7, 32, 10, 9, 9,
    9,
];

/// Whether the entries of a set are the one of `STAR`.
fn has_one_star(set: &SetView<'_, V4>) -> bool {
    let mut joined = set.joined();
    joined.count_left() == 1
        && joined.next() == Some(Entry::Star([10, 9, 9, 9]))
        && joined.count_left() == 0
        && joined.next().is_none()
        && set.pruned().count_left() == 0
        && set.pruned().next().is_none()
}

/// Upstream 10.0.0.2, holdtime 210, and 239.1.1.1 with two sources joined.
const TWO_SOURCES: [u8; 38] = [
    1, 0, 10, 0, 0, 2, 0, 1, 0, 210, 1, 0, 0, 32, 239, 1, 1, 1, 0, 2, 0, 0, 1, 0, 4, 32, 192, 0, 2,
    1, 1, 0, 4, 32, 192, 0, 2, 2,
];

/// Whether another walk over the entries of `TWO_SOURCES` passes over the first one alone.
fn passes_over_one(joined: &Entries<'_, V4>) -> bool {
    let mut left = joined.again();
    if left.count_left() != 2 {
        return false;
    }
    left.pass(1);
    left.next() == Some(Entry::Source([192, 0, 2, 2]))
        && left.next().is_none()
        && joined.count_left() == 2
}

/// Whether the only set of a message is that of `STAR`.
fn has_one_set(message: &JpView<'_, V4>) -> bool {
    let mut sets = message.sets();
    let is_first = sets.count_left() == 1
        && match sets.next() {
            Some(set) => has_one_star(&set),
            None => false,
        };
    is_first && sets.count_left() == 0 && sets.next().is_none()
}

/// Whether a value shows this in print.
fn shows<T: Debug>(alloc: Global, value: &T, want: &str) -> bool {
    match format!(in alloc; "{value:?}") {
        Ok(text) => text.as_str() == want,
        Err(_) => false,
    }
}

/// Whether a set and its joined entries are shown so.
fn set_shows(alloc: Global, set: &SetView<'_, V4>) -> bool {
    let shown = "SetView { group: [239, 1, 1, 1], joined_count: 1, pruned_count: 0 }";
    shows(alloc, set, shown) && shows(alloc, &set.joined(), "Entries { count_left: 1 }")
}

/// Whether a message, its sets and the first of them are shown so.
fn message_shows(alloc: Global, message: &JpView<'_, V4>) -> bool {
    let shown = "JpView { upstream: [10, 0, 0, 2], holdtime: 210, set_count: 1 }";
    match message.sets().next() {
        Some(set) => {
            shows(alloc, message, shown)
                && shows(alloc, &message.sets(), "Sets { count_left: 1 }")
                && set_shows(alloc, &set)
        }
        None => false,
    }
}

#[test]
fn views_count_what_is_left(rt: HostRuntime) {
    match JpView::<V4>::read(&STAR) {
        Ok(message) => {
            assert!(rt; has_one_set(&message));
            assert!(rt; message_shows(rt.alloc(), &message));
        }
        Err(_) => assert!(rt; false),
    }
}

#[test]
fn entries_are_passed_over(rt: HostRuntime) {
    let found = match JpView::<V4>::read(&TWO_SOURCES) {
        Ok(message) => message.sets().next(),
        Err(_) => None,
    };
    match found {
        Some(set) => assert!(rt; passes_over_one(&set.joined())),
        None => assert!(rt; false),
    }
}

#[test]
fn writes_a_set_part_by_part(rt: HostRuntime) {
    let mut body = [0xff; 30];
    let (head, set) = body.split_at_mut(head_length::<V4>());
    put_head::<V4>([10, 0, 0, 2], 1, 210, head);
    let (front, entry) = set.split_at_mut(12);
    put_group_and_counts::<V4>([239, 1, 1, 1], 1, 0, front);
    put_entry::<V4>(Entry::Star([10, 9, 9, 9]), entry);
    assert_eq!(rt; body, STAR);
}
