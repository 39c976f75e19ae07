//! How often a merge calls `pass_record` of a reader. No contract can say it, since that changes
//! nothing that a reader gives.

ghost use Rattle.std.specs.Prelude.{None};
ghost use Rattle.pim_device.specs.Scripted.{feed_failures};

use super::{CAPTURE, NEVER};
use pim_addr::{Failed, Feed, ScriptedFeed};
use pim_container::Choice;
use pim_merge::Merge;
use std::alloc::Global;
use std::cell::Cell;

/// A reader that counts the records that were passed on.
#[derive(Drop)]
struct Counting<'a> {
    feed: ScriptedFeed<'a>,
    passed: &'a Cell<u64>,
}

impl Feed for Counting<'_> {
    ghost remaining = { λ _. None };

    ghost failures = { λ counting. feed_failures counting.feed };

    fn read(&mut self, buffer: &mut [u8]) -> Result<usize, Failed> {
        self.feed.read(buffer)
    }

    fn pass_record(&mut self) {
        self.passed.set(self.passed.get().saturating_add(1));
    }
}

/// Stands for the number after a call that failed.
const FAILED: u64 = u64::MAX;

/// Takes all packets.
const ALL: Choice = Choice {
    vlan: None,
    interface: None,
    mixes_links: false,
};

/// The numbers of records that were passed on after each of three calls for a turn of a capture
/// with two records, which is read as a classic one or as any container.
fn passed_after(alloc: Global, is_any: bool) -> [u64; 3] {
    let passed = Cell::new(0);
    let reader = Counting {
        feed: ScriptedFeed::new(&CAPTURE, 64, NEVER),
        passed: &passed,
    };
    let mut merge = Merge::new(alloc);
    let added = if is_any {
        merge.add_any(alloc, reader, ALL)
    } else {
        merge.add(alloc, reader)
    };
    let mut counts = [FAILED; 3];
    for count in &mut counts {
        if added.is_ok() && merge.next().is_ok() {
            *count = passed.get();
        }
    }
    counts
}

#[test]
fn each_turn_passes_one_record_on(rt: HostRuntime) {
    assert_eq!(rt; passed_after(rt.alloc(), false), [1, 2, 2]);
    assert_eq!(rt; passed_after(rt.alloc(), true), [1, 2, 2]);
}
