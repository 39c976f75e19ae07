//! Merges of two small captures, of which the first ends early or fails.

use super::{CAPTURE, NEVER};
use pim_addr::ScriptedFeed;
use pim_capture::CaptureFault;
use pim_container::Choice;
use pim_merge::{Merge, MergeFault, RecordPlace, Tally, Turn};
use std::alloc::Global;

/// All packets.
pub(super) const EACH: Choice = Choice {
    vlan: None,
    interface: None,
    mixes_links: false,
};

/// The capture and the moment of a turn, or why there is none.
type Told = Result<Option<(usize, u64)>, MergeFault>;

fn place(reported: Result<Option<Turn>, MergeFault>) -> Told {
    match reported {
        Ok(Some(turn)) => Ok(Some((turn.capture, turn.moment))),
        Ok(None) => Ok(None),
        Err(fault) => Err(fault),
    }
}

/// The number of the record at which the first capture fails after this number of turns.
fn record_after(turns: usize) -> u64 {
    match turns {
        0 => 1,
        1 => 2,
        _ => 3,
    }
}

/// The end of a merge whose first capture has this fault at this record, or none.
fn end_of(record: u64, fault: Option<CaptureFault>) -> Told {
    match fault {
        Some(fault) => Err(MergeFault {
            capture: 0,
            file: 0,
            record,
            fault,
        }),
        None => Ok(None),
    }
}

/// Whether the next turns are of these captures at these moments, and then it ends so, for good.
fn goes(
    merge: &mut Merge<ScriptedFeed<'_>>,
    turns: &[(usize, u64)],
    fault: Option<CaptureFault>,
) -> bool {
    for turn in turns {
        if place(merge.next()) != Ok(Some(*turn)) {
            return false;
        }
    }
    let later = fault.map(|_| CaptureFault::Failed);
    let record = record_after(turns.len());
    place(merge.next()) == end_of(record, fault) && place(merge.next()) == end_of(record, later)
}

/// Whether the merge of this first capture and of a whole one goes so.
fn merges(
    alloc: Global,
    first: ScriptedFeed<'_>,
    turns: &[(usize, u64)],
    fault: Option<CaptureFault>,
) -> bool {
    let mut merge = Merge::new(alloc);
    let second = ScriptedFeed::new(&CAPTURE, 64, NEVER);
    let are_added = merge.add(alloc, first).is_ok() && merge.add(alloc, second).is_ok();
    are_added && goes(&mut merge, turns, fault)
}

/// The turns before a first capture ends or fails at this byte inside a record.
fn turns_before(length: usize) -> &'static [(usize, u64)] {
    match length {
        0..70 => &[],
        70..140 => &[(0, 0)],
        _ => &[(0, 0), (1, 0), (0, 5)],
    }
}

/// All turns where the first capture is cut to this length, and whether it is cut inside a record.
fn turns_of(length: usize) -> (&'static [(usize, u64)], bool) {
    match length {
        24 => (&[(1, 0), (1, 5)], false),
        70 => (&[(0, 0), (1, 0), (1, 5)], false),
        140 => (&[(0, 0), (1, 0), (0, 5), (1, 5)], false),
        _ => (turns_before(length), true),
    }
}

/// Whether the merge goes as it should where the first capture is cut to this length.
fn is_cut(alloc: Global, length: usize) -> bool {
    let (front, _) = CAPTURE.split_at(length.min(140));
    let (turns, is_inside) = turns_of(length);
    let fault = is_inside.then_some(CaptureFault::Truncated);
    merges(alloc, ScriptedFeed::new(front, 7, NEVER), turns, fault)
}

/// Whether it does where reads of the first capture fail from this byte on.
fn is_unread(alloc: Global, length: usize) -> bool {
    let first = ScriptedFeed::new(&CAPTURE, 7, length);
    merges(alloc, first, turns_before(length), Some(CaptureFault::Read))
}

/// The first length at which the merge goes otherwise.
fn wrong_length(alloc: Global) -> Option<usize> {
    for length in 0..=140 {
        if !is_cut(alloc, length) || !is_unread(alloc, length) {
            return Some(length);
        }
    }
    None
}

#[test]
fn cut_anywhere_or_unread(rt: HostRuntime) {
    assert_eq!(rt; wrong_length(rt.alloc()), None);
}

/// What a merge of one whole capture counts, if it takes both records.
fn tally_of(alloc: Global) -> Option<Tally> {
    let mut merge = Merge::new(alloc);
    let Ok(()) = merge.add(alloc, ScriptedFeed::new(&CAPTURE, 64, NEVER)) else {
        return None;
    };
    if !goes(&mut merge, &[(0, 0), (0, 5)], None) || merge.count() == 0 {
        return None;
    }
    Some(merge.tally(0))
}

#[test]
fn tally_of_two_records(rt: HostRuntime) {
    let tally = Tally {
        file: 0,
        records: 2,
        fragments: 0,
        incomplete: None,
        cut_frames: 0,
        cut_short: [None; 16],
        more_cut_short: 0,
        unchosen: None,
        last: Some(100_005),
        ran_back: None,
        jumped: None,
        census: None,
    };
    assert_eq!(rt; tally_of(rt.alloc()), Some(tally));
}

/// What a merge of a capture of two files counts, of which the first ends inside its second record.
fn tally_of_files(alloc: Global) -> Option<Tally> {
    let (front, _) = CAPTURE.split_at(120);
    let first = ScriptedFeed::new(front, 7, NEVER);
    let second = ScriptedFeed::new(&CAPTURE, 64, NEVER);
    let Ok(files) = Vec::from_array(alloc, [first, second]) else {
        return None;
    };
    let mut merge = Merge::new(alloc);
    let Ok(()) = merge.add_files(alloc, files, EACH) else {
        return None;
    };
    let turns = [(0, 0), (0, 0), (0, 0), (0, 0), (0, 5)];
    if !goes(&mut merge, &turns, None) || merge.count() == 0 {
        return None;
    }
    Some(merge.tally(0))
}

#[test]
fn tally_of_two_files(rt: HostRuntime) {
    let mut cut_short = [None; 16];
    cut_short[0] = Some(RecordPlace { file: 0, record: 2 });
    let tally = Tally {
        file: 1,
        records: 2,
        fragments: 0,
        incomplete: None,
        cut_frames: 0,
        cut_short,
        more_cut_short: 0,
        unchosen: None,
        last: Some(100_005),
        ran_back: None,
        jumped: None,
        census: None,
    };
    assert_eq!(rt; tally_of_files(rt.alloc()), Some(tally));
}
