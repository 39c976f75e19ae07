//! Devices that fail at each byte.

ghost use Rattle.pim_words.specs.Plan.{IsPlanInRange};

use super::running::{
    AUDIT, AUDIT_JSON, CAPTURE, CAPTURE_V6, CHANGE, EMIT, MIRROR, NEVER, REPLAY, Row, SAME, TRACE,
    TRACE_JSON, all_files, answer, file_of, run,
};
use pim_addr::ScriptedDrain;
use pim_capture::CaptureFault;
use pim_commands::Fault;
use pim_files::HeldFile;
use pim_words::{CommandPlan, plan};
use std::alloc::Global;

/// Whether a device that fails from this byte on took the text up to it, and failed once.
fn leaves_front(alloc: Global, row: &Row, plan: &CommandPlan<'_>, fails_from: usize) -> bool
    requires { IsPlanInRange plan.now }
{
    let files = all_files();
    let mut output = ScriptedDrain::new(alloc, 3, fails_from);
    let end = run(alloc, plan, &files, &mut output);
    matches!(end, Err(Fault::Output))
        && output.failures() == 1
        && Some(output.written()) == row.text.get(..fails_from)
}

/// Whether a device that fails only after the text took all of it.
fn is_taken(alloc: Global, row: &Row, plan: &CommandPlan<'_>) -> bool
    requires { IsPlanInRange plan.now }
{
    let files = all_files();
    let mut output = ScriptedDrain::new(alloc, 3, row.text.len());
    let end = run(alloc, plan, &files, &mut output);
    matches!(end, Ok(status) if status == row.status)
        && output.failures() == 0
        && output.written() == row.text
}

/// Whether devices that fail at each byte of the text took a front of it.
fn leave_fronts(alloc: Global, row: &Row, plan: &CommandPlan<'_>) -> bool
    requires { IsPlanInRange plan.now }
{
    for fails_from in 0..row.text.len() {
        if !leaves_front(alloc, row, plan, fails_from) {
            return false;
        }
    }
    is_taken(alloc, row, plan)
}

/// The same for the words of a row.
fn is_written(alloc: Global, row: &Row) -> bool {
    match plan(alloc, row.words) {
        Ok(plan) => leave_fronts(alloc, row, &plan),
        Err(_) => false,
    }
}

#[test]
fn writes_that_fail_leave_a_front(rt: HostRuntime) {
    for row in [
        REPLAY, TRACE, TRACE_JSON, AUDIT, AUDIT_JSON, SAME, MIRROR, EMIT, CHANGE,
    ] {
        assert!(rt; is_written(rt.alloc(), &row));
    }
}

/// What a replay of spoilt captures writes.
#[derive(Clone, Copy)]
struct Spoilt {
    words: &'static [&'static str],
    bytes: &'static [u8],
    name: &'static str,
    /// The number of bytes up to the end of the first record.
    first: usize,
    /// The lines of the first packet, and of both.
    lines: [&'static str; 2],
    /// The reports where the capture ends after no record, after one and after both.
    reports: [&'static str; 3],
}

const SPOILT: Spoilt = Spoilt {
    words: &["pimtree", "replay", "--rp", "10.9.9.9", "10.0.0.2@spoilt"],
    bytes: &CAPTURE,
    name: "spoilt",
    first: 70,
    lines: [
        "0 port 0 from 10.0.0.9 hello new\n",
        "0 port 0 from 10.0.0.9 hello new\n5 port 0 from 10.0.0.9 applied\n",
    ],
    reports: [
        "state at 0\nskipped 0 refreshes 0\n",
        "0 port 0 from 10.0.0.9 hello new\nstate at 0\nskipped 0 refreshes 0\n",
        "0 port 0 from 10.0.0.9 hello new
5 port 0 from 10.0.0.9 applied
state at 5
port 0 star 239.1.1.1 join et 210000 ppt -
want star 239.1.1.1
skipped 0 refreshes 0
",
    ],
};

const SPOILT_V6: Spoilt = Spoilt {
    words: &["pimtree", "replay", "--rp", "2001:db8::9", "fe80::2@spoilt"],
    bytes: &CAPTURE_V6,
    name: "spoilt",
    first: 98,
    lines: [
        "0 port 0 from fe80:0000:0000:0000:0000:0000:0000:0001 hello new\n",
        "0 port 0 from fe80:0000:0000:0000:0000:0000:0000:0001 hello new
5 port 0 from fe80:0000:0000:0000:0000:0000:0000:0001 applied
",
    ],
    reports: [
        "state at 0\nskipped 0 refreshes 0\n",
        "0 port 0 from fe80:0000:0000:0000:0000:0000:0000:0001 hello new
state at 0
skipped 0 refreshes 0
",
        "0 port 0 from fe80:0000:0000:0000:0000:0000:0000:0001 hello new
5 port 0 from fe80:0000:0000:0000:0000:0000:0000:0001 applied
state at 5
port 0 star ff0e:0000:0000:0000:0000:0000:0000:0001 join et 210000 ppt -
want star ff0e:0000:0000:0000:0000:0000:0000:0001
skipped 0 refreshes 0
",
    ],
};

/// What is written of the capture where it is cut to this length, and whether it is whole records.
fn of_cut(spoilt: &Spoilt, length: usize) -> (&'static str, bool) {
    let whole = spoilt.bytes.len();
    if length == 24 {
        (spoilt.reports[0], true)
    } else if length == spoilt.first {
        (spoilt.reports[1], true)
    } else if length == whole {
        (spoilt.reports[2], true)
    } else if length < spoilt.first {
        ("", false)
    } else {
        (spoilt.lines[0], false)
    }
}

/// What is written of the capture where its reads fail from this byte on.
fn of_failure(spoilt: &Spoilt, fails_from: usize) -> &'static str {
    if fails_from < spoilt.first {
        ""
    } else if fails_from < spoilt.bytes.len() {
        spoilt.lines[0]
    } else {
        spoilt.lines[1]
    }
}

/// Whether the replay of this file writes this, and ends with this fault, if any.
fn ends(
    alloc: Global,
    spoilt: &Spoilt,
    file: HeldFile<'_>,
    text: &str,
    cause: Option<CaptureFault>,
) -> bool {
    let files = [file];
    let mut output = ScriptedDrain::new(alloc, 7, NEVER);
    let end = match answer(alloc, spoilt.words, &files, &mut output) {
        Ok(status) => status == 0 && cause.is_none(),
        Err(Fault::Capture(reported)) => Some(reported) == cause,
        Err(_) => false,
    };
    end && output.written() == text.as_bytes()
}

/// Whether the capture, cut to this length, is replayed as it should be.
fn is_cut(alloc: Global, spoilt: &Spoilt, length: usize) -> bool {
    let (front, _) = spoilt.bytes.split_at(length.min(spoilt.bytes.len()));
    let (text, is_whole) = of_cut(spoilt, length);
    let cause = if is_whole {
        None
    } else {
        Some(CaptureFault::Truncated)
    };
    ends(alloc, spoilt, file_of(spoilt.name, front), text, cause)
}

/// Whether the capture, with reads that fail from this byte on, is replayed as it should be.
fn is_unread(alloc: Global, spoilt: &Spoilt, fails_from: usize) -> bool {
    let file = HeldFile {
        fails_from,
        ..file_of(spoilt.name, spoilt.bytes)
    };
    let text = of_failure(spoilt, fails_from);
    ends(alloc, spoilt, file, text, Some(CaptureFault::Read))
}

#[test]
fn captures_are_cut_anywhere(rt: HostRuntime) {
    for spoilt in [SPOILT, SPOILT_V6] {
        let mut lengths = 0..=spoilt.bytes.len();
        let wrong = lengths.position(|length| !is_cut(rt.alloc(), &spoilt, length));
        assert_eq!(rt; wrong, None);
    }
}

#[test]
fn captures_fail_anywhere(rt: HostRuntime) {
    for spoilt in [SPOILT, SPOILT_V6] {
        let mut places = 0..=spoilt.bytes.len();
        let wrong = places.position(|from| !is_unread(rt.alloc(), &spoilt, from));
        assert_eq!(rt; wrong, None);
    }
}
