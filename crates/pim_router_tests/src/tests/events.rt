//! Each kind of event as a JSON line, which the kit's `serde_json` reads as the object that
//! `docs/TRACE.md` asks for. The lines of what a router holds and wants are here as text, too. The
//! other texts of lines are in `trace-lines.case` of `pimtree_cases`.

use pim_addr::{ScriptedDrain, V4};
use pim_capture::{RecordPlace, Why};
use pim_down::{Machine, Pending, State, Timer, What};
use pim_event_lines::{FileName, FileNames, JsonPrinter, TextPrinter};
use pim_events::{
    Cause, EndOfTrace, EventWriter, Filter, Fired, Greeting, Happening, HeldMachine, Ignored,
    Judgment, OwnRestart, Skip, SkipCounts, Skipping, TimeOut, TraceEvent, TransitionEvent,
    WantedEntry, WantedWhat,
};
use pim_hello::Heard;
use pim_jp::JpView;
use pim_lines::Name;
use pim_router::Verdict;
use pim_time::TimeForm;
use pim_transitions::By;
use serde_json::Value;
use std::alloc::{AllocError, Global};

const ANNE: [u8; 4] = [10, 0, 0, 9];

/// Whether two texts are the same JSON value.
fn are_equal(alloc: Global, this: &str, other: &str) -> bool {
    let Ok(value) = Value::from_str(alloc, this) else {
        return false;
    };
    match Value::from_str(alloc, other) {
        Ok(wanted) => value.is_object() && value == wanted,
        Err(_) => false,
    }
}

/// Whether the JSON line of an event is read as this object, where these are the names of the files
/// of ports.
fn is_written(
    alloc: Global,
    files: &[FileNames],
    event: &TraceEvent<'_, V4>,
    object: &str,
) -> bool {
    let names = [Name::number(0), Name::number(1)];
    let filter = Filter {
        all: true,
        groups: &[],
        sources: &[],
        from: None,
    };
    let printer = JsonPrinter {
        names: &names,
        files,
        filter,
    };
    let mut device = ScriptedDrain::new(alloc, 5, usize::MAX);
    let Ok(()) = printer.write_event(&mut device, event) else {
        return false;
    };
    match str::from_utf8(device.written()) {
        Ok(line) => are_equal(alloc, line, object),
        Err(_) => false,
    }
}

/// Whether what happens on port 1 at 1500 ms is written so.
fn is_on_port(alloc: Global, what: Happening<'_, V4>, object: &str) -> bool {
    let event = TraceEvent {
        ms: 1500,
        epoch: Some(1_000_001_500),
        port: Some(1),
        what,
    };
    is_written(alloc, &[], &event, object)
}

const TRANSITION: &str =
    r#"{ "ms": 1500, "epoch": "1000001.500", "port": "1", "event": "transition", "frame": 51,
    "from": "10.0.0.9", "by": "join", "what": "star", "group": "239.50.0.1", "source": null,
    "was": "prune-pending", "now": "join", "et": 70000, "ppt": null, "neighbours": 4,
    "overrides": 50 }"#;

/// Whether a transition is written so.
fn writes_transition(alloc: Global) -> bool {
    let what = Happening::Transition(TransitionEvent {
        frame: RecordPlace {
            file: 0,
            record: 51,
        },
        from: ANNE,
        by: By::Join,
        group: [239, 50, 0, 1],
        what: What::Star,
        before: Some(State::PrunePending),
        after: Some(Machine {
            state: State::Join,
            expires_in: Some(70000),
            pending: None,
        }),
        neighbours: 4,
        overrides: Some(RecordPlace {
            file: 0,
            record: 50,
        }),
    });
    is_on_port(alloc, what, TRANSITION)
}

const IN_FILES: &str =
    r#"{ "ms": 1500, "epoch": "1000001.500", "port": "1", "event": "transition", "frame": 1, "file":
    "b\"\u0001\\.pcap", "from": "10.0.0.9", "by": "join", "what": "star", "group": "239.50.0.1",
    "source": null, "was": "prune-pending", "now": "join", "et": 70000, "ppt": null,
    "neighbours": 4, "overrides": 50, "overrides_file": "a.pcap" }"#;

/// The names of two files as they stand in JSON strings.
fn two_files(alloc: Global) -> Result<FileNames, AllocError> {
    let mut names = FileNames::new(alloc);
    names.push(FileName::escaped(alloc, "a.pcap")?)?;
    names.push(FileName::escaped(alloc, "b\"\u{1}\\.pcap")?)?;
    Ok(names)
}

/// Whether a transition by a record of the second file of its port, which overrides one of the
/// first, is written so.
fn writes_files(alloc: Global) -> bool {
    let Ok(names) = two_files(alloc) else {
        return false;
    };
    let files = [FileNames::new(alloc), names];
    let event = TraceEvent {
        ms: 1500,
        epoch: Some(1_000_001_500),
        port: Some(1),
        what: Happening::Transition(TransitionEvent {
            frame: RecordPlace { file: 1, record: 1 },
            from: ANNE,
            by: By::Join,
            group: [239, 50, 0, 1],
            what: What::Star,
            before: Some(State::PrunePending),
            after: Some(Machine {
                state: State::Join,
                expires_in: Some(70000),
                pending: None,
            }),
            neighbours: 4,
            overrides: Some(RecordPlace {
                file: 0,
                record: 50,
            }),
        }),
    };
    is_written(alloc, &files, &event, IN_FILES)
}

const FIRED: &str =
    r#"{ "ms": 1500, "epoch": "1000001.500", "port": "1", "event": "fired", "timer": "ppt", "what":
    "rpt", "group": "239.1.1.1", "source": "192.0.2.1", "was": "prune-pending", "now": "prune",
    "echo": false, "cause": {"frame":2,"from":"10.0.0.9","ms":0} }"#;

/// Whether a timer that fires is written so.
fn writes_firing(alloc: Global) -> bool {
    let what = Happening::Fired(Fired {
        timer: Timer::PrunePending,
        group: [239, 1, 1, 1],
        what: What::Rpt([192, 0, 2, 1]),
        before: State::PrunePending,
        after: Some(State::Prune),
        echo: false,
        cause: Cause {
            frame: RecordPlace { file: 0, record: 2 },
            from: ANNE,
            ms: 0,
        },
    });
    is_on_port(alloc, what, FIRED)
}

const HELLO: &str =
    r#"{ "ms": 1500, "epoch": "1000001.500", "port": "1", "event": "hello", "frame": 3, "from":
    "10.0.0.9", "verdict": "restarted", "was": 7, "generation": 8 }"#;

/// Whether a Hello is written so.
fn writes_hello(alloc: Global) -> bool {
    let what = Happening::Hello(Greeting {
        frame: RecordPlace { file: 0, record: 3 },
        from: ANNE,
        verdict: Heard::Restarted,
        was: Some(7),
        generation: Some(8),
    });
    is_on_port(alloc, what, HELLO)
}

/// A Join/Prune to 10.0.0.2 with two sets: two joined and one pruned entry, then one joined entry.
const BODY: [u8; 66] = [
    1, 0, 10, 0, 0, 2, 0, 2, 0, 210, // To whom, the number of sets, the holdtime.
    1, 0, 0, 32, 239, 1, 1, 1, 0, 2, 0, 1, // A set.
    1, 0, 7, 32, 10, 9, 9, 9, // Joined: a star.
    1, 0, 4, 32, 192, 0, 2, 1, // Joined: a source.
    1, 0, 5, 32, 192, 0, 2, 2, // Pruned: a source of the star.
    1, 0, 0, 32, 239, 2, 2, 2, 0, 1, 0, 0, // A set.
    1, 0, 4, 32, 192, 0, 2, 3, // Joined: a source.
];

const MESSAGE: &str =
    r#"{ "ms": 1500, "epoch": "1000001.500", "port": "1", "event": "packet", "frame": 12, "from":
    "10.0.0.9", "verdict": "not-for-us", "for": "10.0.0.2", "joined": 3, "pruned": 1 }"#;

/// Whether a Join/Prune is written so.
fn writes_message(alloc: Global) -> bool {
    let Ok(message) = JpView::<V4>::read(&BODY) else {
        return false;
    };
    let what = Happening::Packet(Judgment {
        frame: RecordPlace {
            file: 0,
            record: 12,
        },
        from: ANNE,
        verdict: Verdict::NotForUs,
        message: Some(message),
    });
    is_on_port(alloc, what, MESSAGE)
}

const IGNORED: &str =
    r#"{ "ms": 1500, "epoch": "1000001.500", "port": "1", "event": "ignored", "frame": 13, "from":
    "10.0.0.9", "group": "239.1.1.1", "names": "10.9.9.8", "rp": "10.9.9.9" }"#;

/// Whether a Join(*,G) that is ignored is written so.
fn writes_ignored(alloc: Global) -> bool {
    let what = Happening::Ignored(Ignored {
        frame: RecordPlace {
            file: 0,
            record: 13,
        },
        from: ANNE,
        group: [239, 1, 1, 1],
        names: [10, 9, 9, 8],
        rp: Some([10, 9, 9, 9]),
    });
    is_on_port(alloc, what, IGNORED)
}

const RESTART: &str =
    r#"{ "ms": 1500, "epoch": "1000001.500", "port": "1", "event": "restarted", "frame": 14, "was":
    null, "generation": 9 }"#;

const SKIP: &str =
    r#"{ "ms": 1500, "epoch": "1000001.500", "port": "1", "event": "skipped", "frame": 8, "why":
    "fragment" }"#;

const TIME_OUT: &str = r#"{ "ms": 1500, "epoch": "1000001.500", "port": "1", "event": "timed-out",
    "neighbour": "10.0.0.9", "cause": { "frame": 6, "ms": 400 } }"#;

/// Whether a restart of the port's own router, a record that is skipped and a neighbour whose time
/// is over are written so.
fn writes_others(alloc: Global) -> bool {
    let restart = Happening::Restarted(OwnRestart {
        frame: RecordPlace {
            file: 0,
            record: 14,
        },
        was: None,
        generation: Some(9),
    });
    let skipped = Happening::Skipped(Skipping {
        frame: RecordPlace { file: 0, record: 8 },
        why: Skip::NoPacket(Why::Fragment),
    });
    let over = Happening::TimedOut(TimeOut {
        neighbour: ANNE,
        frame: RecordPlace { file: 0, record: 6 },
        ms: 400,
    });
    is_on_port(alloc, restart, RESTART)
        && is_on_port(alloc, skipped, SKIP)
        && is_on_port(alloc, over, TIME_OUT)
}

const ENDING: &str =
    r#"{ "ms": 90000, "epoch": null, "port": null, "event": "end", "records": 7, "neighbours": 4,
    "skipped": {"cut":1,"not-ip":2,"bad-header":3,"not-pim":4,"fragment":5,"family":6} }"#;

/// Whether the end of a run without a record is written so.
fn writes_ending(alloc: Global) -> bool {
    let event = TraceEvent {
        ms: 90_000,
        epoch: None,
        port: None,
        what: Happening::Ended(EndOfTrace {
            records: 7,
            neighbours: 4,
            skipped: SkipCounts {
                cut: 1,
                not_ip: 2,
                bad_header: 3,
                not_pim: 4,
                fragment: 5,
                family: 6,
            },
        }),
    };
    is_written(alloc, &[], &event, ENDING)
}

/// Whether the line of an event is this text.
fn is_text(alloc: Global, event: &TraceEvent<'_, V4>, line: &str) -> bool {
    let names = [Name::number(0), Name::number(1)];
    let filter = Filter {
        all: false,
        groups: &[],
        sources: &[],
        from: None,
    };
    let printer = TextPrinter {
        names: &names,
        files: &[],
        form: TimeForm::Ms,
        filter,
    };
    let mut device = ScriptedDrain::new(alloc, 5, usize::MAX);
    let Ok(()) = printer.write_event(&mut device, event) else {
        return false;
    };
    device.written() == line.as_bytes()
}

/// A machine that is held, and its lines.
struct HeldRow {
    held: HeldMachine<[u8; 4]>,
    text: &'static str,
    object: &'static str,
}

const HELD: [HeldRow; 2] = [
    HeldRow {
        held: HeldMachine {
            group: [239, 1, 1, 1],
            what: What::Rpt([192, 0, 2, 1]),
            machine: Machine {
                state: State::PrunePending,
                expires_in: None,
                pending: Some(Pending {
                    ends_in: 2600,
                    several: true,
                }),
            },
            held_for: 400,
            cause: Cause {
                frame: RecordPlace {
                    file: 0,
                    record: 21,
                },
                from: ANNE,
                ms: 1100,
            },
        },
        text: "1500 1 holds rpt 192.0.2.1 239.1.1.1: prune-pending for 400 ms, et never, \
            ppt 2600; time set by 10.0.0.9 in #21, 400 ms before\n",
        object: r#"{ "ms": 1500, "epoch": "1000001.500", "port": "1", "event": "record",
            "what": "rpt", "group": "239.1.1.1", "source": "192.0.2.1", "state": "prune-pending",
            "for": 400, "et": "never", "ppt": 2600,
            "cause": { "frame": 21, "from": "10.0.0.9", "ms": 1100 } }"#,
    },
    HeldRow {
        held: HeldMachine {
            group: [239, 2, 2, 2],
            what: What::Star,
            machine: Machine {
                state: State::Join,
                expires_in: Some(209_500),
                pending: None,
            },
            held_for: 1400,
            cause: Cause {
                frame: RecordPlace {
                    file: 0,
                    record: 20,
                },
                from: ANNE,
                ms: 1000,
            },
        },
        text: "1500 1 holds star 239.2.2.2: join for 1400 ms, et 209500; \
            time set by 10.0.0.9 in #20, 500 ms before\n",
        object: r#"{ "ms": 1500, "epoch": "1000001.500", "port": "1", "event": "record",
            "what": "star", "group": "239.2.2.2", "source": null, "state": "join", "for": 1400,
            "et": 209500, "ppt": null,
            "cause": { "frame": 20, "from": "10.0.0.9", "ms": 1000 } }"#,
    },
];

/// Whether a machine that is held has these lines.
fn has_lines(alloc: Global, row: &HeldRow) -> bool {
    let event = TraceEvent {
        ms: 1500,
        epoch: Some(1_000_001_500),
        port: Some(1),
        what: Happening::Held(row.held),
    };
    is_text(alloc, &event, row.text) && is_written(alloc, &[], &event, row.object)
}

/// What a router wants, and its lines.
struct WantRow {
    entry: WantedEntry<[u8; 4]>,
    text: &'static str,
    object: &'static str,
}

const WANTS: [WantRow; 3] = [
    WantRow {
        entry: WantedEntry {
            group: [239, 1, 1, 1],
            what: WantedWhat::Star,
            via: None,
        },
        text: "1500 wants star 239.1.1.1\n",
        object: r#"{ "ms": 1500, "epoch": "1000001.500", "port": null, "event": "want",
            "what": "star", "group": "239.1.1.1", "source": null, "via": null }"#,
    },
    WantRow {
        entry: WantedEntry {
            group: [239, 1, 1, 1],
            what: WantedWhat::Except([192, 0, 2, 1]),
            via: Some([10, 0, 0, 1]),
        },
        text: "1500 wants star 239.1.1.1 via 10.0.0.1 except 192.0.2.1\n",
        object: r#"{ "ms": 1500, "epoch": "1000001.500", "port": null, "event": "want",
            "what": "except", "group": "239.1.1.1", "source": "192.0.2.1", "via": "10.0.0.1" }"#,
    },
    WantRow {
        entry: WantedEntry {
            group: [239, 3, 3, 3],
            what: WantedWhat::Source([192, 0, 2, 5]),
            via: Some([10, 0, 0, 7]),
        },
        text: "1500 wants source 192.0.2.5 239.3.3.3 via 10.0.0.7\n",
        object: r#"{ "ms": 1500, "epoch": "1000001.500", "port": null, "event": "want",
            "what": "source", "group": "239.3.3.3", "source": "192.0.2.5", "via": "10.0.0.7" }"#,
    },
];

/// Whether what a router wants has these lines.
fn has_want_lines(alloc: Global, row: &WantRow) -> bool {
    let event = TraceEvent {
        ms: 1500,
        epoch: Some(1_000_001_500),
        port: None,
        what: Happening::Wanted(row.entry),
    };
    is_text(alloc, &event, row.text) && is_written(alloc, &[], &event, row.object)
}

#[test]
fn writes_what_is_held_and_wanted(rt: HostRuntime) {
    let alloc = rt.alloc();
    for row in &HELD {
        assert!(rt; has_lines(alloc, row));
    }
    for row in &WANTS {
        assert!(rt; has_want_lines(alloc, row));
    }
}

#[test]
fn writes_objects_of_machines(rt: HostRuntime) {
    let alloc = rt.alloc();
    assert!(rt; writes_transition(alloc));
    assert!(rt; writes_firing(alloc));
    assert!(rt; writes_files(alloc));
}

#[test]
fn writes_objects_of_packets(rt: HostRuntime) {
    let alloc = rt.alloc();
    assert!(rt; writes_hello(alloc) && writes_message(alloc) && writes_ignored(alloc));
    assert!(rt; writes_others(alloc) && writes_ending(alloc));
}
