//! Words of the program over files in memory.

ghost use Rattle.pim_words.specs.Plan.{IsPlanInRange};

use pim_addr::{ScriptedDrain, ScriptedFeed, V4, V6};
use pim_commands::{Fault, run_task};
use pim_files::{HeldFile, HeldFiles};
use pim_words::{CommandPlan, plan};
use std::alloc::Global;

/// Never in reach of a test.
pub const NEVER: usize = usize::MAX;

/// Does what a plan asks for, without standard input.
pub fn run<'a>(
    alloc: Global,
    plan: &CommandPlan<'a>,
    files: &[HeldFile<'_>],
    output: &mut ScriptedDrain,
) -> Result<u8, Fault<'a>>
    requires { IsPlanInRange plan.now }
{
    let mut files = HeldFiles::new(alloc, files, 7);
    let mut input = ScriptedFeed::new(b"", 1, NEVER);
    let mut errors = ScriptedDrain::new(alloc, 1, 0);
    match plan {
        CommandPlan::V4(task) => {
            run_task::<V4, _, _, _, _>(alloc, &mut files, task, &mut input, output, &mut errors)
        }
        CommandPlan::V6(task) => {
            run_task::<V6, _, _, _, _>(alloc, &mut files, task, &mut input, output, &mut errors)
        }
        CommandPlan::Session => Ok(0),
    }
}

/// Does what the words ask for, without standard input.
pub fn answer<'a>(
    alloc: Global,
    words: &'a [&'a str],
    files: &[HeldFile<'_>],
    output: &mut ScriptedDrain,
) -> Result<u8, Fault<'a>> {
    let plan = plan(alloc, words)?;
    run(alloc, &plan, files, output)
}

/// A capture of raw IP packets: a Hello from 10.0.0.9 at 100 s, and 5 ms later its Join(*,G) of
/// 239.1.1.1, to 10.0.0.2 and with the RP 10.9.9.9.
pub const CAPTURE: [u8; 140] = [
    0xd4, 0xc3, 0xb2, 0xa1, 2, 0, 4, 0, 0, 0, 0, 0, 0, 0, 0, 0, 0, 0, 4, 0, 0x65, 0, 0, 0, 0x64, 0,
    0, 0, 0, 0, 0, 0, 0x1e, 0, 0, 0, 0x1e, 0, 0, 0, 0x45, 0, 0, 0x1e, 0, 0, 0, 0, 1, 0x67, 0, 0,
    0x0a, 0, 0, 9, 0xe0, 0, 0, 0x0d, 0x20, 0, 0, 0, 0, 1, 0, 2, 0xdf, 0xfc, 0x64, 0, 0, 0, 0x88,
    0x13, 0, 0, 0x36, 0, 0, 0, 0x36, 0, 0, 0, 0x45, 0, 0, 0x36, 0, 0, 0, 0, 1, 0x67, 0, 0, 0x0a, 0,
    0, 9, 0xe0, 0, 0, 0x0d, 0x23, 0, 0xc4, 0xd4, 1, 0, 0x0a, 0, 0, 2, 0, 1, 0, 0xd2, 1, 0, 0, 0x20,
    0xef, 1, 1, 1, 0, 1, 0, 0, 1, 0, 7, 0x20, 0x0a, 9, 9, 9,
];

/// The same over IPv6: a Hello from fe80::1 and its Join(*,G) of ff0e::1, to fe80::2 and with the
/// RP 2001:db8::9.
pub const CAPTURE_V6: [u8; 224] = [
    0xd4, 0xc3, 0xb2, 0xa1, 2, 0, 4, 0, 0, 0, 0, 0, 0, 0, 0, 0, 0, 0, 4, 0, 0x65, 0, 0, 0, 0x64, 0,
    0, 0, 0, 0, 0, 0, 0x3a, 0, 0, 0, 0x3a, 0, 0, 0, 0x60, 0, 0, 0, 0, 0x12, 0x67, 1, 0xfe, 0x80, 0,
    0, 0, 0, 0, 0, 0, 0, 0, 0, 0, 0, 0, 1, 0xff, 2, 0, 0, 0, 0, 0, 0, 0, 0, 0, 0, 0, 0, 0, 0x0d,
    0x20, 0, 0xdd, 0x6a, 0, 1, 0, 2, 0, 0x69, 0, 0x14, 0, 4, 1, 2, 3, 4, 0x64, 0, 0, 0, 0x88, 0x13,
    0, 0, 0x6e, 0, 0, 0, 0x6e, 0, 0, 0, 0x60, 0, 0, 0, 0, 0x46, 0x67, 1, 0xfe, 0x80, 0, 0, 0, 0, 0,
    0, 0, 0, 0, 0, 0, 0, 0, 1, 0xff, 2, 0, 0, 0, 0, 0, 0, 0, 0, 0, 0, 0, 0, 0, 0x0d, 0x23, 0, 0xa4,
    0x97, 2, 0, 0xfe, 0x80, 0, 0, 0, 0, 0, 0, 0, 0, 0, 0, 0, 0, 0, 2, 0, 1, 0, 0xd2, 2, 0, 0, 0x80,
    0xff, 0x0e, 0, 0, 0, 0, 0, 0, 0, 0, 0, 0, 0, 0, 0, 1, 0, 1, 0, 0, 2, 0, 7, 0x80, 0x20, 1, 0x0d,
    0xb8, 0, 0, 0, 0, 0, 0, 0, 0, 0, 0, 0, 9,
];

/// The header of a capture.
pub const HEADER: [u8; 24] = [
    0xd4, 0xc3, 0xb2, 0xa1, 2, 0, 4, 0, 0, 0, 0, 0, 0, 0, 0, 0, 0, 0, 4, 0, 0x65, 0, 0, 0,
];

/// A file that never fails.
pub fn file_of<'a>(name: &'a str, bytes: &'a [u8]) -> HeldFile<'a> {
    HeldFile {
        name,
        bytes,
        fails_from: NEVER,
    }
}

/// The captures, one without records, and a route to the RP.
pub fn all_files() -> [HeldFile<'static>; 4] {
    [
        file_of("joined", &CAPTURE),
        file_of("empty", &HEADER),
        file_of("routes", b"via 10.9.0.0/16 10.0.0.6\n"),
        file_of("local", b"star 239.1.1.2\n"),
    ]
}

/// A command, and what it writes over these files.
#[derive(Clone, Copy)]
pub struct Row {
    /// The words, the program's name first.
    pub words: &'static [&'static str],
    /// The output.
    pub text: &'static [u8],
    /// The status.
    pub status: u8,
}

/// The state of the capture, with the upstream neighbour of each want.
pub const REPLAY: Row = Row {
    words: &[
        "pimtree",
        "replay",
        "--rp",
        "10.9.9.9",
        "--routes",
        "routes",
        "10.0.0.2@joined",
    ],
    text: b"0 port 0 from 10.0.0.9 hello new
5 port 0 from 10.0.0.9 applied
state at 5
port 0 star 239.1.1.1 join et 210000 ppt -
want star 239.1.1.1 via 10.0.0.6
skipped 0 refreshes 0
",
    status: 0,
};

/// All events of the capture, as text.
pub const TRACE: Row = Row {
    words: &[
        "pimtree",
        "trace",
        "--rp",
        "10.9.9.9",
        "--time",
        "epoch",
        "--all",
        "link=10.0.0.2@joined",
    ],
    text: b"100.000 link #1 10.0.0.9: hello new, generation -
100.005 link #2 10.0.0.9: applied, for 10.0.0.2, joined 1 pruned 0
100.005 link #2 10.0.0.9 joins star 239.1.1.1: no-info -> join, et 210000
100.005 end: records 1 neighbours 1 skipped cut 0 not-ip 0 bad-header 0 not-pim 0 fragment 0 family 0
",
    status: 0,
};

/// The events of one group, as JSON.
pub const TRACE_JSON: Row = Row {
    words: &[
        "pimtree",
        "trace",
        "--rp",
        "10.9.9.9",
        "--group",
        "239.1.1.1",
        "--source",
        "192.0.2.1",
        "--json",
        "10.0.0.2@joined",
    ],
    text: br#"{"ms":0,"epoch":"100.000","port":"0","event":"hello","frame":1,"from":"10.0.0.9","verdict":"new","was":null,"generation":null}
{"ms":5,"epoch":"100.005","port":"0","event":"transition","frame":2,"from":"10.0.0.9","by":"join","what":"star","group":"239.1.1.1","source":null,"was":"no-info","now":"join","et":210000,"ppt":null,"neighbours":1,"overrides":null}
{"ms":5,"epoch":"100.005","port":null,"event":"end","records":1,"neighbours":1,"skipped":{"cut":0,"not-ip":0,"bad-header":0,"not-pim":0,"fragment":0,"family":0}}
"#,
    status: 0,
};

/// The audit of a router that never asks its upstream neighbour for a star, as text.
pub const AUDIT: Row = Row {
    words: &[
        "pimtree",
        "audit",
        "--upstream=10.0.0.9",
        "--rp=10.9.9.9",
        "--grace=0",
        "--after=10",
        "--time=epoch",
        "link=10.0.0.2@joined",
    ],
    text: b"100.015 late: join star 239.1.1.1, due since 100.005
100.015 end: due 1 late 1 worst 10 open 1
",
    status: 1,
};

/// The same as JSON.
pub const AUDIT_JSON: Row = Row {
    words: &[
        "pimtree",
        "audit",
        "--upstream=10.0.0.9",
        "--rp=10.9.9.9",
        "--grace=0",
        "--after=10",
        "--json",
        "10.0.0.2@joined",
    ],
    text: br#"{"ms":15,"epoch":"100.015","port":null,"event":"late","since":5,"by":"join","what":"star","group":"239.1.1.1","source":null}
{"ms":15,"epoch":"100.015","port":null,"event":"end","due":1,"late":1,"worst":10,"open":1}
"#,
    status: 1,
};

/// Two routers, one of which wants nothing.
pub const SAME: Row = Row {
    words: &[
        "pimtree",
        "same",
        "--rp=10.9.9.9",
        "--upstream=10.0.0.2",
        "--own=10.0.0.1",
        "a=10.0.0.2@joined",
        "b=10.0.0.2@empty",
    ],
    text: b"different\n",
    status: 1,
};

/// The message of the capture, which a fresh router hears.
pub const MIRROR: Row = Row {
    words: &[
        "pimtree",
        "mirror",
        "--rp=10.9.9.9",
        "--upstream=10.0.0.2",
        "--own=10.0.0.1",
        "10.0.0.2@joined",
    ],
    text: b"message 34 2300c4d401000a000002000100d201000020ef01010100010000010007200a090909
messages 1
agrees
",
    status: 0,
};

/// The bytes of that message.
pub const EMIT: Row = Row {
    words: &[
        "pimtree",
        "emit",
        "--rp=10.9.9.9",
        "--upstream=10.0.0.2",
        "--own=10.0.0.1",
        "10.0.0.2@joined",
    ],
    text: &[
        0, 0x22, 0x23, 0, 0xc4, 0xd4, 1, 0, 10, 0, 0, 2, 0, 1, 0, 210, 1, 0, 0, 32, 239, 1, 1, 1,
        0, 1, 0, 0, 1, 0, 7, 32, 10, 9, 9, 9,
    ],
    status: 0,
};

/// The message by which the star is pruned.
pub const CHANGE: Row = Row {
    words: &[
        "pimtree",
        "change",
        "--rp=10.9.9.9",
        "--upstream=10.0.0.2",
        "--own=10.0.0.1",
        "a=10.0.0.2@joined",
        "b=10.0.0.2@empty",
    ],
    text: b"message 34 2300c4d401000a000002000100d201000020ef01010100000001010007200a090909
messages 1
agrees
",
    status: 0,
};
