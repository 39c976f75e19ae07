//! The further files of ports in a plan, by words `+FILE`.

use pim_words::{CommandFault, CommandPlan, More, Task, plan};
use std::alloc::{AllocError, Global};
use std::test::Fail;

/// A further file that a row expects.
#[derive(Clone, Copy)]
struct Wanted {
    /// The number of its port.
    port: usize,
    /// Its name.
    file: &'static str,
}

/// Words, and the further files of their plan.
#[derive(Clone, Copy)]
struct Row {
    words: &'static [&'static str],
    more: &'static [Wanted],
}

/// Each file is of the port before it.
const ROWS: [Row; 4] = [
    Row {
        words: &["p", "trace", "10.0.0.2@a"],
        more: &[],
    },
    Row {
        words: &[
            "p",
            "trace",
            "10.0.0.2@a",
            "+b",
            "+10.0.0.4@c",
            "x=10.0.0.3@d",
            "+-",
        ],
        more: &[
            Wanted { port: 0, file: "b" },
            Wanted {
                port: 0,
                file: "10.0.0.4@c",
            },
            Wanted { port: 1, file: "-" },
        ],
    },
    Row {
        words: &[
            "p",
            "replay",
            "--input=any",
            "fe80::2@a",
            "fe80::3@d",
            "++b",
            "fe80::4@e",
        ],
        more: &[Wanted {
            port: 1,
            file: "+b",
        }],
    },
    Row {
        words: &[
            "p",
            "change",
            "--rp=10.9.9.9",
            "--upstream=10.0.0.9",
            "--own=10.0.0.8",
            "--input=any",
            "b=10.0.0.2@a",
            "+c",
            "a=10.0.0.3@d",
            "+a=10.0.0.4@e",
        ],
        more: &[
            Wanted { port: 0, file: "c" },
            Wanted {
                port: 1,
                file: "a=10.0.0.4@e",
            },
        ],
    },
];

/// Whether the further files are those that are wanted.
fn are_wanted(more: &[More<'_>], wanted: &[Wanted]) -> bool {
    more.len() == wanted.len()
        && more.iter().zip(wanted).all(|(one, other)| one.port == other.port
            && one.file == other.file)
}

/// Whether the further files of a task are those that are wanted.
fn task_has<A>(task: &Task<'_, A>, wanted: &[Wanted]) -> bool {
    match task {
        Task::Replay(captures)
        | Task::Trace(captures, _)
        | Task::Audit(captures, _, _)
        | Task::Change(captures, _) => { are_wanted(&captures.more, wanted) }
        _ => false,
    }
}

/// Whether the words of a row have a plan with its further files.
fn plan_has(alloc: Global, row: &Row) -> bool {
    match plan(alloc, row.words) {
        Ok(CommandPlan::V4(task)) => task_has(&task, row.more),
        Ok(CommandPlan::V6(task)) => task_has(&task, row.more),
        _ => false,
    }
}

#[test]
fn further_files_are_of_the_port_before_them(rt: HostRuntime) {
    let wrong = ROWS.iter().position(|row| !plan_has(rt.alloc(), row));
    assert_eq!(rt; wrong, None);
}

/// The words of a trace of one port with this many further files.
fn ring(alloc: Global, count: usize) -> Result<Vec<&'static str>, AllocError> {
    let mut words = Vec::new(alloc);
    words.extend_from_slice(&["p", "trace", "10.0.0.2@a"])?;
    for _ in 0..count {
        words.push("+b")?;
    }
    Ok(words)
}

/// Whether the words have a plan.
fn is_planned(alloc: Global, words: &[&str]) -> bool {
    plan(alloc, words).is_ok()
}

/// Whether the fault of the words is their last one.
fn is_refused(alloc: Global, words: &[&str]) -> bool {
    match plan(alloc, words) {
        Err(CommandFault::Word(word)) => word == "+b",
        _ => false,
    }
}

#[test]
fn further_files_are_at_most_4096(rt: HostRuntime) -> Result<(), Fail> {
    let most = ring(rt.alloc(), 4096)?;
    assert!(rt; is_planned(rt.alloc(), &most));
    let more = ring(rt.alloc(), 4097)?;
    assert!(rt; is_refused(rt.alloc(), &more));
    Ok(())
}
