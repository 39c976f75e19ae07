//! In which order a run opens its files, writes its output, and writes its warnings.

ghost use Rattle.pim_words.specs.Plan.{IsPlanInRange};

use super::running::{NEVER, all_files};
use pim_addr::{Counted, ScriptedDrain, ScriptedFeed, V4};
use pim_commands::Fault;
use pim_files::HeldFiles;
use pim_main::{Output, run_on_devices};
use pim_words::{CommandPlan, plan};
use std::alloc::Global;
use std::cell::Cell;
use std::io::{self, ErrorKind, Write};

/// Takes output, unless each write fails.
#[derive(Drop)]
struct Taker<'c> {
    /// The number of bytes that it took.
    taken: &'c Cell<usize>,
    /// Whether each write fails.
    fails: bool,
}

impl Write for Taker<'_> {
    fn write(&mut self, bytes: &[u8]) -> io::Result<usize> {
        if self.fails {
            return Err(io::Error::from(ErrorKind::BrokenPipe));
        }
        self.taken.set(self.taken.get().saturating_add(bytes.len()));
        Ok(bytes.len())
    }

    fn flush(&mut self) -> io::Result<()> {
        Ok(())
    }
}

/// Takes warnings, and notes how much output was taken before the first one.
#[derive(Drop)]
struct Watcher<'c> {
    taken: &'c Cell<usize>,
    before: &'c Cell<Option<usize>>,
}

impl Write for Watcher<'_> {
    fn write(&mut self, bytes: &[u8]) -> io::Result<usize> {
        if self.before.get().is_none() {
            self.before.set(Some(self.taken.get()));
        }
        Ok(bytes.len())
    }

    fn flush(&mut self) -> io::Result<()> {
        Ok(())
    }
}

/// Whether a plan over IPv4 ends so, with standard output in blocks: with status 0, or as its
/// output isn't passed on.
fn plan_ends(
    alloc: Global,
    plan: &CommandPlan<'_>,
    taker: Taker<'_>,
    watcher: Watcher<'_>,
    is_written: bool,
) -> bool
    requires { IsPlanInRange plan.now }
{
    let CommandPlan::V4(task) = plan else {
        return false;
    };
    let Ok(mut output) = Output::new(alloc, taker, false) else {
        return false;
    };
    let files = all_files();
    let mut files = HeldFiles::new(alloc, &files, 7);
    let mut input = ScriptedFeed::new(b"", 1, NEVER);
    let mut errors = Counted::new(watcher);
    let end = run_on_devices::<V4, _, _, _, _>(
        alloc,
        &mut files,
        task,
        &mut input,
        &mut output,
        &mut errors,
    );
    match end {
        Ok(status) => is_written && status == 0,
        Err(fault) => !is_written && matches!(fault, Fault::Output),
    }
}

/// The words of a replay with a warning: no message is for its port.
const WARNED: [&str; 7] = [
    "pimtree",
    "replay",
    "--input",
    "any",
    "--rp",
    "10.9.9.9",
    "10.0.0.4@joined",
];

/// The output of that replay.
const REPORT: &[u8] = b"0 port 0 from 10.0.0.9 hello new
5 port 0 from 10.0.0.9 not-for-us
state at 5
skipped 0 refreshes 0
";

/// Whether the replay ends so.
fn ends(alloc: Global, taker: Taker<'_>, watcher: Watcher<'_>, is_written: bool) -> bool {
    match plan(alloc, &WARNED) {
        Ok(plan) => plan_ends(alloc, &plan, taker, watcher, is_written),
        Err(_) => false,
    }
}

#[test]
fn warnings_follow_all_output(rt: HostRuntime) {
    let taken = Cell::new(0);
    let before = Cell::new(None);
    let taker = Taker {
        taken: &taken,
        fails: false,
    };
    let watcher = Watcher {
        taken: &taken,
        before: &before,
    };
    assert!(rt; ends(rt.alloc(), taker, watcher, true));
    assert_eq!(rt; before.get(), Some(REPORT.len()));
    assert_eq!(rt; taken.get(), REPORT.len());
}

#[test]
fn output_that_is_not_passed_on_is_a_fault_without_warnings(rt: HostRuntime) {
    let taken = Cell::new(0);
    let before = Cell::new(None);
    let taker = Taker {
        taken: &taken,
        fails: true,
    };
    let watcher = Watcher {
        taken: &taken,
        before: &before,
    };
    assert!(rt; ends(rt.alloc(), taker, watcher, false));
    assert_eq!(rt; before.get(), None);
}

/// Words, and the names of files that are asked for.
#[derive(Clone, Copy)]
struct Row {
    words: &'static [&'static str],
    names: &'static [&'static str],
}

/// The file `gone` isn't there. As a further file it is asked for, and those after it, too.
const ROWS: [Row; 4] = [
    Row {
        words: &[
            "pimtree",
            "trace",
            "--routes",
            "routes",
            "10.0.0.2@joined",
            "+empty",
            "10.0.0.3@joined",
        ],
        names: &["routes", "joined", "empty", "joined"],
    },
    Row {
        words: &[
            "pimtree",
            "audit",
            "--local",
            "local",
            "--upstream",
            "10.0.0.9",
            "--routes",
            "routes",
            "10.0.0.2@joined",
        ],
        names: &["routes", "local", "joined"],
    },
    Row {
        words: &[
            "pimtree",
            "replay",
            "10.0.0.2@joined",
            "10.0.0.3@gone",
            "10.0.0.4@empty",
        ],
        names: &["joined", "gone"],
    },
    Row {
        words: &[
            "pimtree",
            "trace",
            "10.0.0.2@joined",
            "+gone",
            "10.0.0.3@empty",
        ],
        names: &["joined", "gone", "empty"],
    },
];

/// Whether these names were noted.
fn has_noted(files: &HeldFiles<'_>, names: &[&str]) -> bool {
    match files.requested() {
        Some(asked) => {
            asked.len() == names.len()
                && asked
                    .iter()
                    .zip(names)
                    .all(|(one, other)| one.as_str() == *other)
        }
        None => false,
    }
}

/// Whether a plan over IPv4 asks for the files of these names.
fn plan_asks_for(alloc: Global, plan: &CommandPlan<'_>, names: &[&str]) -> bool
    requires { IsPlanInRange plan.now }
{
    let CommandPlan::V4(task) = plan else {
        return false;
    };
    let files = all_files();
    let mut files = HeldFiles::new(alloc, &files, 7);
    let mut input = ScriptedFeed::new(b"", 1, NEVER);
    let mut output = ScriptedDrain::new(alloc, 64, NEVER);
    let mut errors = ScriptedDrain::new(alloc, 64, NEVER);
    let _ = run_on_devices::<V4, _, _, _, _>(
        alloc,
        &mut files,
        task,
        &mut input,
        &mut output,
        &mut errors,
    );
    has_noted(&files, names)
}

/// Whether the words of a row do.
fn asks_for(alloc: Global, row: &Row) -> bool {
    match plan(alloc, row.words) {
        Ok(plan) => plan_asks_for(alloc, &plan, row.names),
        Err(_) => false,
    }
}

#[test]
fn files_are_asked_for_in_the_order_of_words(rt: HostRuntime) {
    let wrong = ROWS.iter().position(|row| !asks_for(rt.alloc(), row));
    assert_eq!(rt; wrong, None);
}
