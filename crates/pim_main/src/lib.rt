//! The program `pimtree` but for its `main`, so that small programs beside it can be run by the
//! gate, each with words of its own.
//!
//! `run_program` gives the engines of `pim_commands` and `pim_session` the process's own devices
//! and files. It has no contract, since none can name what a file or a device of the system holds.
//! What it does lies in calls over any devices, so that tests call it, too:
//!
//! - `run_on_devices` does a task: it passes all output on, and then writes the warnings.
//! - `WithInput` is an opener of files and of standard input, whose name is `-` where any container
//!   is read.
//! - `Output` is the device that takes the output, in blocks or line by line.
//! - `run_session` answers a session.
//!
//! Callers: `pimtree`.
#![tactic(auto)]

mod files;
mod inputs;
mod late;
mod output;
mod progress;
mod running;
mod session;
mod source;

ghost use Rattle.pim_words.specs.Plan.{IsInRange};

use crate::files::{SystemFiles, SystemInput};
use crate::output::{is_live, local_of, routes_of};
use crate::progress::{Clearing, ProgressLine};
pub use inputs::WithInput;
pub use output::{Output, task_reads_any};
use pim_addr::{Counted, Family, V4, V6};
use pim_commands::{FAULTY, Fault, report_fault};
use pim_words::{CommandPlan, Task, plan};
pub use running::run_on_devices;
pub use session::run_session;
use std::io::IsTerminal;
use std::process::ExitCode;
use std::{env, io};

/// The words of the command line, of which the first is the program's name.
fn words_given(rt: &HostRuntime) -> io::Result<Vec<String>> {
    let words = env::args(rt)?;
    Ok(words.collect(rt.alloc())?)
}

/// Answers a session on standard input, on standard output, and returns the status.
fn answer_input(rt: &HostRuntime) -> Result<u8, Fault<'static>> {
    let Ok(mut output) = Output::new(rt.alloc(), io::writer(rt), false) else {
        return Err(Fault::Memory);
    };
    run_session(rt.alloc(), Counted::new(rt.stdin()), &mut output)
}

/// Does a task, with standard input and output and the files of the system, and returns the status.
fn run_on_system<'a, F: Family>(
    rt: &'a HostRuntime,
    task: &Task<'a, F::Addr>,
) -> Result<u8, Fault<'a>>
    requires { IsInRange task.now }
{
    let line = ProgressLine::new();
    let shared = rt.stdout().is_terminal().then_some(&line);
    let writer = Clearing::new(rt, shared, io::writer(rt));
    let Ok(mut output) = Output::new(rt.alloc(), writer, is_live(rt, task)) else {
        return Err(Fault::Memory);
    };
    let reads_any = task_reads_any(task);
    let files = SystemFiles::new(rt, &line, reads_any, routes_of(task), local_of(task));
    let mut files = WithInput::new(files, SystemInput::new(rt), reads_any);
    let mut input = Counted::new(rt.stdin());
    let mut errors = Counted::new(Clearing::new(rt, Some(&line), rt.stderr()));
    let alloc = rt.alloc();
    let status = run_on_devices::<F, _, _, _, _>(
        alloc,
        &mut files,
        task,
        &mut input,
        &mut output,
        &mut errors,
    );
    line.clear(rt);
    status
}

/// Does what the words ask for, and returns the status.
fn run<'a>(rt: &'a HostRuntime, words: &'a [String]) -> Result<u8, Fault<'a>> {
    match &plan(rt.alloc(), words)? {
        CommandPlan::V4(task) => run_on_system::<V4>(rt, task),
        CommandPlan::V6(task) => run_on_system::<V6>(rt, task),
        CommandPlan::Session => answer_input(rt),
    }
}

/// Writes a fault to standard output or error, and returns the status.
fn report(rt: &HostRuntime, fault: &Fault<'_>) -> u8 {
    let mut output = Counted::new(io::writer(rt));
    let mut errors = Counted::new(rt.stderr());
    report_fault(fault, &mut output, &mut errors)
}

/// Writes why the words can't be read, and returns the status.
fn report_unread(rt: &HostRuntime, error: &io::Error) -> u8 {
    if error.kind() == io::ErrorKind::InvalidData {
        let _ = eprintln!(rt; "pimtree: a word of the command line isn't valid UTF-8");
        return FAULTY;
    }
    report(rt, &Fault::Memory)
}

/// Does what the words of the process's command line ask for, and returns its status.
pub fn run_program(rt: &HostRuntime) -> ExitCode {
    let words = match words_given(rt) {
        Ok(words) => words,
        Err(error) => return ExitCode::from(report_unread(rt, &error)),
    };
    match run(rt, words.as_slice()) {
        Ok(status) => ExitCode::from(status),
        Err(fault) => ExitCode::from(report(rt, &fault)),
    }
}
