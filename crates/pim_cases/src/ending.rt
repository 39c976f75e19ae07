//! Runs cases, and compares what they put out.

use crate::case::Case;
use crate::differing::{Place, write_difference};
use pim_addr::ScriptedDrain;
use std::alloc::Global;
use std::io;

/// The most bytes that a write takes.
const MOST_WRITTEN: usize = 5;

/// What runs the words of a case, and answers the session of a scenario.
pub trait Runner {
    /// Answers a session of these lines. Returns whether it answered them to their end.
    fn answer(&self, alloc: Global, text: &[u8], answers: &mut ScriptedDrain) -> bool;

    /// Does what the words ask for, with this standard output and error. Returns the status.
    fn run(
        &self,
        alloc: Global,
        case: &Case<'_>,
        output: &mut ScriptedDrain,
        errors: &mut ScriptedDrain,
    ) -> u8;
}

/// What a case put out, and its status.
#[derive(Drop)]
struct Ended {
    output: ScriptedDrain,
    errors: ScriptedDrain,
    status: u8,
}

/// Runs a case to its end.
fn end_of<R: Runner>(alloc: Global, runner: &R, case: &Case<'_>) -> Ended {
    let mut output = ScriptedDrain::new(alloc, MOST_WRITTEN, case.room);
    let mut errors = ScriptedDrain::new(alloc, MOST_WRITTEN, case.error_room);
    let status = runner.run(alloc, case, &mut output, &mut errors);
    Ended {
        output,
        errors,
        status,
    }
}

/// Writes the first difference of what a case put out. Returns whether all is as expected.
fn compare(rt: &HostRuntime, file: &str, case: &Case<'_>, ended: &Ended) -> io::Result<bool> {
    let place = Place {
        file,
        line: case.line,
    };
    let (output, errors) = (ended.output.written(), ended.errors.written());
    if output != case.output.as_slice() {
        write_difference(rt, place, "output", &case.output, output)?;
        return Ok(false);
    }
    if errors != case.errors.as_slice() {
        write_difference(rt, place, "errors", &case.errors, errors)?;
        return Ok(false);
    }
    let (line, expected, got) = (case.line, case.status, ended.status);
    if expected != got {
        println!(rt; "{file} line {line}: expected status {expected}, got {got}")?;
    }
    Ok(expected == got)
}

/// Runs a case, and writes its first difference. Returns whether all is as expected.
pub fn run_case<R: Runner>(
    rt: &HostRuntime,
    runner: &R,
    file: &str,
    case: &Case<'_>,
) -> io::Result<bool> {
    let ended = end_of(rt.alloc(), runner, case);
    compare(rt, file, case, &ended)
}
