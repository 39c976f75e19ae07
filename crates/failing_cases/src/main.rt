//! Runs scenarios and cases that fail, each in a way of its own. Its stored run is what `pim_cases`
//! says of them, so a harness that passes over a failure is noticed.
//!
//! The commands are those of a small runner. In a session it answers `ok` to each line, to `twice`
//! two times, to `lines` after two more lines, and it ends at `last`. Of a case it writes the input
//! to standard output and the words to standard error, and returns the number of files.
#![tactic(auto)]

use pim_addr::{Failed, ScriptedDrain, write_all};
use pim_cases::{Case, Runner, Tally, files_below};
use std::alloc::Global;
use std::io;
use std::process::ExitCode;

/// The folder of files that fail.
const FOLDER: &str = "failing";

/// The status of a case whose output can't be written.
const UNWRITTEN: u8 = 9;

/// Answers a line of a session. Returns whether the session goes on.
fn answer_line(line: &str, answers: &mut ScriptedDrain) -> Result<bool, Failed> {
    if line.starts_with('#') {
        return Ok(true);
    }
    if line == "lines" {
        write_all(answers, b"1\n2\n")?;
    }
    write_all(answers, b"ok\n")?;
    if line == "twice" {
        write_all(answers, b"ok\n")?;
    }
    Ok(line != "last")
}

/// Writes the words of a case, one a line.
fn write_words(case: &Case<'_>, errors: &mut ScriptedDrain) -> Result<(), Failed> {
    for word in case.words.iter().skip(1) {
        write_all(errors, word.as_bytes())?;
        write_all(errors, b"\n")?;
    }
    Ok(())
}

/// The small runner.
#[derive(Drop)]
struct Echo;

impl Runner for Echo {
    fn answer(&self, _alloc: Global, text: &[u8], answers: &mut ScriptedDrain) -> bool {
        let Ok(text) = std::str::from_utf8(text) else {
            return false;
        };
        for line in text.lines() {
            if !answer_line(line, answers).is_ok_and(|goes_on| goes_on) {
                return false;
            }
        }
        true
    }

    fn run(
        &self,
        _alloc: Global,
        case: &Case<'_>,
        output: &mut ScriptedDrain,
        errors: &mut ScriptedDrain,
    ) -> u8 {
        let words = write_words(case, errors);
        match words.and(write_all(output, &case.input.bytes)) {
            Ok(()) => u8::try_from(case.files.len()).unwrap_or(u8::MAX),
            Err(Failed) => UNWRITTEN,
        }
    }
}

fn main(rt: HostRuntime) -> io::Result<ExitCode> {
    let mut tally = Tally::new(Echo);
    let files = files_below(&rt, FOLDER)?;
    tally.run_files(&rt, &files)?;
    tally.write_tally(&rt)?;
    if tally.has_failed() {
        return Ok(ExitCode::FAILURE);
    }
    Ok(ExitCode::SUCCESS)
}
