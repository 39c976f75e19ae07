//! Runs scenarios and cases: tests that are files.
//!
//! `pim_cases` has what knows no command: it reads, runs and compares them. Each word names a file
//! or a folder of them.
//!
//! The gate gives the word `session` alone. The program then does what `pimtree` does with it:
//! it answers a session on standard input, which is `examples/override.session`. After that it runs
//! the folders `scenarios` and `cases`.
//!
//! The first difference of each that fails is a line of standard output, and the last line counts.
//! The status is 0 if all is as expected, otherwise 1.
#![tactic(auto)]

mod running;

use crate::running::Commands;
use pim_cases::{Tally, files_below};
use pim_main::run_program;
use std::process::ExitCode;
use std::{env, io};

/// Whether the first word is `session`.
fn wants_session(rt: &HostRuntime) -> io::Result<bool> {
    for (index, word) in env::args(rt)?.enumerate() {
        if index == 1 {
            return Ok(word.as_str() == "session");
        }
    }
    Ok(false)
}

/// Runs this file, or the files of this folder.
fn run_word(rt: &HostRuntime, tally: &mut Tally<Commands>, word: &str) -> io::Result<()> {
    let files = files_below(rt, word)?;
    tally.run_files(rt, &files)
}

/// Runs the files of each word behind the program's name.
fn run_words(rt: &HostRuntime, tally: &mut Tally<Commands>) -> io::Result<()> {
    for (index, word) in env::args(rt)?.enumerate() {
        if index > 0 {
            run_word(rt, tally, word.as_str())?;
        }
    }
    Ok(())
}

/// Answers a session on standard input as `pimtree` does, and then runs the files of both folders.
/// Returns the status of the session.
fn run_stored(rt: &HostRuntime, tally: &mut Tally<Commands>) -> io::Result<ExitCode> {
    let status = run_program(rt);
    run_word(rt, tally, "scenarios")?;
    run_word(rt, tally, "cases")?;
    Ok(status)
}

/// Runs what the words ask for. Returns the status if no file fails.
fn run_all(rt: &HostRuntime, tally: &mut Tally<Commands>) -> io::Result<ExitCode> {
    if wants_session(rt)? {
        return run_stored(rt, tally);
    }
    run_words(rt, tally)?;
    Ok(ExitCode::SUCCESS)
}

fn main(rt: HostRuntime) -> io::Result<ExitCode> {
    let mut tally = Tally::new(Commands);
    let status = run_all(&rt, &mut tally)?;
    tally.write_tally(&rt)?;
    if tally.has_failed() {
        return Ok(ExitCode::FAILURE);
    }
    Ok(status)
}
