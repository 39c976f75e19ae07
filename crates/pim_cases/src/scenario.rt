//! A scenario: a session with its expected answers.
//!
//! After each command come the lines of its answer, each after `#= `. The session passes these
//! lines over, as all that begin with `#`. The answer of a `from` comes after its `send`. Each
//! command has an answer, whose last line is `ok` or begins with `fault `.

use crate::differing::{Place, write_line};
use crate::ending::Runner;
use crate::lines::{cut_line, without_feed};
use pim_addr::ScriptedDrain;
use std::io;

/// How far a scenario is compared.
#[derive(Drop)]
struct Comparison<'a> {
    /// The name of the file.
    file: &'a str,
    /// The answers that aren't compared yet.
    answers: &'a [u8],
    /// The line of the last command, from 1; 0 before the first.
    command: usize,
    /// Whether the answer of the last command is complete.
    is_complete: bool,
    /// Whether the lines are those of the text of a message.
    is_text: bool,
}

/// Whether a line ends an answer.
fn ends_answer(line: &[u8]) -> bool {
    line == b"ok".as_slice() || line.starts_with(b"fault ")
}

impl Comparison<'_> {
    /// Writes that this line of an answer was expected and another one came.
    fn write_unexpected(&self, rt: &HostRuntime, expected: &[u8], got: &[u8]) -> io::Result<bool> {
        let place = Place {
            file: self.file,
            line: self.command,
        };
        write_line(rt, place, "", expected, got)?;
        Ok(false)
    }

    /// Compares one line of the answer of the last command.
    fn compare(&mut self, rt: &HostRuntime, expected: &[u8]) -> io::Result<bool> {
        if self.is_complete {
            return self.write_unexpected(rt, expected, b"");
        }
        let (line, rest) = cut_line(self.answers);
        let got = without_feed(line);
        if got != expected {
            return self.write_unexpected(rt, expected, got);
        }
        self.answers = rest;
        self.is_complete = ends_answer(got);
        Ok(true)
    }

    /// Whether the answer of the last command is complete. Otherwise it writes what comes next.
    fn complete(&self, rt: &HostRuntime) -> io::Result<bool> {
        if self.is_complete {
            return Ok(true);
        }
        let (line, _) = cut_line(self.answers);
        self.write_unexpected(rt, b"", without_feed(line))
    }

    /// Whether all answers were compared. Otherwise it writes what comes next.
    fn is_over(&self, rt: &HostRuntime) -> io::Result<bool> {
        if self.is_complete && self.answers.is_empty() {
            return Ok(true);
        }
        let (line, _) = cut_line(self.answers);
        self.write_unexpected(rt, b"", without_feed(line))
    }

    /// Goes on by a line of the scenario, which has this number. Returns whether all is as
    /// expected.
    fn go_on(&mut self, rt: &HostRuntime, line: &[u8], number: usize) -> io::Result<bool> {
        if self.is_text {
            self.is_text = line != b"send".as_slice();
            return Ok(true);
        }
        if let Some(expected) = line.strip_prefix(b"#=") {
            return self.compare(rt, expected.strip_prefix(b" ").unwrap_or(expected));
        }
        if line.is_empty() || line.starts_with(b"#") {
            return Ok(true);
        }
        let is_as_expected = self.complete(rt)?;
        self.command = number;
        self.is_complete = false;
        self.is_text = line == b"from".as_slice() || line.starts_with(b"from ");
        Ok(is_as_expected)
    }
}

/// Compares the answers with those that the scenario has.
fn compare(rt: &HostRuntime, file: &str, text: &[u8], answers: &[u8]) -> io::Result<bool> {
    let mut comparison = Comparison {
        file,
        answers,
        command: 0,
        is_complete: true,
        is_text: false,
    };
    let mut rest = text;
    let mut number = 0usize;
    while !rest.is_empty() {
        let (line, others) = cut_line(rest);
        rest = others;
        number = number.saturating_add(1);
        if !comparison.go_on(rt, without_feed(line), number)? {
            return Ok(false);
        }
    }
    comparison.is_over(rt)
}

/// Runs a scenario, and writes its first difference. Returns whether all is as expected.
pub fn run_scenario<R: Runner>(
    rt: &HostRuntime,
    runner: &R,
    file: &str,
    text: &[u8],
) -> io::Result<bool> {
    let mut answers = ScriptedDrain::new(rt.alloc(), usize::MAX, usize::MAX);
    let is_answered = runner.answer(rt.alloc(), text, &mut answers);
    if !compare(rt, file, text, answers.written())? {
        return Ok(false);
    }
    if !is_answered {
        println!(rt; "{file}: the session ended early")?;
    }
    Ok(is_answered)
}
