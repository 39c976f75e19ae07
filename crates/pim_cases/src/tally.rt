//! How many scenarios and cases were run, and how many failed.

use crate::case::Case;
use crate::ending::{Runner, run_case};
use crate::scenario::run_scenario;
use std::{fs, io};

/// The numbers of scenarios, of cases, and of those that failed. The runner runs them.
#[derive(Drop)]
pub struct Tally<R: Runner + Drop> {
    runner: R,
    scenarios: u64,
    cases: u64,
    failed: u64,
}

impl<R: Runner + Drop> Tally<R> {
    /// Returns a tally of nothing. This runner will run what it counts.
    pub fn new(runner: R) -> Self {
        Tally {
            runner,
            scenarios: 0,
            cases: 0,
            failed: 0,
        }
    }

    /// Whether one failed, or none was run.
    pub fn has_failed(&self) -> bool {
        self.failed > 0 || (self.scenarios == 0 && self.cases == 0)
    }

    /// Counts one that ended so.
    fn count(&mut self, is_as_expected: bool) {
        if !is_as_expected {
            self.failed = self.failed.saturating_add(1);
        }
    }

    /// Runs a case, if it has words.
    fn run_case(&mut self, rt: &HostRuntime, file: &str, case: &Case<'_>) -> io::Result<()> {
        if case.line > 0 {
            self.cases = self.cases.saturating_add(1);
            let is_as_expected = run_case(rt, &self.runner, file, case)?;
            self.count(is_as_expected);
        }
        Ok(())
    }

    /// Takes a line of cases, which has this number. The words of a case end the one before.
    fn take_line<'a>(
        &mut self,
        rt: &HostRuntime,
        file: &str,
        case: &mut Case<'a>,
        line: &'a str,
        number: usize,
    ) -> io::Result<()> {
        if line == "words" || line.starts_with("words ") {
            self.run_case(rt, file, case)?;
            case.begin(rt.alloc(), line, number)?;
            return Ok(());
        }
        if !case.take_line(rt.alloc(), line)? {
            println!(rt; "{file} line {number}: can't be read: {line}")?;
            self.count(false);
        }
        Ok(())
    }

    /// Runs the cases of a file.
    fn run_cases(&mut self, rt: &HostRuntime, file: &str) -> io::Result<()> {
        let text = fs::read_to_string(rt, file)?;
        let mut case = Case::new(rt.alloc());
        let mut number = 0usize;
        for line in text.as_str().lines() {
            number = number.saturating_add(1);
            self.take_line(rt, file, &mut case, line, number)?;
        }
        self.run_case(rt, file, &case)
    }

    /// Runs the scenario of a file.
    fn run_scenario(&mut self, rt: &HostRuntime, file: &str) -> io::Result<()> {
        let text = fs::read(rt, file)?;
        self.scenarios = self.scenarios.saturating_add(1);
        let is_as_expected = run_scenario(rt, &self.runner, file, &text)?;
        self.count(is_as_expected);
        Ok(())
    }

    /// Runs these files.
    pub fn run_files(&mut self, rt: &HostRuntime, files: &[String]) -> io::Result<()> {
        for file in files {
            let file = file.as_str();
            if file.ends_with(".case") {
                self.run_cases(rt, file)?;
            } else {
                self.run_scenario(rt, file)?;
            }
        }
        Ok(())
    }

    /// Writes the numbers.
    pub fn write_tally(&self, rt: &HostRuntime) -> io::Result<()> {
        let (scenarios, cases, failed) = (self.scenarios, self.cases, self.failed);
        if self.has_failed() {
            return println!(rt; "{scenarios} scenarios, {cases} cases, {failed} failed");
        }
        println!(rt; "{scenarios} scenarios, {cases} cases, all as expected")
    }
}
