//! The progress of large captures, as a line on standard error where that is a terminal.
//!
//! A reader counts its bytes, and its records that are passed on. Once a second it shows what it
//! counted, in place of the line before. Where another text is written to the same terminal, the
//! line is cleared first. No contract speaks of a terminal, nor of time.

ghost use Rattle.std.specs.Prelude.{None};

use crate::late::LateFile;
use pim_addr::{Failed, Feed};
use std::cell::Cell;
use std::io::{self, IsTerminal, Write};
use std::time::Instant;

/// The length of a file, in bytes, above which its progress is shown.
const LARGE: u64 = 67_108_864;

/// The number of records after which a reader looks at the clock.
const RECORDS_A_LOOK: u64 = 256;

/// The last line of the terminal, as far as it shows a progress.
#[derive(Drop)]
pub struct ProgressLine {
    /// The number of its columns; 0 if it shows none.
    width: Cell<usize>,
}

impl ProgressLine {
    /// Returns a line that shows nothing.
    pub fn new() -> Self {
        ProgressLine {
            width: Cell::new(0),
        }
    }

    /// Shows a text in place of the one that it shows.
    fn show(&self, rt: &HostRuntime, text: &str) {
        let width = self.width.get().max(text.chars().count());
        self.width.set(width);
        let _ = eprint!(rt; "\r{text:width$}");
    }

    /// Clears the line, if it shows a progress.
    pub fn clear(&self, rt: &HostRuntime) {
        let width = self.width.get();
        if width == 0 {
            return;
        }
        self.width.set(0);
        let _ = eprint!(rt; "\r{:width$}\r", "");
    }
}

/// A writer that clears a line before it writes, if it writes to the same terminal.
#[derive(Drop)]
pub struct Clearing<'r, W> {
    rt: &'r HostRuntime,
    line: Option<&'r ProgressLine>,
    inner: W,
}

impl<'r, W> Clearing<'r, W> {
    /// Returns such a writer over another one.
    pub fn new(rt: &'r HostRuntime, line: Option<&'r ProgressLine>, inner: W) -> Self {
        Clearing { rt, line, inner }
    }
}

impl<W: Write> Write for Clearing<'_, W> {
    fn write(&mut self, bytes: &[u8]) -> io::Result<usize> {
        if let Some(line) = self.line {
            line.clear(self.rt);
        }
        self.inner.write(bytes)
    }

    fn flush(&mut self) -> io::Result<()> {
        self.inner.flush()
    }
}

/// The progress of a file.
#[derive(Drop)]
pub struct RunProgress<'r> {
    rt: &'r HostRuntime,
    line: &'r ProgressLine,
    /// The name of the file.
    name: String,
    /// The length of the file in bytes.
    size: u64,
    /// The time when it was shown last, or began.
    shown: Instant,
    /// The number of records at that time.
    records: u64,
}

impl<'r> RunProgress<'r> {
    /// Returns the progress of a file of this length, if it is to be shown. Where memory or the
    /// clock is refused, it isn't.
    pub fn of(rt: &'r HostRuntime, line: &'r ProgressLine, name: &str, size: u64) -> Option<Self> {
        if size <= LARGE || !rt.stderr().is_terminal() {
            return None;
        }
        Some(RunProgress {
            rt,
            line,
            name: String::from_str(rt.alloc(), name).ok()?,
            size,
            shown: Instant::now(rt).ok()?,
            records: 0,
        })
    }

    /// Shows that these bytes were read and these records passed on, as many a second as `rate`.
    fn show(&self, bytes: u64, records: u64, rate: u128) {
        let name = &self.name;
        // A file that grows may have more bytes than its length was.
        let percent = (bytes / (self.size / 100).max(1)).min(100);
        if let Ok(text) = format!(in self.rt.alloc();
            "pimtree: {name}: {percent} %, {records} packets, {rate} packets/s"
        ) {
            self.line.show(self.rt, text.as_str());
        }
    }

    /// Shows these numbers of bytes and records if a second has passed since the last time.
    pub fn look(&mut self, bytes: u64, records: u64) {
        let Ok(now) = Instant::now(self.rt) else {
            return;
        };
        let elapsed = now.duration_since(self.shown);
        if elapsed.as_secs() == 0 {
            return;
        }
        let passed = u128::from(records.saturating_sub(self.records));
        self.show(bytes, records, passed * 1_000 / elapsed.as_millis().max(1));
        self.shown = now;
        self.records = records;
    }
}

/// A reader of the system, with the number of its records. No contract can say what it holds.
#[derive(Drop)]
pub struct Watched<'r> {
    file: LateFile<'r>,
    /// The number of reads that failed, at most 2^64 - 1.
    failures: u64,
    /// The number of records that were passed on.
    records: u64,
}

impl<'r> Watched<'r> {
    /// Returns a device over a file of which nothing was read.
    pub fn new(file: LateFile<'r>) -> Self {
        Watched {
            file,
            failures: 0,
            records: 0,
        }
    }
}

impl Feed for Watched<'_> {
    ghost remaining = { λ _. None };

    ghost failures = { λ watched. watched.failures };

    fn read(&mut self, buffer: &mut [u8]) -> Result<usize, Failed> {
        let given = self.file.read(buffer);
        let Ok(count) = given else {
            self.failures = self.failures.saturating_add(1);
            return Err(Failed);
        };
        Ok(count)
    }

    fn pass_record(&mut self) {
        let records = self.records.saturating_add(1);
        self.records = records;
        if records % RECORDS_A_LOOK == 0 {
            self.file.look(records);
        }
    }
}
