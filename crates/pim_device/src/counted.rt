//! A device over a reader or a writer of std, with a count of its failures.

ghost use Rattle.std.specs.Prelude.{◌≡◌, ◌+◌, min};
ghost use Rattle.pim_device.specs.Device.{counted_inner, counted_failures, top_count};

use crate::device::{Drain, Failed, Feed};
use std::io::{Read, Write};

/// A reader or a writer with the count of its failures. Any error is a failure, and so is a write
/// that takes none of some bytes.
#[derive(Debug, Drop)]
pub struct Counted<T> {
    inner: T,
    failures: u64,
}

impl<T> Counted<T> {
    /// Returns a device that has not failed.
    pub fn new(inner: T) -> Self
        ensures inner { counted_inner result ≡ inner }
        ensures failures { counted_failures result ≡ 0 }
    {
        Counted { inner, failures: 0 }
    }

    /// Returns the reader or writer inside.
    pub fn into_inner(self) -> T
        ensures { result ≡ counted_inner self }
    {
        let Counted { inner, failures: _ } = self;
        inner
    }

    /// Borrows the reader or writer inside.
    pub fn get_ref(&self) -> &T
        ensures { result.now ≡ counted_inner self.now }
    {
        &self.inner
    }

    /// Returns the number of failures, at most 2^64 - 1.
    pub fn failures(&self) -> u64
        ensures { result ≡ counted_failures self.now }
    {
        self.failures
    }

    fn count_failure(&mut self) -> Failed
        ensures inner { counted_inner self.new ≡ counted_inner self.old }
        ensures failures { counted_failures self.new
            ≡ min (counted_failures self.old + 1) top_count }
    {
        self.failures = self.failures.saturating_add(1);
        Failed
    }
}

impl<R: Read> Feed for Counted<R> {
    ghost remaining = { λ device. R.remaining (counted_inner device) };

    ghost failures = { counted_failures };

    fn read(&mut self, buffer: &mut [u8]) -> Result<usize, Failed> {
        match self.inner.read(buffer) {
            Ok(given) => Ok(given),
            Err(_) => Err(self.count_failure()),
        }
    }
}

impl<W: Write> Drain for Counted<W> {
    ghost contents = { λ device. W.contents (counted_inner device) };

    ghost failures = { counted_failures };

    fn write(&mut self, bytes: &[u8]) -> Result<usize, Failed> {
        match self.inner.write(bytes) {
            Ok(taken) if taken > 0 || bytes.is_empty() => Ok(taken),
            _ => Err(self.count_failure()),
        }
    }
}
