//! Devices for tests, which move few bytes a call and fail from a given byte on.

ghost use Rattle.std.specs.Prelude.{◌≡◌, ◌+◌, ◌<◌, ◌≤◌, ◌↔◌, min, max, Some, [], length, IfOk};
ghost use Rattle.std.specs.Prelude.{OnErr, IsErr};
ghost use Rattle.std.specs.Io.KnownBytes.{ReadConsumes, WriteAppends};
ghost use Rattle.pim_device.specs.Device.{failures_after};
ghost use Rattle.pim_device.specs.Scripted.{feed_bytes, feed_failures, feed_most};
ghost use Rattle.pim_device.specs.Scripted.{feed_until_failure, drain_bytes};
ghost use Rattle.pim_device.specs.Scripted.{drain_failures, drain_most, drain_until_failure};

use crate::device::{Drain, Failed, Feed};
use std::alloc::Global;

/// A device that gives the bytes of a slice, some in each call. After a given number of bytes each
/// call fails.
#[derive(Debug, Drop)]
pub struct ScriptedFeed<'a> {
    rest: &'a [u8],
    most: usize,
    until_failure: usize,
    failures: u64,
}

impl<'a> ScriptedFeed<'a> {
    /// Returns a device that gives at most `most` bytes in a call (1 where that is 0) and fails
    /// from byte `fails_from` on.
    pub fn new(bytes: &'a [u8], most: usize, fails_from: usize) -> Self
        ensures bytes { feed_bytes result ≡ bytes.now }
        ensures failures { feed_failures result ≡ 0 }
        ensures most { feed_most result ≡ max most 1 }
        ensures fails_from { feed_until_failure result ≡ fails_from }
    {
        ScriptedFeed {
            rest: bytes,
            most,
            until_failure: fails_from,
            failures: 0,
        }
    }

    /// Returns the number of failures, at most 2^64 - 1.
    pub fn failures(&self) -> u64
        ensures { result ≡ feed_failures self.now }
    {
        self.failures
    }
}

impl Feed for ScriptedFeed<'_> {
    ghost remaining = { λ feed. Some (feed_bytes feed) };

    ghost failures = { feed_failures };

    fn read(&mut self, buffer: &mut [u8]) -> Result<usize, Failed>
        ensures bound { IfOk result (λ n. n ≤ length buffer.new) }
        ensures bytes { ReadConsumes (Some (feed_bytes self.old)) (Some (feed_bytes self.new))
            result buffer.new }
        ensures count { feed_failures self.new ≡ failures_after (feed_failures self.old) result }
        ensures fails { IsErr result ↔ (feed_until_failure self.old ≡ 0) }
        ensures given { IfOk result
            (λ n. n ≡ min (min (length buffer.old) (feed_most self.old))
            (min (feed_until_failure self.old) (length (feed_bytes self.old)))) }
        ensures left { IfOk result (λ n. feed_until_failure self.new + n
            ≡ feed_until_failure self.old) }
        ensures still { OnErr result (feed_until_failure self.new ≡ 0) }
        ensures most { feed_most self.new ≡ feed_most self.old }
    {
        if self.until_failure == 0 {
            self.failures = self.failures.saturating_add(1);
            return Err(Failed);
        }
        let room = buffer.len().min(self.most.max(1));
        let count = room.min(self.until_failure).min(self.rest.len());
        let (given, rest) = self.rest.split_at(count);
        let (front, _) = buffer.split_at_mut(count);
        front.copy_from_slice(given);
        self.rest = rest;
        self.until_failure -= count;
        Ok(count)
    }
}

/// A device that keeps the bytes that it takes, some in each call. After a given number of bytes
/// each call fails.
#[derive(Debug, Drop)]
pub struct ScriptedDrain {
    written: Vec<u8>,
    most: usize,
    until_failure: usize,
    failures: u64,
}

impl ScriptedDrain {
    /// Returns a device that takes at most `most` bytes in a call (1 where that is 0) and fails
    /// from byte `fails_from` on. It also fails where memory runs out.
    pub fn new(alloc: Global, most: usize, fails_from: usize) -> Self
        ensures bytes { drain_bytes result ≡ [] }
        ensures failures { drain_failures result ≡ 0 }
        ensures most { drain_most result ≡ max most 1 }
        ensures fails_from { drain_until_failure result ≡ fails_from }
    {
        ScriptedDrain {
            written: Vec::new(alloc),
            most,
            until_failure: fails_from,
            failures: 0,
        }
    }

    /// Returns the bytes that it has taken.
    pub fn written(&self) -> &[u8]
        ensures { result.now ≡ drain_bytes self.now }
    {
        self.written.as_slice()
    }

    /// Returns the number of failures, at most 2^64 - 1.
    pub fn failures(&self) -> u64
        ensures { result ≡ drain_failures self.now }
    {
        self.failures
    }
}

impl Drain for ScriptedDrain {
    ghost contents = { λ drain. Some (drain_bytes drain) };

    ghost failures = { drain_failures };

    fn write(&mut self, bytes: &[u8]) -> Result<usize, Failed>
        ensures bound { IfOk result (λ n. n ≤ length bytes.now) }
        ensures some { IfOk result (λ n. 0 < length bytes.now → 0 < n) }
        ensures bytes { WriteAppends (Some (drain_bytes self.old)) (Some (drain_bytes self.new))
            result bytes.now }
        ensures count { drain_failures self.new ≡ failures_after (drain_failures self.old) result }
        ensures fails { drain_until_failure self.old ≡ 0 → IsErr result }
        ensures taken { IfOk result
            (λ n. n ≡ min (min (length bytes.now) (drain_most self.old))
            (drain_until_failure self.old)) }
        ensures left { IfOk result (λ n. drain_until_failure self.new + n
            ≡ drain_until_failure self.old) }
        ensures still { OnErr result (drain_until_failure self.new ≡ drain_until_failure self.old) }
        ensures most { drain_most self.new ≡ drain_most self.old }
    {
        let room = bytes.len().min(self.most.max(1));
        let count = room.min(self.until_failure);
        let (taken, _) = bytes.split_at(count);
        if self.until_failure == 0 || self.written.extend_from_slice(taken).is_err() {
            self.failures = self.failures.saturating_add(1);
            return Err(Failed);
        }
        self.until_failure -= count;
        Ok(count)
    }
}
