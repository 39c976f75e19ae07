//! The traits of devices, and the loops over them.

ghost use Rattle.std.specs.Prelude.{◌≡◌, ℕ, ◌<◌, ◌≤◌, List, Option, length, take, IfOk, OnErr};
ghost use Rattle.std.specs.Io.KnownBytes.{ReadConsumes, WriteAppends, Consumes, IsAtEnd};
ghost use Rattle.pim_device.specs.Device.{failures_after, AppendsAll, ConsumesAtMost};

use thiserror::Error;

/// A device failed: it moved no bytes in that call.
#[derive(Clone, Copy, Debug, PartialEq, Eq, Error)]
#[error("the device failed")]
pub struct Failed;

/// A device that gives bytes.
pub trait Feed {
    // The bytes that it has left to give, where they are known.
    ghost remaining: { Self → Option (List ℕ) };

    // The number of its failures; the count stops at 2^64 - 1.
    ghost failures: { Self → ℕ };

    /// Fills a front of the buffer and returns its length. The length is 0 only at the end of the
    /// device or for an empty buffer.
    fn read(&mut self, buffer: &mut [u8]) -> Result<usize, Failed>
        ensures bound { IfOk result (λ n. n ≤ length buffer.new) }
        ensures bytes { ReadConsumes (remaining self.old) (remaining self.new) result buffer.new }
        ensures count { failures self.new ≡ failures_after (failures self.old) result };

    /// A record of its bytes was passed on. It changes nothing that is given. A device that counts
    /// no records leaves this method out.
    fn pass_record(&mut self)
        ensures bytes { remaining self.new ≡ remaining self.old }
        ensures count { failures self.new ≡ failures self.old }
    {}
}

/// A device that takes bytes.
pub trait Drain {
    // The bytes that it has taken, where they are known.
    ghost contents: { Self → Option (List ℕ) };

    // The number of its failures; the count stops at 2^64 - 1.
    ghost failures: { Self → ℕ };

    /// Takes a front of the bytes and returns its length. The length is 0 only where there are no
    /// bytes: a device that takes none of some bytes fails.
    fn write(&mut self, bytes: &[u8]) -> Result<usize, Failed>
        ensures bound { IfOk result (λ n. n ≤ length bytes.now) }
        ensures some { IfOk result (λ n. 0 < length bytes.now → 0 < n) }
        ensures bytes { WriteAppends (contents self.old) (contents self.new) result bytes.now }
        ensures count { failures self.new ≡ failures_after (failures self.old) result };
}

/// Writes all the bytes. After a failure, some front of them is written.
pub fn write_all<D: Drain>(drain: &mut D, bytes: &[u8]) -> Result<(), Failed>
    ensures bytes { AppendsAll (D.contents drain.old) (D.contents drain.new) result bytes.now }
    ensures count { D.failures drain.new ≡ failures_after (D.failures drain.old) result }
{
    let mut taken = 0;
    while taken < bytes.len() {
        let (_, rest) = bytes.split_at(taken);
        let more = drain.write(rest)?;
        taken += more;
    }
    Ok(())
}

/// Fills the buffer until it is full or the device is at its end, and returns the number of bytes.
/// It stops at the first failure; earlier reads have then taken bytes.
pub fn read_up_to<R: Feed>(feed: &mut R, buffer: &mut [u8]) -> Result<usize, Failed>
    ensures bound { IfOk result (λ n. n ≤ length buffer.new) }
    ensures bytes { IfOk result
        (λ n. Consumes (R.remaining feed.old) (R.remaining feed.new) (take n buffer.new)) }
    ensures end { IfOk result (λ n. n < length buffer.new → IsAtEnd (R.remaining feed.new)) }
    ensures front { OnErr result
        (ConsumesAtMost (length buffer.new) (R.remaining feed.old) (R.remaining feed.new)) }
    ensures count { R.failures feed.new ≡ failures_after (R.failures feed.old) result }
{
    let mut got = 0;
    while got < buffer.len() {
        let (_, rest) = buffer.split_at_mut(got);
        let more = feed.read(rest)?;
        if more == 0 {
            return Ok(got);
        }
        got += more;
    }
    Ok(got)
}
