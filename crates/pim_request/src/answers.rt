//! Devices that take the answers of a session.

ghost use Rattle.std.specs.Prelude.{◌≡◌, List, ℕ, Option, Some, IfOk};
ghost use Rattle.std.specs.Io.KnownBytes.{Keeps};
ghost use Rattle.pim_device.specs.Device.{failures_after};
ghost use Rattle.pim_device.specs.Scripted.{drain_bytes};

use pim_addr::{Drain, Failed, ScriptedDrain};

/// A device that takes answers, and can pass on at once what it holds.
pub trait Answers: Drain {
    // The bytes that it has passed on, where they are known.
    ghost passed_on: { Self → Option (List ℕ) };

    /// Passes on what the device holds. The bytes that it has taken stay the same.
    fn flush(&mut self) -> Result<(), Failed>
        ensures contents { Keeps (Self.contents self.old) (Self.contents self.new) }
        ensures all { IfOk result (λ _. passed_on self.new ≡ Self.contents self.new) }
        ensures count { Self.failures self.new ≡ failures_after (Self.failures self.old) result };
}

impl Answers for ScriptedDrain {
    ghost passed_on = { λ drain. Some (drain_bytes drain) };

    fn flush(&mut self) -> Result<(), Failed> {
        Ok(())
    }
}
