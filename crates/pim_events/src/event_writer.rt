//! What takes the events of a trace.

ghost use Rattle.std.specs.Prelude.{◌≡◌, ℕ, List, [], Option, Some};
ghost use Rattle.pim_device.specs.Device.{AppendsAll, failures_after};
ghost use Rattle.pim_events.specs.Events.{Occurrence, event_seen};

use crate::event::TraceEvent;
use pim_addr::{Failed, Family};

/// What takes the events of a trace, one by one, and writes them to a device.
pub trait EventWriter<F: Family, W> {
    // What it writes of an event.
    ghost line: { Self → Occurrence → List ℕ };

    // The bytes that the device has taken, where they are known.
    ghost contents: { W → Option (List ℕ) };

    // The number of the device's failures; the count stops at 2^64 - 1.
    ghost failures: { W → ℕ };

    /// Takes an event.
    ///
    /// # Errors
    /// The device failed: a prefix of what is written of the event was written.
    fn write_event(&self, device: &mut W, event: &TraceEvent<'_, F>) -> Result<(), Failed>
        ensures bytes { AppendsAll (contents device.old) (contents device.new) result
            (line self.now (event_seen F.bytes_of event.now)) }
        ensures count { failures device.new ≡ failures_after (failures device.old) result };
}
