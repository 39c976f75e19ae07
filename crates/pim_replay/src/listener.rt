//! What hears the events of a replay.

ghost use Rattle.std.specs.Prelude.{◌≡◌, ℕ, List, Option};
ghost use Rattle.pim_device.specs.Device.{AppendsAll, failures_after};
ghost use Rattle.pim_replay.specs.Events.{Event, event_seen};

use crate::event::ReplayEvent;
use pim_addr::{Failed, Family};

/// What hears the events of a replay, one by one, and writes them to a device.
pub(crate) trait Listener<F: Family, W> {
    // What it writes of an event.
    ghost line: { Self → Event → List ℕ };

    // The bytes that the device has taken, where they are known.
    ghost contents: { W → Option (List ℕ) };

    // The number of the device's failures; the count stops at 2^64 - 1.
    ghost failures: { W → ℕ };

    /// Hears an event.
    ///
    /// # Errors
    /// The device failed: a prefix of what is written of the event was written.
    fn hear(&self, device: &mut W, event: ReplayEvent<F::Addr>) -> Result<(), Failed>
        ensures bytes { AppendsAll (contents device.old) (contents device.new) result
            (line self.now (event_seen F.bytes_of event)) }
        ensures count { failures device.new ≡ failures_after (failures device.old) result };
}
