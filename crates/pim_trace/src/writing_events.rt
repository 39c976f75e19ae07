//! Writes an event of a port.

ghost use Rattle.std.specs.Prelude.{◌≡◌};
ghost use Rattle.pim_device.specs.Device.{AppendsAll, failures_after};
ghost use Rattle.pim_events.specs.Events.{happening_seen};
ghost use Rattle.pim_trace.specs.Heard.{event_on};
ghost use Rattle.pim_trace.specs.Kept.{ledger_seen};

use crate::ledger::Ledger;
use pim_addr::{Failed, Family};
use pim_events::{EventWriter, Happening, TraceEvent};

/// Writes an event of this port at this moment, in milliseconds.
///
/// # Errors
/// The device failed: a prefix of what is written of the event was written.
pub(crate) fn write_on<F: Family, W, T: EventWriter<F, W>>(
    event_writer: &T,
    device: &mut W,
    ledger: &Ledger<F>,
    ms: u64,
    port: usize,
    what: Happening<'_, F>,
) -> Result<(), Failed>
    ensures bytes { AppendsAll (T.contents device.old) (T.contents device.new) result
        (T.line event_writer.now (event_on (ledger_seen F.bytes_of ledger.now) ms port
        (happening_seen F.bytes_of what.entry))) }
    ensures count { T.failures device.new ≡ failures_after (T.failures device.old) result }
{
    let event = TraceEvent {
        ms,
        epoch: ledger.epoch(ms),
        port: Some(port),
        what,
    };
    event_writer.write_event(device, &event)
}
