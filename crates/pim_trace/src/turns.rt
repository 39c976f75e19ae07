//! A turn of a trace: time passes up to the moment of a record, then the port of its capture takes
//! the record.

ghost use Rattle.std.specs.Prelude.{◌≡◌, ◌<◌, ◌≤◌, length};
ghost use Rattle.pim_capture.specs.Capture.{most_captured};
ghost use Rattle.pim_capture.specs.Next.{PayloadLiesIn, event_seen};
ghost use Rattle.pim_router.specs.State.{setup_of};
ghost use Rattle.pim_trace.specs.Kept.{ledger_seen};
ghost use Rattle.pim_run.specs.Faults.{failures_by};
ghost use Rattle.pim_trace.specs.WrittenEvents.{Writes};
ghost use Rattle.pim_trace.specs.Turn.{Skips, TakesRecord};

use crate::hearing::{HeardPacket, hear_packet};
use crate::ledger::{Ledger, frame_after};
use crate::passing::pass_time;
use crate::writing_events::write_on;
use pim_addr::Family;
use pim_events::{EventWriter, Happening, Skip, Skipping};
use pim_merge::{Content, Turn};
use pim_router::Router;
use pim_run::{Hooks, TurnFault};
use pim_transitions::laws::transitions_are_there;

/// Writes a record that is skipped, and counts it.
fn skip<F: Family, W, T: EventWriter<F, W>>(
    event_writer: &T,
    device: &mut W,
    router: &Router<'_, F>,
    ledger: &mut Ledger<F>,
    port: usize,
    skipped: Skipping,
) -> Result<(), TurnFault>
    ensures reported { Writes (T.line event_writer.now)
        (Skips port skipped (ledger_seen F.bytes_of ledger.old) router.now)
        (ledger_seen F.bytes_of ledger.new) router.now
        (T.contents device.old) (T.contents device.new) result }
    ensures count { T.failures device.new ≡ failures_by (T.failures device.old) result }
    ensures frames { ledger.new.frames.items ≡ ledger.old.frames.items }
    ensures own { ledger.new.own.items ≡ ledger.old.own.items }
{
    let what = Happening::Skipped(skipped);
    let Ok(()) = write_on(event_writer, device, ledger, router.now(), port, what) else {
        return Err(TurnFault::Output);
    };
    ledger.skip(skipped.why);
    Ok(())
}

/// Lets a port take the record of a turn, which was counted last of its capture.
fn take_record<F: Family, W, T: EventWriter<F, W>>(
    event_writer: &T,
    device: &mut W,
    router: &mut Router<'_, F>,
    ledger: &mut Ledger<F>,
    turn: &Turn,
    bytes: &[u8],
) -> Result<(), TurnFault>
    requires port { turn.now.capture < length router.old.ports }
    requires frames { turn.now.capture < length ledger.old.frames.items }
    requires own { turn.now.capture < length ledger.old.own.items }
    requires payload { PayloadLiesIn bytes.now turn.now.event }
    requires bytes { length bytes.now ≤ most_captured }
    ensures reported { Writes (T.line event_writer.now)
        (TakesRecord F.family turn.now.capture (event_seen bytes.now turn.now.event)
        (ledger_seen F.bytes_of ledger.old) router.old)
        (ledger_seen F.bytes_of ledger.new) router.new
        (T.contents device.old) (T.contents device.new) result }
    ensures count { T.failures device.new ≡ failures_by (T.failures device.old) result }
    ensures setup { setup_of router.new ≡ setup_of router.old }
    ensures moment { router.new.machines.moment ≡ router.old.machines.moment }
    ensures frames { ledger.new.frames.items ≡ ledger.old.frames.items }
    ensures own { length ledger.new.own.items ≡ length ledger.old.own.items }
{
    let port = turn.capture;
    let frame = ledger.frame(port);
    match turn.content::<F>(bytes) {
        Content::Datagram(datagram) => {
            let packet = HeardPacket {
                port,
                frame,
                source: datagram.source,
                destination: datagram.destination,
                bytes: datagram.payload,
            };
            hear_packet(event_writer, device, router, ledger, &packet)
        }
        Content::OtherFamily => {
            let why = Skip::OtherFamily;
            let skipped = Skipping { frame, why };
            skip(event_writer, device, router, ledger, port, skipped)
        }
        Content::Skipped(why) => {
            let why = Skip::NoPacket(why);
            let skipped = Skipping { frame, why };
            skip(event_writer, device, router, ledger, port, skipped)
        }
        Content::End => Ok(()),
    }
}

/// A trace whose teller gets each event.
#[derive(Drop)]
pub(crate) struct Tracer<'t, T> {
    pub(crate) event_writer: &'t T,
}

impl<'t, F: Family, W, T: EventWriter<F, W>> Hooks<F, W, Ledger<F>> for Tracer<'t, T> {
    ghost use Rattle.std.specs.Prelude.{◌≡◌, length};
    ghost use Rattle.pim_trace.specs.Kept.{ledger_seen};
    ghost use Rattle.pim_trace.specs.WrittenEvents.{HasWritten, HasBegun};
    ghost use Rattle.pim_trace.specs.Turn.{WritesTurn};

    ghost takes = { λ tracer turn ledger state old ledger' after new.
        HasWritten (T.line tracer.event_writer.now)
        (WritesTurn F.family turn (ledger_seen F.bytes_of ledger) state)
        (ledger_seen F.bytes_of ledger') after old new };

    ghost begins = { λ tracer turn ledger state old new.
        HasBegun (T.line tracer.event_writer.now)
        (WritesTurn F.family turn (ledger_seen F.bytes_of ledger) state) old new };

    ghost is_ready = { λ ledger state. (length ledger.frames.items ≡ length state.ports)
        × (length ledger.own.items ≡ length state.ports) };

    ghost contents = { T.contents };

    ghost failures = { T.failures };

    fn take(
        &self,
        device: &mut W,
        router: &mut Router<'_, F>,
        ledger: &mut Ledger<F>,
        turn: &Turn,
        bytes: &[u8],
    ) -> Result<(), TurnFault> {
        transitions_are_there();
        let frame = frame_after(&turn.event, ledger.frame(turn.capture));
        ledger.open(turn.capture, frame, turn.time());
        let Ok(()) = pass_time(self.event_writer, device, router, ledger, turn.moment) else {
            return Err(TurnFault::Output);
        };
        take_record(self.event_writer, device, router, ledger, turn, bytes)
    }
}
