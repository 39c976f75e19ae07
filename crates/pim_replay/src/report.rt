//! The report of a replay: the lines of its events, then the final state.

ghost use Rattle.std.specs.Prelude.{◌≡◌, ◌≤◌, length};
ghost use Rattle.pim_capture.specs.Next.{latest_moment};
ghost use Rattle.pim_device.specs.Device.{AppendsAll, failures_after};
ghost use Rattle.pim_merge.specs.Ends.{IsBoundedEnd};
ghost use Rattle.pim_merge.specs.Run.{IsTallied};
ghost use Rattle.pim_replay.specs.Events.{event_seen};
ghost use Rattle.pim_run.specs.Faults.{failures_of_device};
ghost use Rattle.pim_replay.specs.Report.{Replays, event_line, of_text};

use crate::event::ReplayEvent;
use crate::listener::Listener;
use crate::replay::replay_for;
use pim_addr::{Drain, Failed, Family, Feed};
use pim_merge::{End, Merge};
use pim_report::{StateFault, write_echo_line, write_packet_line, write_state};
use pim_router::Router;
use pim_run::RunFault;
use std::alloc::Global;

/// Writes the line of each event, as a report has it.
#[derive(Clone, Copy, Debug, PartialEq, Eq)]
pub(crate) struct ReportPrinter;

impl<F: Family, W: Drain> Listener<F, W> for ReportPrinter {
    ghost line = { λ printer event. event_line F.family event };

    ghost contents = { W.contents };

    ghost failures = { W.failures };

    fn hear(&self, device: &mut W, event: ReplayEvent<F::Addr>) -> Result<(), Failed>
        ensures bytes { AppendsAll (W.contents device.old) (W.contents device.new) result
            (event_line F.family (event_seen F.bytes_of event)) }
        ensures count { W.failures device.new ≡ failures_after (W.failures device.old) result }
    {
        match event {
            ReplayEvent::Packet {
                moment,
                port,
                source,
                verdict,
            } => write_packet_line::<F, W>(device, moment, port, source, verdict),
            ReplayEvent::Echo {
                moment,
                port,
                group,
                what,
            } => write_echo_line::<F, W>(device, moment, port, group, what),
        }
    }
}

/// Why a replay stops when its final state isn't written.
fn of_text(fault: StateFault) -> RunFault
    ensures { result ≡ of_text fault }
{
    match fault {
        StateFault::Output => RunFault::Output,
        StateFault::Memory => RunFault::Memory,
    }
}

/// Replays the captures of a router's ports, one for each port and in their order, and writes the
/// report. The report has a line for each packet of the router's family and for each echo, in order
/// of time. The state that the router holds at the end of the run follows.
/// If `shows_via` is set, each line of the demand names the upstream neighbour. Returns the status,
/// 0.
///
/// Besides the router, it needs memory for one buffer for each capture, and at the end that of
/// `write_state`.
///
/// # Errors
/// - `Capture`: a capture has a fault, and exactly the lines of the turns before it were written.
/// - `Output` if the device fails, `Memory` if memory is refused: a prefix of the report was
///   written.
pub fn replay_into<F: Family, R: Feed + Drop, W: Drain>(
    alloc: Global,
    merge: &mut Merge<R>,
    router: &mut Router<'_, F>,
    end: End,
    shows_via: bool,
    writer: &mut W,
) -> Result<u8, RunFault>
    requires ports { length merge.old.lanes ≡ length router.old.ports }
    requires moment { router.old.machines.moment ≤ latest_moment }
    requires end { IsBoundedEnd end }
    ensures report { Replays F.family shows_via end merge.old merge.new router.old router.new
        (W.contents writer.old) (W.contents writer.new) result }
    ensures count { W.failures writer.new ≡ failures_of_device (W.failures writer.old) result }
    // The tallies of the captures after the run are those of the turns that were taken.
    ensures tallied { IsTallied end merge.old merge.new }
{
    let counts = replay_for(&ReportPrinter, writer, merge, router, end)?;
    match write_state::<F, W>(alloc, writer, router, shows_via, counts) {
        Ok(()) => Ok(0),
        Err(fault) => Err(of_text(fault)),
    }
}
