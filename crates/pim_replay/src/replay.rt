//! A replay of a router's captures: a listener hears each event, from the first record to the end
//! of the run.
//!
//! The caller makes the merge and the router. So it can refuse a configuration before it opens a
//! file, and open all files before any record is read.

ghost use Rattle.std.specs.Prelude.{◌≡◌, ◌≤◌, length};
ghost use Rattle.pim_capture.specs.Next.{latest_moment};
ghost use Rattle.pim_merge.specs.Ends.{IsBoundedEnd};
ghost use Rattle.pim_merge.specs.Run.{IsTallied};
ghost use Rattle.pim_router.specs.State.{setup_of};
ghost use Rattle.pim_run.specs.Faults.{failures_of_device};
ghost use Rattle.pim_replay.specs.Replay.{Hears};

use crate::listener::Listener;
use crate::passing::pass_time;
use crate::turns::Replay;
use pim_addr::{Family, Feed};
use pim_merge::{End, Merge};
use pim_report::Counts;
use pim_router::Router;
use pim_run::{RunFault, run};

/// Replays the captures of a router's ports, one for each port and in their order, up to the end of
/// the run. The listener hears each packet of the router's family and each echo, in order of time.
/// Returns the counts of Refreshes and of skipped records.
///
/// Besides the router, it needs memory for one buffer for each capture.
///
/// # Errors
/// - `Capture`: a capture has a fault, and exactly the events of the turns before it were heard.
/// - `Output` if the device fails, `Memory` if memory is refused: a prefix of what is written of
///   the events was written.
pub(crate) fn replay_for<F: Family, R: Feed + Drop, W, L: Listener<F, W>>(
    listener: &L,
    device: &mut W,
    merge: &mut Merge<R>,
    router: &mut Router<'_, F>,
    end: End,
) -> Result<Counts, RunFault>
    requires ports { length merge.old.lanes ≡ length router.old.ports }
    requires moment { router.old.machines.moment ≤ latest_moment }
    requires end { IsBoundedEnd end }
    ensures heard { Hears (L.line listener.now) F.family end merge.old merge.new
        router.old router.new (L.contents device.old) (L.contents device.new) result }
    ensures count { L.failures device.new ≡ failures_of_device (L.failures device.old) result }
    ensures setup { setup_of router.new ≡ setup_of router.old }
    // The tallies of the captures after the run are those of the turns that were taken.
    ensures tallied { IsTallied end merge.old merge.new }
{
    let mut counts = Counts {
        skipped: 0,
        refreshes: 0,
    };
    let hooks = Replay { listener };
    run(&hooks, device, merge, router, &mut counts, end)?;
    let moment = merge.end_moment(end, router.now());
    let Ok(counts) = pass_time(listener, device, router, moment, counts) else {
        return Err(RunFault::Output);
    };
    Ok(counts)
}
