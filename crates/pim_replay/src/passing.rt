//! Time that passes between the records of captures: its echoes, and the count of Refreshes.
//!
//! The router counts the Refreshes up to the next echo by a division, since a long pause has very
//! many.

ghost use Rattle.std.specs.Prelude.{◌≡◌, ◌≤◌, ◌^◌, max, OnOk};
ghost use Rattle.pim_device.specs.Device.{failures_after};
ghost use Rattle.pim_router.specs.State.{setup_of};
ghost use Rattle.pim_replay.specs.Events.{Writes};
ghost use Rattle.pim_replay.specs.Passing.{PassesTime};

use crate::event::ReplayEvent;
use crate::listener::Listener;
use pim_addr::{Failed, Family};
use pim_down::Step;
use pim_report::Counts;
use pim_router::Router;
use pim_router::laws::every_list_has_a_course;

/// Lets a router run to this moment, in milliseconds. The listener hears each echo, with the moment
/// at which it falls. Returns the counts with the Refreshes on the way, up to 2^64 - 1.
///
/// # Errors
/// The device failed: a prefix of what is written of the echoes was written.
pub(crate) fn pass_time<F: Family, W, L: Listener<F, W>>(
    listener: &L,
    device: &mut W,
    router: &mut Router<'_, F>,
    moment: u64,
    counts: Counts,
) -> Result<Counts, Failed>
    requires { moment ≤ 10 ^ 15 }
    ensures reported { Writes (L.line listener.now) (PassesTime moment router.old) router.new
        (L.contents device.old) (L.contents device.new) counts result }
    ensures count { L.failures device.new ≡ failures_after (L.failures device.old) result }
    ensures reached { OnOk result
        (router.new.machines.moment ≡ max router.old.machines.moment moment) }
    ensures setup { setup_of router.new ≡ setup_of router.old }
{
    every_list_has_a_course();
    let mut refreshes = counts.refreshes;
    loop {
        let (step, passed) = router.run_past_refreshes(moment);
        refreshes = refreshes.saturating_add(passed);
        match step {
            Step::Echo { port, group, what } => {
                let event = ReplayEvent::Echo {
                    moment: router.now(),
                    port,
                    group,
                    what,
                };
                listener.hear(device, event)?;
            }
            Step::Reached => {
                return Ok(Counts {
                    skipped: counts.skipped,
                    refreshes,
                });
            }
        }
    }
}
