//! A replay that writes nothing.

ghost use Rattle.std.specs.Prelude.{◌≡◌, ◌≤◌, length};
ghost use Rattle.pim_capture.specs.Next.{latest_moment};
ghost use Rattle.pim_merge.specs.Ends.{IsBoundedEnd};
ghost use Rattle.pim_merge.specs.Run.{IsTallied};
ghost use Rattle.pim_router.specs.State.{setup_of};
ghost use Rattle.pim_replay.specs.Quiet.{RunsQuietly};

use crate::event::ReplayEvent;
use crate::listener::Listener;
use crate::replay::replay_for;
use pim_addr::{Failed, Family, Feed};
use pim_merge::{End, Merge};
use pim_router::Router;
use pim_run::RunFault;

/// Hears events and writes nothing. It needs no device.
#[derive(Clone, Copy, Debug, PartialEq, Eq)]
pub(crate) struct Quiet;

impl<F: Family> Listener<F, ()> for Quiet {
    ghost use Rattle.std.specs.Prelude.{[], Some};
    ghost use Rattle.pim_device.specs.Device.{AppendsAll, failures_after};

    ghost line = { λ quiet event. [] };

    ghost contents = { λ device. Some [] };

    ghost failures = { λ device. 0 };

    fn hear(&self, _device: &mut (), _event: ReplayEvent<F::Addr>) -> Result<(), Failed>
        ensures bytes { AppendsAll (Some []) (Some []) result [] }
        ensures count { 0 ≡ failures_after 0 result }
    {
        Ok(())
    }
}

/// Replays the captures of a router's ports, one for each port and in their order, up to the end of
/// the run, and writes nothing. The router is then in the same state as after `replay_into`.
///
/// Besides the router, it needs memory for one buffer for each capture.
///
/// # Errors
/// `Capture` if a capture has a fault, and `Memory` if memory is refused; never `Output`.
pub fn replay_quietly<F: Family, R: Feed + Drop>(
    merge: &mut Merge<R>,
    router: &mut Router<'_, F>,
    end: End,
) -> Result<(), RunFault>
    requires ports { length merge.old.lanes ≡ length router.old.ports }
    requires moment { router.old.machines.moment ≤ latest_moment }
    requires end { IsBoundedEnd end }
    ensures runs { RunsQuietly F.family end merge.old merge.new router.old router.new result }
    ensures setup { setup_of router.new ≡ setup_of router.old }
    // The tallies of the captures after the run are those of the turns that were taken.
    ensures tallied { IsTallied end merge.old merge.new }
{
    match replay_for(&Quiet, &mut (), merge, router, end) {
        Ok(_) => Ok(()),
        Err(fault) => Err(fault),
    }
}
