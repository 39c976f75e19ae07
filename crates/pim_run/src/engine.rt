//! The run over the turns of a merge.

ghost use Rattle.std.specs.Prelude.{◌≡◌, ◌<◌, ◌≤◌, ℕ, List, Option, length, OnOk};
ghost use Rattle.pim_capture.specs.Next.{latest_moment};
ghost use Rattle.pim_merge.specs.Merge.{Taken};
ghost use Rattle.pim_merge.specs.Next.{MergeState, turns_left};
ghost use Rattle.pim_merge.specs.Run.{HasTaken, IsTallied};
ghost use Rattle.pim_router.specs.State.{RouterState, setup_of};
ghost use Rattle.pim_run.specs.Faults.{failures_of_device, OnWhole};
ghost use Rattle.pim_run.specs.Run.{Runs};
ghost use Rattle.pim_run.specs.Underway.{IsUnderway, Steps, IfMore};

use crate::fault::{RunFault, of_turn, stopped_by};
use crate::hooks::Hooks;
use pim_addr::{Family, Feed};
use pim_merge::{End, Merge};
use pim_router::Router;

/// Takes the next turn before the end of the run. Returns whether there was one.
fn step<F: Family, R: Feed + Drop, W, K, H: Hooks<F, W, K>>(
    hooks: &H,
    device: &mut W,
    merge: &mut Merge<R>,
    router: &mut Router<'_, F>,
    kept: &mut K,
    end: End,
) -> Result<bool, RunFault>
    requires ports { length merge.old.lanes ≡ length router.old.ports }
    requires moment { router.old.machines.moment ≤ latest_moment }
    requires ready { H.is_ready kept.old router.old }
    ensures taken { (start : MergeState) (first : K) (state : RouterState) (old : Option (List ℕ)) →
        IsUnderway (H.takes hooks.now) (H.begins hooks.now) end start first state old
        merge.old kept.old router.old (H.contents device.old) →
        Steps (H.takes hooks.now) (H.begins hooks.now) end start first state old
        merge.new kept.new router.new (H.contents device.new) result }
    ensures count { H.failures device.new ≡ failures_of_device (H.failures device.old) result }
    ensures ports { OnOk result (length merge.new.lanes ≡ length router.new.ports) }
    ensures moment { OnWhole result (router.new.machines.moment ≤ latest_moment) }
    ensures ready { OnWhole result (H.is_ready kept.new router.new) }
    ensures setup { setup_of router.new ≡ setup_of router.old }
    ensures nearer { IfMore result (turns_left merge.new < turns_left merge.old) }
    ensures tallied { (start : MergeState) (taken : List Taken) →
        HasTaken end start taken merge.old → IsTallied end start merge.new }
{
    let next = match merge.advance(end) {
        Ok(next) => next,
        Err(fault) => return Err(stopped_by(fault)),
    };
    let Some(turn) = next else {
        return Ok(false);
    };
    let bytes = merge.bytes(turn.capture);
    match hooks.take(device, router, kept, &turn, bytes) {
        Ok(()) => Ok(true),
        Err(fault) => Err(of_turn(fault)),
    }
}

/// Takes all turns of a merge up to the end of the run, in order of time. The merge has one capture
/// for each port of the router, in their order.
///
/// Besides what the hooks need, it needs memory for one buffer for each capture.
///
/// # Errors
/// - `Capture`: a capture has a fault. Exactly the turns before it were taken.
/// - `Output` if the device fails, `Memory` if memory is refused: some first turns were taken, and
///   at most one more was begun.
pub fn run<F: Family, R: Feed + Drop, W, K, H: Hooks<F, W, K>>(
    hooks: &H,
    device: &mut W,
    merge: &mut Merge<R>,
    router: &mut Router<'_, F>,
    kept: &mut K,
    end: End,
) -> Result<(), RunFault>
    requires ports { length merge.old.lanes ≡ length router.old.ports }
    requires moment { router.old.machines.moment ≤ latest_moment }
    requires ready { H.is_ready kept.old router.old }
    ensures runs { Runs (H.takes hooks.now) (H.begins hooks.now) end merge.old merge.new
        kept.old router.old (H.contents device.old)
        kept.new router.new (H.contents device.new) result }
    ensures count { H.failures device.new ≡ failures_of_device (H.failures device.old) result }
    ensures moment { OnWhole result (router.new.machines.moment ≤ latest_moment) }
    ensures ready { OnWhole result (H.is_ready kept.new router.new) }
    ensures setup { setup_of router.new ≡ setup_of router.old }
    // The tallies of the captures are those of the turns that were taken.
    ensures tallied { IsTallied end merge.old merge.new }
{
    while step(hooks, device, merge, router, kept, end)? {}
    Ok(())
}
