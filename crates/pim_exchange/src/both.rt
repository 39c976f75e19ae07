//! The replays of two routers, one after the other.

ghost use Rattle.std.specs.Prelude.{◌≡◌, ◌≤◌, IsOk, None, length};
ghost use Rattle.pim_capture.specs.Next.{latest_moment};
ghost use Rattle.pim_merge.specs.Ends.{IsBoundedEnd};
ghost use Rattle.pim_merge.specs.Run.{IsTallied};
ghost use Rattle.pim_exchange.specs.Runs.{AfterBoth};

use crate::fault::{ExchangeFault, of_second};
use pim_addr::{Family, Feed};
use pim_merge::{End, Merge};
use pim_replay::replay_quietly;
use pim_router::Router;

/// Replays the captures of two routers, one for each port, each up to the end of its run. Both
/// routers must have one table.
///
/// # Errors
/// `Replay` with a fault of a capture of `a`, or else `Second` with one of `b`; or `Memory`.
pub(crate) fn replay_both<F: Family, R: Feed + Drop>(
    merge_a: &mut Merge<R>,
    router_a: &mut Router<'_, F>,
    merge_b: &mut Merge<R>,
    router_b: &mut Router<'_, F>,
    end: End,
) -> Result<(), ExchangeFault<F::Addr>>
    requires ports_a { length merge_a.old.lanes ≡ length router_a.old.ports }
    requires ports_b { length merge_b.old.lanes ≡ length router_b.old.ports }
    requires moment_a { router_a.old.machines.moment ≤ latest_moment }
    requires moment_b { router_b.old.machines.moment ≤ latest_moment }
    requires end { IsBoundedEnd end }
    requires routes { router_a.old.routes ≡ router_b.old.routes }
    ensures runs { AfterBoth F.family end merge_a.old merge_a.new router_a.old router_a.new
        merge_b.old merge_b.new router_b.old router_b.new None None
        (λ answer. IsOk answer) result }
    ensures tallied_a { IsTallied end merge_a.old merge_a.new }
    ensures tallied_b { IsTallied end merge_b.old merge_b.new }
    ensures routes { router_a.new.routes ≡ router_b.new.routes }
{
    match replay_quietly::<F, R>(merge_a, router_a, end) {
        Ok(()) => {}
        Err(fault) => return Err(ExchangeFault::Replay(fault)),
    }
    match replay_quietly::<F, R>(merge_b, router_b, end) {
        Ok(()) => Ok(()),
        Err(fault) => Err(of_second(fault)),
    }
}
