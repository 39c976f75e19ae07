//! What a run does at the turns of its merge.

ghost use Rattle.std.specs.Prelude.{◌≡◌, ◌<◌, ◌≤◌, ◌^◌, ℕ, List, Option, length, max, OnOk};
ghost use Rattle.pim_capture.specs.Capture.{most_captured};
ghost use Rattle.pim_capture.specs.Next.{PayloadLiesIn};
ghost use Rattle.pim_merge.specs.Merge.{Taken};
ghost use Rattle.pim_merge.specs.Run.{turn_seen};
ghost use Rattle.pim_router.specs.State.{RouterState, setup_of};
ghost use Rattle.pim_run.specs.Faults.{failures_by};
ghost use Rattle.pim_run.specs.Run.{OnTurn};

use crate::fault::TurnFault;
use pim_addr::Family;
use pim_merge::Turn;
use pim_router::Router;

/// What a run does at the turns of its merge. It writes to a device `W`, and it keeps a `K` beside
/// the router.
pub trait Hooks<F: Family, W, K> {
    // How a turn leads from what is kept, the router and the device's bytes to those after it.
    ghost takes: { Self → Taken → K → RouterState → Option (List ℕ) → K → RouterState →
        Option (List ℕ) → Type 0 };

    // What the device has where the turn was not taken to its end.
    ghost begins: { Self → Taken → K → RouterState → Option (List ℕ) → Option (List ℕ) → Type 0 };

    // What holds of what is kept before each turn.
    ghost is_ready: { K → RouterState → Type 0 };

    // The bytes that the device has taken, where they are known.
    ghost contents: { W → Option (List ℕ) };

    // The number of the device's failures; the count stops at 2^64 - 1.
    ghost failures: { W → ℕ };

    /// Takes a turn whose record has these bytes: lets time pass up to its moment, then lets the
    /// port of its capture take the record.
    ///
    /// # Errors
    /// The device failed, or memory was refused: a front of what the turn writes was written.
    fn take(
        &self,
        device: &mut W,
        router: &mut Router<'_, F>,
        kept: &mut K,
        turn: &Turn,
        bytes: &[u8],
    ) -> Result<(), TurnFault>
        requires port { turn.now.capture < length router.old.ports }
        requires moment { turn.now.moment ≤ 10 ^ 15 }
        requires payload { PayloadLiesIn bytes.now turn.now.event }
        requires bytes { length bytes.now ≤ most_captured }
        requires ready { is_ready kept.old router.old }
        ensures taken { OnTurn
            (takes self.now (turn_seen bytes.now turn.now) kept.old router.old
            (contents device.old) kept.new router.new (contents device.new))
            (begins self.now (turn_seen bytes.now turn.now) kept.old router.old
            (contents device.old) (contents device.new)) result }
        ensures count { failures device.new ≡ failures_by (failures device.old) result }
        ensures ready { OnOk result (is_ready kept.new router.new) }
        ensures reached { OnOk result
            (router.new.machines.moment ≡ max router.old.machines.moment turn.now.moment) }
        ensures setup { setup_of router.new ≡ setup_of router.old };
}
