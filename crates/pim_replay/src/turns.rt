//! A turn of a replay: the router runs to the moment of a record, then the port of its capture
//! takes the record.

ghost use Rattle.std.specs.Prelude.{◌≡◌, ◌<◌, ◌≤◌, ℕ, List, length, OnOk};
ghost use Rattle.pim_capture.specs.Capture.{most_captured};
ghost use Rattle.pim_capture.specs.Next.{PayloadLiesIn};
ghost use Rattle.pim_merge.specs.Content.{content_seen};
ghost use Rattle.pim_merge.specs.Run.{turn_seen};
ghost use Rattle.pim_router.specs.State.{setup_of};
ghost use Rattle.pim_replay.specs.Events.{Writes};
ghost use Rattle.pim_run.specs.Faults.{failures_by};
ghost use Rattle.pim_replay.specs.Turn.{TakesRecord, skips_in};

use crate::event::ReplayEvent;
use crate::listener::Listener;
use crate::passing::pass_time;
use pim_addr::Family;
use pim_merge::{Content, Turn};
use pim_report::Counts;
use pim_router::Router;
use pim_run::{Hooks, TurnFault};

/// The number of records that are skipped of what holds no packet of the router's family: none of
/// what is no record.
fn skips_in<A>(content: &Content<'_, A>) -> u64
    ensures { (bytes_of : A → List ℕ) → result ≡ skips_in (content_seen bytes_of content.now) }
{
    match content {
        Content::End => 0,
        _ => 1,
    }
}

/// Lets a port take the record of a turn. The listener hears the packet with its verdict. A record
/// without a packet of the router's family is counted as skipped. Returns the counts.
fn take_record<F: Family, W, L: Listener<F, W>>(
    listener: &L,
    device: &mut W,
    router: &mut Router<'_, F>,
    turn: &Turn,
    bytes: &[u8],
    counts: Counts,
) -> Result<Counts, TurnFault>
    requires port { turn.now.capture < length router.old.ports }
    requires payload { PayloadLiesIn bytes.now turn.now.event }
    requires bytes { length bytes.now ≤ most_captured }
    ensures reported { Writes (L.line listener.now)
        (TakesRecord F.family (turn_seen bytes.now turn.now) router.old) router.new
        (L.contents device.old) (L.contents device.new) counts result }
    ensures count { L.failures device.new ≡ failures_by (L.failures device.old) result }
    ensures moment { OnOk result (router.new.machines.moment ≡ router.old.machines.moment) }
    ensures setup { setup_of router.new ≡ setup_of router.old }
{
    let content = turn.content::<F>(bytes);
    let Content::Datagram(sent) = content else {
        return Ok(Counts {
            skipped: counts.skipped.saturating_add(skips_in(&content)),
            refreshes: counts.refreshes,
        });
    };
    let port = turn.capture;
    let moment = router.now();
    let Ok(verdict) = router.take_packet(port, sent.source, sent.destination, sent.payload) else {
        return Err(TurnFault::Memory);
    };
    let event = ReplayEvent::Packet {
        moment,
        port,
        source: sent.source,
        verdict,
    };
    let Ok(()) = listener.hear(device, event) else {
        return Err(TurnFault::Output);
    };
    Ok(counts)
}

/// A replay whose listener hears each event.
#[derive(Drop)]
pub(crate) struct Replay<'l, L> {
    pub(crate) listener: &'l L,
}

impl<'l, F: Family, W, L: Listener<F, W>> Hooks<F, W, Counts> for Replay<'l, L> {
    ghost use Rattle.pim_replay.specs.Events.{HasWritten, HasBegun};
    ghost use Rattle.pim_replay.specs.Turn.{WritesTurn};

    ghost takes = { λ replay turn counts state old more after new.
        HasWritten (L.line replay.listener.now) (WritesTurn F.family turn state) after old new
        counts more };

    ghost begins = { λ replay turn counts state old new.
        HasBegun (L.line replay.listener.now) (WritesTurn F.family turn state) old new };

    ghost is_ready = { λ counts state. Unit {0} };

    ghost contents = { L.contents };

    ghost failures = { L.failures };

    fn take(
        &self,
        device: &mut W,
        router: &mut Router<'_, F>,
        counts: &mut Counts,
        turn: &Turn,
        bytes: &[u8],
    ) -> Result<(), TurnFault> {
        let Ok(passed) = pass_time(self.listener, device, router, turn.moment, *counts) else {
            return Err(TurnFault::Output);
        };
        match take_record(self.listener, device, router, turn, bytes, passed) {
            Ok(more) => {
                *counts = more;
                Ok(())
            }
            Err(fault) => Err(fault),
        }
    }
}
