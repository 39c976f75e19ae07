//! The canonical messages of a replay's final state, written as bytes.

ghost use Rattle.std.specs.Prelude.{◌≡◌, ◌≤◌, IfOk, length};
ghost use Rattle.pim_capture.specs.Next.{latest_moment};
ghost use Rattle.pim_merge.specs.Ends.{IsBoundedEnd};
ghost use Rattle.pim_merge.specs.Run.{IsTallied};
ghost use Rattle.pim_exchange.specs.Emit.{Emits, SendsDemand};
ghost use Rattle.pim_exchange.specs.Fault.{failures_of_exchange};

use crate::fault::ExchangeFault;
use pim_addr::{Drain, Family, Feed};
use pim_emit::{WriteFault, write_canonical};
use pim_form::Writer;
use pim_merge::{End, Merge};
use pim_replay::replay_quietly;
use pim_router::Router;
use pim_run::RunFault;
use std::alloc::{AllocError, Global};

/// A buffer for one message.
fn blank(alloc: Global, budget: usize) -> Result<Vec<u8>, AllocError>
    ensures { IfOk result (λ buffer. length buffer.items ≡ budget) }
{
    vec![in alloc; 0u8; budget]
}

/// Writes the canonical messages of the router's demand toward the writer's upstream neighbour,
/// each after its length.
fn send_demand<F: Family, W: Drain>(
    alloc: Global,
    router: &Router<'_, F>,
    by: &Writer<F>,
    writer: &mut W,
) -> Result<u8, ExchangeFault<F::Addr>>
    ensures sends { SendsDemand F.family by.now router.now
        F.bytes_of (W.contents writer.old) (W.contents writer.new) result }
    ensures count { W.failures writer.new ≡ failures_of_exchange (W.failures writer.old) result }
{
    let Ok(mut buffer) = blank(alloc, by.budget()) else {
        return Err(ExchangeFault::Replay(RunFault::Memory));
    };
    match write_canonical::<F, W>(router.ports(), by, router.routes(), &mut buffer, writer) {
        Ok(_) => Ok(0),
        Err(WriteFault::TooBig(group)) => Err(ExchangeFault::TooBig(group)),
        Err(WriteFault::Output { .. }) => Err(ExchangeFault::Replay(RunFault::Output)),
    }
}

/// Replays the captures of a router's ports, one for each port and in their order, up to the end of
/// the run. It writes the canonical messages of the router's demand toward the upstream neighbour
/// of `by`, as bytes. Two bytes with the length, big-endian, precede each message; nothing else is
/// written. Returns the status, 0.
///
/// Besides the router, it needs memory for one buffer for each capture, and at the end for one
/// message.
///
/// # Errors
/// - A capture's fault, `TooBig` and `Memory`: nothing was written.
/// - `Output`: a prefix of the messages was written.
pub fn emit_into<F: Family, R: Feed + Drop, W: Drain>(
    alloc: Global,
    merge: &mut Merge<R>,
    router: &mut Router<'_, F>,
    end: End,
    by: &Writer<F>,
    writer: &mut W,
) -> Result<u8, ExchangeFault<F::Addr>>
    requires ports { length merge.old.lanes ≡ length router.old.ports }
    requires moment { router.old.machines.moment ≤ latest_moment }
    requires end { IsBoundedEnd end }
    ensures emits { Emits F.family end by.now merge.old merge.new router.old router.new
        F.bytes_of (W.contents writer.old) (W.contents writer.new) result }
    ensures count { W.failures writer.new ≡ failures_of_exchange (W.failures writer.old) result }
    // The tallies of the captures after the run are those of the turns that were taken.
    ensures tallied { IsTallied end merge.old merge.new }
{
    if let Err(fault) = replay_quietly::<F, R>(merge, router, end) {
        return Err(ExchangeFault::Replay(fault));
    }
    send_demand::<F, W>(alloc, router, by, writer)
}
