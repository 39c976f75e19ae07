//! Hellos that the audited router itself sent.

ghost use Rattle.std.specs.Prelude.{◌≡◌, ◌<◌, nat_eq, length, slice_index_or, None};
ghost use Rattle.std.specs.Cmp.Lexicographic.{pointwise};
ghost use Rattle.pim_router.specs.Packets.{own_address};
ghost use Rattle.pim_router.specs.Reading.{reading_seen};
ghost use Rattle.pim_trace.specs.Kept.{ledger_seen};
ghost use Rattle.pim_audit.specs.Own.{own_generation, own_restart, after_own};

use pim_addr::Family;
use pim_capture::RecordPlace;
use pim_events::OwnRestart;
use pim_router::{PimMessage, Router};
use pim_trace::Ledger;

/// Whether this is the port's own address.
fn is_own<F: Family>(router: &Router<'_, F>, port: usize, source: F::Addr) -> bool
    requires { port < length router.now.ports }
    ensures { result ≡ pointwise nat_eq (F.bytes_of source) (own_address port router.now) }
{
    source == router.port(port).address
}

/// The Generation ID of a Hello, if it has one, where the message of this source is a Hello of the
/// port's own address.
pub(crate) fn own_generation<F: Family>(
    router: &Router<'_, F>,
    port: usize,
    source: F::Addr,
    message: &PimMessage<'_, F>,
) -> Option<Option<u32>>
    requires { port < length router.now.ports }
    ensures { result ≡ own_generation port router.now (F.bytes_of source)
        (reading_seen F.family message.now) }
{
    match message {
        PimMessage::Hello(hello) if is_own(router, port, source) => Some(hello.generation),
        _ => None,
    }
}

/// Remembers a Hello of the port's own address with this Generation ID, if there is one. Returns
/// the restart of the router of which it says, in the record at this place.
pub(crate) fn remember_own<F: Family>(
    ledger: &mut Ledger<F>,
    port: usize,
    frame: RecordPlace,
    generation: Option<Option<u32>>,
) -> Option<OwnRestart>
    requires { port < length ledger.old.own.items }
    ensures ledger { ledger_seen F.bytes_of ledger.new
        ≡ after_own port generation (ledger_seen F.bytes_of ledger.old) }
    ensures restart { result
        ≡ own_restart frame (slice_index_or ledger.old.own.items port None) generation }
{
    let generation = generation?;
    let was = ledger.send_own(port, generation)?;
    if was == generation {
        return None;
    }
    Some(OwnRestart {
        frame,
        was,
        generation,
    })
}
