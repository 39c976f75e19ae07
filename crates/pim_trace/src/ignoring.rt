//! The Joins(*,G) of a message that count for nothing, since their RP isn't that of the group (RFC
//! 7761, 4.5.1).

ghost use Rattle.std.specs.Prelude.{◌≡◌, option_map};
ghost use Rattle.pim_device.specs.Device.{AppendsAll, failures_after};
ghost use Rattle.pim_down.specs.Hearing.{is_known};
ghost use Rattle.pim_addr.specs.Routes.{rp_of};
ghost use Rattle.pim_jp.specs.Seen.{entry_seen};
ghost use Rattle.pim_trace.specs.Heard.{ignored_entry, ignored_in, all_ignored};
ghost use Rattle.pim_trace.specs.Kept.{ledger_seen};
ghost use Rattle.pim_trace.specs.Read.{ignored_list};
ghost use Rattle.pim_trace.specs.WrittenEvents.{text_on};

use crate::hearing::HeardPacket;
use crate::ledger::Ledger;
use crate::writing_events::write_on;
use pim_addr::{Failed, Family};
use pim_events::{EventWriter, Happening, Ignored};
use pim_jp::{Entry, SetView, Sets};
use pim_router::Router;

/// Whether the RP of a group is this address.
fn is_rp<F: Family>(rp: Option<F::Addr>, address: F::Addr) -> bool
    ensures { result ≡ is_known (option_map F.bytes_of rp) (F.bytes_of address) }
{
    match rp {
        None => false,
        Some(known) => known == address,
    }
}

/// What is written of a joined entry of this group, if it counts for nothing.
fn ignored_by<F: Family>(
    router: &Router<'_, F>,
    packet: &HeardPacket<'_, F::Addr>,
    group: F::Addr,
    entry: Entry<F::Addr>,
) -> Option<Ignored<F::Addr>>
    ensures { ignored_list F.bytes_of result
        ≡ ignored_entry packet.now.frame (F.bytes_of packet.now.source)
        (rp_of F.family router.now.routes) (F.bytes_of group) (entry_seen F.bytes_of entry) }
{
    let Entry::Star(names) = entry else {
        return None;
    };
    let rp = router.routes().rp_of(group);
    if is_rp::<F>(rp, names) {
        return None;
    }
    Some(Ignored {
        frame: packet.frame,
        from: packet.source,
        group,
        names,
        rp,
    })
}

/// Writes an entry that counts for nothing, if it is one.
fn write_if_ignored<F: Family, W, T: EventWriter<F, W>>(
    event_writer: &T,
    device: &mut W,
    ledger: &Ledger<F>,
    ms: u64,
    port: usize,
    ignored: Option<Ignored<F::Addr>>,
) -> Result<(), Failed>
    ensures bytes { AppendsAll (T.contents device.old) (T.contents device.new) result
        (text_on (T.line event_writer.now) (ledger_seen F.bytes_of ledger.now) ms port
        (ignored_list F.bytes_of ignored)) }
    ensures count { T.failures device.new ≡ failures_after (T.failures device.old) result }
{
    let Some(ignored) = ignored else {
        return Ok(());
    };
    write_on(
        event_writer,
        device,
        ledger,
        ms,
        port,
        Happening::Ignored(ignored),
    )
}

/// Writes those of a group set.
fn write_ignored_in<F: Family, W, T: EventWriter<F, W>>(
    event_writer: &T,
    device: &mut W,
    router: &Router<'_, F>,
    ledger: &Ledger<F>,
    packet: &HeardPacket<'_, F::Addr>,
    set: &SetView<'_, F>,
) -> Result<(), Failed>
    ensures bytes { AppendsAll (T.contents device.old) (T.contents device.new) result
        (text_on (T.line event_writer.now)
        (ledger_seen F.bytes_of ledger.now) router.now.machines.moment
        packet.now.port (ignored_in packet.now.frame (F.bytes_of packet.now.source)
        (rp_of F.family router.now.routes) set.now)) }
    ensures count { T.failures device.new ≡ failures_after (T.failures device.old) result }
{
    let ms = router.now();
    let group = set.group();
    for entry in set.joined() {
        let ignored = ignored_by::<F>(router, packet, group, entry);
        write_if_ignored(event_writer, device, ledger, ms, packet.port, ignored)?;
    }
    Ok(())
}

/// Writes those of the group sets of a message, in their order.
///
/// # Errors
/// The device failed: a front of what is written of them was written.
pub(crate) fn write_ignored<F: Family, W, T: EventWriter<F, W>>(
    event_writer: &T,
    device: &mut W,
    router: &Router<'_, F>,
    ledger: &Ledger<F>,
    packet: &HeardPacket<'_, F::Addr>,
    sets: Sets<'_, F>,
) -> Result<(), Failed>
    ensures bytes { AppendsAll (T.contents device.old) (T.contents device.new) result
        (text_on (T.line event_writer.now)
        (ledger_seen F.bytes_of ledger.now) router.now.machines.moment
        packet.now.port (all_ignored packet.now.frame (F.bytes_of packet.now.source)
        (rp_of F.family router.now.routes) sets.entry)) }
    ensures count { T.failures device.new ≡ failures_after (T.failures device.old) result }
{
    for set in sets {
        write_ignored_in(event_writer, device, router, ledger, packet, &set)?;
    }
    Ok(())
}
