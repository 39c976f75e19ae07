//! Writes the state at the end of a run: the machines that the router holds, then what it wants.
//!
//! What is wanted is a normal form of `pim_form`. Its lines have the order of a replay's demand.

ghost use Rattle.std.specs.Prelude.{◌≡◌, map, option_map};
ghost use Rattle.std.specs.List.{flat_map};
ghost use Rattle.pim_device.specs.Device.{AppendsAll, failures_after};
ghost use Rattle.pim_down.specs.Seen.{record_of_seen};
ghost use Rattle.pim_events.specs.Events.{held_seen, wanted_seen};
ghost use Rattle.pim_events.specs.declared.event.WantedWhat.TheVariants.{Except};
ghost use Rattle.pim_trace.specs.Kept.{ledger_seen};
ghost use Rattle.pim_trace.specs.StateEvents.{held_machine, held_events, wanted_event, wanted_of};
ghost use Rattle.pim_trace.specs.StateEvents.{star_entries, source_entry, group_entries};
ghost use Rattle.pim_trace.specs.StateEvents.{demand_entries, state_events};
ghost use Rattle.pim_trace.specs.WrittenEvents.{wanted_text};

use crate::ledger::Ledger;
use crate::writing_events::write_on;
use pim_addr::{Failed, Family, Routes};
use pim_down::Record;
use pim_events::{EventWriter, Happening, HeldMachine, TraceEvent, WantedEntry, WantedWhat};
use pim_form::{GroupView, NormalForm, Tree, rpf_neighbour};
use pim_router::Router;

/// When the events of a state happen.
#[derive(Clone, Copy)]
struct Moment {
    /// The moment, in milliseconds.
    ms: u64,
    /// The same time, in milliseconds since 1970.
    epoch: Option<u64>,
}

/// A machine that is held at this moment, as an event.
fn held_machine<F: Family>(
    ledger: &Ledger<F>,
    ms: u64,
    reported: &Record<F::Addr>,
) -> HeldMachine<F::Addr>
    ensures { held_seen F.bytes_of result ≡ held_machine (ledger_seen F.bytes_of ledger.now) ms
        (record_of_seen F.bytes_of reported.now) }
{
    let causes = ledger.causes_of(&reported.key);
    HeldMachine {
        group: reported.key.group,
        what: reported.key.what,
        machine: reported.machine,
        held_for: ms.saturating_sub(causes.since),
        cause: causes.expiry,
    }
}

/// Writes the machines that the router holds, in key order.
fn write_held<F: Family, W, T: EventWriter<F, W>>(
    event_writer: &T,
    device: &mut W,
    router: &Router<'_, F>,
    ledger: &Ledger<F>,
) -> Result<(), Failed>
    ensures bytes { AppendsAll (T.contents device.old) (T.contents device.new) result
        (flat_map (T.line event_writer.now)
        (held_events (ledger_seen F.bytes_of ledger.now) router.now)) }
    ensures count { T.failures device.new ≡ failures_after (T.failures device.old) result }
{
    let ms = router.now();
    for reported in router.ports().records() {
        let held = Happening::Held(held_machine(ledger, ms, &reported));
        write_on(event_writer, device, ledger, ms, reported.key.port, held)?;
    }
    Ok(())
}

/// Writes what is wanted of a group from one upstream neighbour.
fn write_entry<F: Family, W, T: EventWriter<F, W>>(
    event_writer: &T,
    device: &mut W,
    at: &Moment,
    entry: WantedEntry<F::Addr>,
) -> Result<(), Failed>
    ensures bytes { AppendsAll (T.contents device.old) (T.contents device.new) result
        (T.line event_writer.now (wanted_event at.now.ms at.now.epoch
        (wanted_seen F.bytes_of entry))) }
    ensures count { T.failures device.new ≡ failures_after (T.failures device.old) result }
{
    let event = TraceEvent {
        ms: at.ms,
        epoch: at.epoch,
        port: None,
        what: Happening::Wanted(entry),
    };
    event_writer.write_event(device, &event)
}

/// Writes the exceptions of a group's star, which all have the upstream neighbour of the star.
fn write_exceptions<F: Family, W, T: EventWriter<F, W>>(
    event_writer: &T,
    device: &mut W,
    at: &Moment,
    group: F::Addr,
    via: Option<F::Addr>,
    exceptions: &[F::Addr],
) -> Result<(), Failed>
    ensures bytes { AppendsAll (T.contents device.old) (T.contents device.new) result
        (wanted_text (T.line event_writer.now) at.now.ms at.now.epoch
        (map (λ source. wanted_of (F.bytes_of group) (option_map F.bytes_of via) (Except source))
        (map F.bytes_of exceptions.now))) }
    ensures count { T.failures device.new ≡ failures_after (T.failures device.old) result }
{
    for &source in exceptions {
        let what = WantedWhat::Except(source);
        write_entry(event_writer, device, at, WantedEntry { group, what, via })?;
    }
    Ok(())
}

/// Writes a group's star and its exceptions, if the group has a star.
fn write_star<F: Family, W, T: EventWriter<F, W>>(
    event_writer: &T,
    device: &mut W,
    at: &Moment,
    routes: &Routes<F>,
    this: &GroupView<'_, F>,
) -> Result<(), Failed>
    ensures bytes { AppendsAll (T.contents device.old) (T.contents device.new) result
        (wanted_text (T.line event_writer.now) at.now.ms at.now.epoch
        (star_entries F.family routes.now this.now.group this.now.star)) }
    ensures count { T.failures device.new ≡ failures_after (T.failures device.old) result }
{
    if !this.star() {
        return Ok(());
    }
    let group = this.group();
    let via = rpf_neighbour::<F>(routes, group, group, Tree::Shared);
    let what = WantedWhat::Star;
    write_entry(event_writer, device, at, WantedEntry { group, what, via })?;
    write_exceptions(event_writer, device, at, group, via, this.exceptions())
}

/// Writes the sources of a group that are wanted on their own trees.
fn write_sources<F: Family, W, T: EventWriter<F, W>>(
    event_writer: &T,
    device: &mut W,
    at: &Moment,
    routes: &Routes<F>,
    group: F::Addr,
    sources: &[F::Addr],
) -> Result<(), Failed>
    ensures bytes { AppendsAll (T.contents device.old) (T.contents device.new) result
        (wanted_text (T.line event_writer.now) at.now.ms at.now.epoch
        (map (source_entry F.family routes.now (F.bytes_of group))
        (map F.bytes_of sources.now))) }
    ensures count { T.failures device.new ≡ failures_after (T.failures device.old) result }
{
    for &source in sources {
        let what = WantedWhat::Source(source);
        let via = routes.via(source);
        write_entry(event_writer, device, at, WantedEntry { group, what, via })?;
    }
    Ok(())
}

/// Writes what is wanted of a group.
fn write_group<F: Family, W, T: EventWriter<F, W>>(
    event_writer: &T,
    device: &mut W,
    at: &Moment,
    routes: &Routes<F>,
    this: &GroupView<'_, F>,
) -> Result<(), Failed>
    ensures bytes { AppendsAll (T.contents device.old) (T.contents device.new) result
        (wanted_text (T.line event_writer.now) at.now.ms at.now.epoch
        (group_entries F.family routes.now this.now)) }
    ensures count { T.failures device.new ≡ failures_after (T.failures device.old) result }
{
    write_star(event_writer, device, at, routes, this)?;
    write_sources(
        event_writer,
        device,
        at,
        routes,
        this.group(),
        this.sources(),
    )
}

/// Writes what is wanted of all groups, in the order of the normal form.
fn write_demand<F: Family, W, T: EventWriter<F, W>>(
    event_writer: &T,
    device: &mut W,
    at: &Moment,
    routes: &Routes<F>,
    form: &NormalForm<F>,
) -> Result<(), Failed>
    ensures bytes { AppendsAll (T.contents device.old) (T.contents device.new) result
        (wanted_text (T.line event_writer.now) at.now.ms at.now.epoch
        (demand_entries F.family routes.now form.now)) }
    ensures count { T.failures device.new ≡ failures_after (T.failures device.old) result }
{
    for group in form.groups() {
        write_group(event_writer, device, at, routes, &group)?;
    }
    Ok(())
}

/// Writes the state of the router, where this is the normal form of its demand: the machines that
/// the router holds, in key order, then what it wants.
///
/// # Errors
/// The device failed: a front of what is written of the state was written.
pub(crate) fn write_state<F: Family, W, T: EventWriter<F, W>>(
    event_writer: &T,
    device: &mut W,
    router: &Router<'_, F>,
    ledger: &Ledger<F>,
    form: &NormalForm<F>,
) -> Result<(), Failed>
    ensures bytes { AppendsAll (T.contents device.old) (T.contents device.new) result
        (flat_map (T.line event_writer.now)
        (state_events F.family (ledger_seen F.bytes_of ledger.now) router.now form.now)) }
    ensures count { T.failures device.new ≡ failures_after (T.failures device.old) result }
{
    let ms = router.now();
    let epoch = ledger.epoch(ms);
    let at = Moment { ms, epoch };
    write_held(event_writer, device, router, ledger)?;
    write_demand(event_writer, device, &at, router.routes(), form)
}
