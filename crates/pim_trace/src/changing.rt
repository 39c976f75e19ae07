//! The machines that a message changed.

ghost use Rattle.std.specs.Prelude.{◌≡◌, ◌<◌, [], ◌∷◌, length, OnOk};
ghost use Rattle.pim_device.specs.Device.{AppendsAll};
ghost use Rattle.pim_down.specs.Records.{state_of_machine};
ghost use Rattle.pim_router.specs.Packets.{neighbours_on};
ghost use Rattle.pim_events.specs.Events.{machine_changed, cause_seen, transition_seen};
ghost use Rattle.pim_transitions.specs.Affected.{transitions_to};
ghost use Rattle.pim_transitions.specs.Affected.{transition_seen as change_seen};
ghost use Rattle.pim_trace.specs.Heard.{as_cause, change_of, changes_of};
ghost use Rattle.pim_trace.specs.Ledger.{with_change, with_changes};
ghost use Rattle.pim_trace.specs.Kept.{ledger_seen};
ghost use Rattle.pim_trace.specs.Read.{packet_in};
ghost use Rattle.pim_run.specs.Faults.{failures_by};
ghost use Rattle.pim_trace.specs.WrittenEvents.{text_on};

use crate::hearing::HeardPacket;
use crate::ledger::Ledger;
use crate::writing_events::write_on;
use pim_addr::Family;
use pim_down::{Machine, State};
use pim_events::{Cause, EventWriter, Happening, TransitionEvent};
use pim_router::Router;
use pim_run::TurnFault;
use pim_transitions::{Affected, Transition};

/// A message that changed machines.
#[derive(Clone, Copy)]
struct Changer<A> {
    packet: Cause<A>,
    port: usize,
    /// The number of the port's neighbours.
    neighbours: usize,
}

/// The state of a machine; `None` is NoInfo.
fn state_of(machine: &Option<Machine>) -> Option<State>
    ensures { result ≡ state_of_machine machine.now }
{
    match machine {
        None => None,
        Some(machine) => Some(machine.state),
    }
}

/// A machine that a message changed, as an event.
fn change_of<F: Family>(
    ledger: &Ledger<F>,
    by: &Changer<F::Addr>,
    change: &Transition<F::Addr>,
) -> TransitionEvent<F::Addr>
    ensures { machine_changed (transition_seen F.bytes_of result)
        ≡ change_of (ledger_seen F.bytes_of ledger.now) (cause_seen F.bytes_of by.now.packet)
        by.now.neighbours (change_seen F.bytes_of change.now) }
{
    TransitionEvent {
        frame: by.packet.frame,
        from: by.packet.from,
        by: change.by,
        group: change.key.group,
        what: change.key.what,
        before: state_of(&change.before),
        after: change.after,
        neighbours: by.neighbours,
        overrides: ledger.overridden(change),
    }
}

/// Writes a machine that a message changed, and remembers the packet that set its timers.
fn write_change<F: Family, W, T: EventWriter<F, W>>(
    event_writer: &T,
    device: &mut W,
    ledger: &mut Ledger<F>,
    by: &Changer<F::Addr>,
    change: &Transition<F::Addr>,
) -> Result<(), TurnFault>
    ensures bytes { AppendsAll (T.contents device.old) (T.contents device.new) result
        (text_on (T.line event_writer.now) (ledger_seen F.bytes_of ledger.old) by.now.packet.ms
        by.now.port (change_of (ledger_seen F.bytes_of ledger.old)
        (cause_seen F.bytes_of by.now.packet) by.now.neighbours
        (change_seen F.bytes_of change.now) ∷ [])) }
    ensures ledger { OnOk result (ledger_seen F.bytes_of ledger.new
        ≡ with_change (cause_seen F.bytes_of by.now.packet) (change_seen F.bytes_of change.now)
        (ledger_seen F.bytes_of ledger.old)) }
    ensures frames { ledger.new.frames.items ≡ ledger.old.frames.items }
    ensures own { ledger.new.own.items ≡ ledger.old.own.items }
    ensures count { T.failures device.new ≡ failures_by (T.failures device.old) result }
{
    let event = Happening::Transition(change_of(ledger, by, change));
    let Ok(()) = write_on(event_writer, device, ledger, by.packet.ms, by.port, event) else {
        return Err(TurnFault::Output);
    };
    let Ok(()) = ledger.change(by.packet, change) else {
        return Err(TurnFault::Memory);
    };
    Ok(())
}

/// The number of neighbours of a port.
fn neighbour_count<F: Family>(router: &Router<'_, F>, port: usize) -> usize
    requires { port < length router.now.ports }
    ensures { result ≡ length (neighbours_on port router.now).entries }
{
    router.is_router();
    router.neighbour_count(port)
}

/// What a packet is to the machines that it changed.
fn changer_of<F: Family>(
    router: &Router<'_, F>,
    packet: &HeardPacket<'_, F::Addr>,
) -> Changer<F::Addr>
    requires { packet.now.port < length router.now.ports }
    ensures packet { cause_seen F.bytes_of result.packet
        ≡ as_cause packet.now.frame (packet_in F.bytes_of packet.now) router.now }
    ensures port { result.port ≡ packet.now.port }
    ensures neighbours { result.neighbours
        ≡ length (neighbours_on packet.now.port router.now).entries }
{
    Changer {
        packet: Cause {
            frame: packet.frame,
            from: packet.source,
            ms: router.now(),
        },
        port: packet.port,
        neighbours: neighbour_count(router, packet.port),
    }
}

/// Writes the machines that a message changed, in key order, and remembers the packets that set
/// their timers. They are written after the router took the message.
///
/// # Errors
/// The device failed, or memory was refused: a front of what is written of them was written.
pub(crate) fn write_changes<F: Family, W, T: EventWriter<F, W>>(
    event_writer: &T,
    device: &mut W,
    router: &Router<'_, F>,
    ledger: &mut Ledger<F>,
    packet: &HeardPacket<'_, F::Addr>,
    affected: &Affected<F>,
) -> Result<(), TurnFault>
    requires { packet.now.port < length router.now.ports }
    ensures bytes { AppendsAll (T.contents device.old) (T.contents device.new) result
        (text_on (T.line event_writer.now)
        (ledger_seen F.bytes_of ledger.old) router.now.machines.moment
        packet.now.port (changes_of (ledger_seen F.bytes_of ledger.old)
        (as_cause packet.now.frame (packet_in F.bytes_of packet.now) router.now)
        (length (neighbours_on packet.now.port router.now).entries)
        (transitions_to router.now.machines.records affected.now))) }
    ensures ledger { OnOk result (ledger_seen F.bytes_of ledger.new
        ≡ with_changes (as_cause packet.now.frame (packet_in F.bytes_of packet.now) router.now)
        (transitions_to router.now.machines.records affected.now)
        (ledger_seen F.bytes_of ledger.old)) }
    ensures frames { ledger.new.frames.items ≡ ledger.old.frames.items }
    ensures own { ledger.new.own.items ≡ ledger.old.own.items }
    ensures count { T.failures device.new ≡ failures_by (T.failures device.old) result }
{
    let by = changer_of(router, packet);
    for change in affected.changes(router.ports()) {
        write_change(event_writer, device, ledger, &by, &change)?;
    }
    Ok(())
}
