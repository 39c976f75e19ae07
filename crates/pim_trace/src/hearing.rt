//! A packet that a port receives: the router takes it, and the trace says what it did.
//!
//! The message is read once: the router takes it, and the trace says what it is beside the verdict.
//! The machines that a message may change are looked up only if it is for this router.

ghost use Rattle.std.specs.Prelude.{◌≡◌, ◌<◌, ◌^◌, [], ◌∷◌, None, nat_eq, length, IfOk, OnOk};
ghost use Rattle.std.specs.Prelude.{slice_index_or};
ghost use Rattle.std.specs.Cmp.Lexicographic.{pointwise};
ghost use Rattle.pim_device.specs.Device.{AppendsAll};
ghost use Rattle.pim_hello.specs.Neighbours.{neighbour_at};
ghost use Rattle.pim_router.specs.Packets.{received, own_address, neighbours_on};
ghost use Rattle.pim_router.specs.State.{setup_of};
ghost use Rattle.pim_events.specs.Events.{hello_heard, greeting_seen};
ghost use Rattle.pim_transitions.specs.Affected.{transitions_to};
ghost use Rattle.pim_trace.specs.Heard.{HearsPacket, generation_of, judgment, restart_of};
ghost use Rattle.pim_trace.specs.Heard.{as_cause, sent_by, message_says, records_after};
ghost use Rattle.pim_trace.specs.Heard.{AreTransitionsOf};
ghost use Rattle.pim_trace.specs.Ledger.{with_own, with_hello, with_changes};
ghost use Rattle.pim_trace.specs.Kept.{ledger_seen};
ghost use Rattle.pim_hello.specs.Seen.{hello_seen};
ghost use Rattle.pim_router.specs.Reading.{reading_seen, read_hello, read_message, packet_read};
ghost use Rattle.pim_trace.specs.Read.{packet_in, IsForOther, is_applied};
ghost use Rattle.pim_trace.specs.Reading.{hello_in, message_in, message_read};
ghost use Rattle.pim_run.specs.Faults.{failures_by};
ghost use Rattle.pim_trace.specs.WrittenEvents.{Writes, text_on};

use crate::changing::write_changes;
use crate::ignoring::write_ignored;
use crate::ledger::{Ledger, Sent};
use crate::writing_events::write_on;
use pim_addr::Family;
use pim_capture::RecordPlace;
use pim_events::{EventWriter, Greeting, Happening, Judgment, OwnRestart};
use pim_hello::{Heard, Hello};
use pim_jp::{JpView, Sets};
use pim_router::laws::packet_is_taken_as_read;
use pim_router::{PimMessage, Router, Verdict, read_message};
use pim_run::TurnFault;
use pim_transitions::Affected;
use pim_transitions::laws::{candidates_show_transitions, transitions_are_there};
use std::alloc::{AllocError, Global};

/// A packet of the router's family, as a capture has it.
#[derive(Clone, Copy)]
pub(crate) struct HeardPacket<'a, A> {
    /// The port that receives it.
    pub(crate) port: usize,
    /// The place of its record.
    pub(crate) frame: RecordPlace,
    pub(crate) source: A,
    pub(crate) destination: A,
    /// The PIM message.
    pub(crate) bytes: &'a [u8],
}

/// What is written of a message that is applied: its group sets, and the machines that it may
/// change.
#[derive(Drop)]
struct Effects<'m, F: Family> {
    sets: Sets<'m, F>,
    affected: Affected<F>,
}

/// Lets the router take a packet whose message was read.
fn take<F: Family>(
    router: &mut Router<'_, F>,
    packet: &HeardPacket<'_, F::Addr>,
    message: &PimMessage<'_, F>,
) -> Result<Verdict, AllocError>
    requires port { packet.now.port < length router.old.ports }
    requires read { packet_read F.family (packet_in F.bytes_of packet.now)
        ≡ reading_seen F.family message.now }
    ensures reported { IfOk result (λ verdict.
        (verdict, router.new) ≡ received F.family (packet_in F.bytes_of packet.now) router.old) }
    ensures setup { setup_of router.new ≡ setup_of router.old }
    ensures moment { router.new.machines.moment ≡ router.old.machines.moment }
{
    packet_is_taken_as_read();
    router.take_read(packet.port, packet.source, message)
}

/// The Generation ID that is kept of the packet's sender.
fn generation_kept<F: Family>(
    router: &Router<'_, F>,
    packet: &HeardPacket<'_, F::Addr>,
) -> Option<u32>
    requires { packet.now.port < length router.now.ports }
    ensures { result ≡ generation_of
        (neighbour_at (F.bytes_of packet.now.source) (neighbours_on packet.now.port router.now)) }
{
    router.is_router();
    match router.neighbour(packet.port, packet.source) {
        Some(known) => known.parameters.generation,
        None => None,
    }
}

/// Whether a message names the port's address as its upstream neighbour.
fn is_for_port<F: Family>(router: &Router<'_, F>, port: usize, message: &JpView<'_, F>) -> bool
    requires { port < length router.now.ports }
    ensures { result ≡ pointwise nat_eq message.now.upstream (own_address port router.now) }
{
    message.upstream() == router.port(port).address
}

// ---- Hellos

/// Remembers a Hello that was taken at this moment, or forgets its sender at a goodbye.
fn remember_hello<F: Family>(
    ledger: &mut Ledger<F>,
    ms: u64,
    port: usize,
    greeting: &Greeting<F::Addr>,
) -> Result<(), AllocError>
    ensures ledger { OnOk result (ledger_seen F.bytes_of ledger.new
        ≡ with_hello port (F.bytes_of greeting.now.from)
        (sent_by greeting.now.frame ms greeting.now.verdict) (ledger_seen F.bytes_of ledger.old)) }
    ensures frames { ledger.new.frames.items ≡ ledger.old.frames.items }
    ensures own { ledger.new.own.items ≡ ledger.old.own.items }
{
    let sent = Sent {
        frame: greeting.frame,
        ms,
    };
    match greeting.verdict {
        Heard::Gone => {
            let _last = ledger.forget_neighbour(port, greeting.from);
            Ok(())
        }
        _ => ledger.hear_hello(port, greeting.from, sent),
    }
}

/// Writes a Hello that was taken, and remembers it.
fn greet<F: Family, W, T: EventWriter<F, W>>(
    event_writer: &T,
    device: &mut W,
    ledger: &mut Ledger<F>,
    ms: u64,
    port: usize,
    greeting: Greeting<F::Addr>,
) -> Result<(), TurnFault>
    ensures bytes { AppendsAll (T.contents device.old) (T.contents device.new) result
        (text_on (T.line event_writer.now) (ledger_seen F.bytes_of ledger.old) ms port
        (hello_heard (greeting_seen F.bytes_of greeting) ∷ [])) }
    ensures ledger { OnOk result (ledger_seen F.bytes_of ledger.new
        ≡ with_hello port (F.bytes_of greeting.from) (sent_by greeting.frame ms greeting.verdict)
        (ledger_seen F.bytes_of ledger.old)) }
    ensures frames { ledger.new.frames.items ≡ ledger.old.frames.items }
    ensures own { ledger.new.own.items ≡ ledger.old.own.items }
    ensures count { T.failures device.new ≡ failures_by (T.failures device.old) result }
{
    let event = Happening::Hello(greeting);
    let Ok(()) = write_on(event_writer, device, ledger, ms, port, event) else {
        return Err(TurnFault::Output);
    };
    let Ok(()) = remember_hello(ledger, ms, port, &greeting) else {
        return Err(TurnFault::Memory);
    };
    Ok(())
}

/// Writes the verdict on a packet that is no Join/Prune message.
fn write_verdict<F: Family, W, T: EventWriter<F, W>>(
    event_writer: &T,
    device: &mut W,
    ledger: &Ledger<F>,
    ms: u64,
    packet: &HeardPacket<'_, F::Addr>,
    verdict: Verdict,
) -> Result<(), TurnFault>
    requires { message_read F.family (packet_in F.bytes_of packet.now) ≡ None }
    ensures bytes { AppendsAll (T.contents device.old) (T.contents device.new) result
        (text_on (T.line event_writer.now) (ledger_seen F.bytes_of ledger.now) ms packet.now.port
        (judgment F.family packet.now.frame (packet_in F.bytes_of packet.now) verdict ∷ [])) }
    ensures count { T.failures device.new ≡ failures_by (T.failures device.old) result }
{
    let event = Happening::Packet(Judgment {
        frame: packet.frame,
        from: packet.source,
        verdict,
        message: None,
    });
    let Ok(()) = write_on(event_writer, device, ledger, ms, packet.port, event) else {
        return Err(TurnFault::Output);
    };
    Ok(())
}

/// Remembers a Hello of the port's own address. Returns whether its Generation ID is another than
/// that of the Hello before it.
fn write_restart<F: Family, W, T: EventWriter<F, W>>(
    event_writer: &T,
    device: &mut W,
    ledger: &mut Ledger<F>,
    ms: u64,
    packet: &HeardPacket<'_, F::Addr>,
    generation: Option<u32>,
) -> Result<(), TurnFault>
    requires { packet.now.port < length ledger.old.own.items }
    ensures bytes { AppendsAll (T.contents device.old) (T.contents device.new) result
        (text_on (T.line event_writer.now) (ledger_seen F.bytes_of ledger.old) ms packet.now.port
        (restart_of packet.now.frame (slice_index_or ledger.old.own.items packet.now.port None)
        generation)) }
    ensures ledger { ledger_seen F.bytes_of ledger.new
        ≡ with_own packet.now.port generation (ledger_seen F.bytes_of ledger.old) }
    ensures count { T.failures device.new ≡ failures_by (T.failures device.old) result }
{
    let Some(was) = ledger.send_own(packet.port, generation) else {
        return Ok(());
    };
    if was == generation {
        return Ok(());
    }
    let restart = Happening::Restarted(OwnRestart {
        frame: packet.frame,
        was,
        generation,
    });
    let Ok(()) = write_on(event_writer, device, ledger, ms, packet.port, restart) else {
        return Err(TurnFault::Output);
    };
    Ok(())
}

/// The port's own address sent a Hello with this Generation ID.
fn hear_own<F: Family, W, T: EventWriter<F, W>>(
    event_writer: &T,
    device: &mut W,
    ledger: &mut Ledger<F>,
    ms: u64,
    packet: &HeardPacket<'_, F::Addr>,
    generation: Option<u32>,
) -> Result<(), TurnFault>
    requires own { packet.now.port < length ledger.old.own.items }
    requires message { message_read F.family (packet_in F.bytes_of packet.now) ≡ None }
    ensures bytes { AppendsAll (T.contents device.old) (T.contents device.new) result
        (text_on (T.line event_writer.now) (ledger_seen F.bytes_of ledger.old) ms packet.now.port
        (judgment F.family packet.now.frame (packet_in F.bytes_of packet.now) Verdict.Mine
        ∷ restart_of packet.now.frame (slice_index_or ledger.old.own.items packet.now.port None)
        generation)) }
    ensures ledger { OnOk result (ledger_seen F.bytes_of ledger.new
        ≡ with_own packet.now.port generation (ledger_seen F.bytes_of ledger.old)) }
    ensures frames { ledger.new.frames.items ≡ ledger.old.frames.items }
    ensures own { length ledger.new.own.items ≡ length ledger.old.own.items }
    ensures count { T.failures device.new ≡ failures_by (T.failures device.old) result }
{
    write_verdict(event_writer, device, ledger, ms, packet, Verdict::Mine)?;
    write_restart(event_writer, device, ledger, ms, packet, generation)
}

/// A port receives a Hello.
fn hear_hello<F: Family, W, T: EventWriter<F, W>>(
    event_writer: &T,
    device: &mut W,
    router: &mut Router<'_, F>,
    ledger: &mut Ledger<F>,
    packet: &HeardPacket<'_, F::Addr>,
    hello: Hello<'_, F>,
) -> Result<(), TurnFault>
    requires port { packet.now.port < length router.old.ports }
    requires own { packet.now.port < length ledger.old.own.items }
    requires read { packet_read F.family (packet_in F.bytes_of packet.now)
        ≡ read_hello (hello_seen F.family hello) }
    ensures reported { Writes (T.line event_writer.now)
        (HearsPacket F.family packet.now.frame (packet_in F.bytes_of packet.now)
        (ledger_seen F.bytes_of ledger.old) router.old)
        (ledger_seen F.bytes_of ledger.new) router.new (T.contents device.old)
        (T.contents device.new) result }
    ensures count { T.failures device.new ≡ failures_by (T.failures device.old) result }
    ensures setup { setup_of router.new ≡ setup_of router.old }
    ensures moment { router.new.machines.moment ≡ router.old.machines.moment }
    ensures frames { ledger.new.frames.items ≡ ledger.old.frames.items }
    ensures own { length ledger.new.own.items ≡ length ledger.old.own.items }
{
    let ms = router.now();
    let was = generation_kept(router, packet);
    let generation = hello.generation;
    let Ok(verdict) = take(router, packet, &PimMessage::Hello(hello)) else {
        return Err(TurnFault::Memory);
    };
    match verdict {
        Verdict::HelloTaken(heard) => {
            let greeting = Greeting {
                frame: packet.frame,
                from: packet.source,
                verdict: heard,
                was,
                generation,
            };
            greet(event_writer, device, ledger, ms, packet.port, greeting)
        }
        Verdict::Mine => hear_own(event_writer, device, ledger, ms, packet, generation),
        _ => write_verdict(event_writer, device, ledger, ms, packet, verdict),
    }
}

// ---- other packets

/// Whether a message was applied.
fn is_applied(verdict: Verdict) -> bool
    ensures { result ≡ is_applied verdict }
{
    matches!(verdict, Verdict::Applied)
}

/// The Join/Prune message, if it is one.
fn join_prune_in<'m, F: Family>(message: PimMessage<'m, F>) -> Option<JpView<'m, F>>
    ensures { result ≡ message_in (reading_seen F.family message.entry) }
{
    match message {
        PimMessage::JoinPrune(message) => Some(message),
        _ => None,
    }
}

/// Lets the router take a packet that is no Hello, and writes the verdict. Returns whether it was
/// applied.
fn judge<F: Family, W, T: EventWriter<F, W>>(
    event_writer: &T,
    device: &mut W,
    router: &mut Router<'_, F>,
    ledger: &Ledger<F>,
    packet: &HeardPacket<'_, F::Addr>,
    message: PimMessage<'_, F>,
) -> Result<bool, TurnFault>
    requires port { packet.now.port < length router.old.ports }
    requires read { packet_read F.family (packet_in F.bytes_of packet.now)
        ≡ reading_seen F.family message }
    ensures bytes { AppendsAll (T.contents device.old) (T.contents device.new) result
        (text_on (T.line event_writer.now)
        (ledger_seen F.bytes_of ledger.now) router.old.machines.moment
        packet.now.port (judgment F.family packet.now.frame (packet_in F.bytes_of packet.now)
        (received F.family (packet_in F.bytes_of packet.now) router.old).0 ∷ [])) }
    ensures router { OnOk result (router.new ≡
        (received F.family (packet_in F.bytes_of packet.now) router.old).1) }
    ensures applied { IfOk result (λ applied. applied ≡
        is_applied (received F.family (packet_in F.bytes_of packet.now) router.old).0) }
    ensures count { T.failures device.new ≡ failures_by (T.failures device.old) result }
    ensures setup { setup_of router.new ≡ setup_of router.old }
    ensures moment { router.new.machines.moment ≡ router.old.machines.moment }
{
    let ms = router.now();
    let Ok(verdict) = take(router, packet, &message) else {
        return Err(TurnFault::Memory);
    };
    let event = Happening::Packet(Judgment {
        frame: packet.frame,
        from: packet.source,
        verdict,
        message: join_prune_in(message),
    });
    let Ok(()) = write_on(event_writer, device, ledger, ms, packet.port, event) else {
        return Err(TurnFault::Output);
    };
    Ok(is_applied(verdict))
}

/// The machines that a message may change which the router takes next. Those of them that differ
/// afterwards are its transitions.
fn affected_by<F: Family>(
    alloc: Global,
    router: &Router<'_, F>,
    port: usize,
    message: &JpView<'_, F>,
) -> Result<Affected<F>, AllocError>
    ensures { IfOk result (λ affected. AreTransitionsOf F.family port router.now message.now
        (transitions_to (records_after F.family port router.now message.now) affected)) }
{
    candidates_show_transitions();
    let ports = router.ports();
    ports.is_sound();
    Affected::of(alloc, ports, port, message, router.routes())
}

/// Writes what a message did that was applied.
fn write_effects<F: Family, W, T: EventWriter<F, W>>(
    event_writer: &T,
    device: &mut W,
    router: &Router<'_, F>,
    ledger: &mut Ledger<F>,
    packet: &HeardPacket<'_, F::Addr>,
    effects: Effects<'_, F>,
) -> Result<(), TurnFault>
    requires { packet.now.port < length router.now.ports }
    ensures bytes { AppendsAll (T.contents device.old) (T.contents device.new) result
        (text_on (T.line event_writer.now)
        (ledger_seen F.bytes_of ledger.old) router.now.machines.moment
        packet.now.port (message_says F.family packet.now.frame (packet_in F.bytes_of packet.now)
        router.now (ledger_seen F.bytes_of ledger.old) effects.entry.sets
        (transitions_to router.now.machines.records effects.entry.affected))) }
    ensures ledger { OnOk result (ledger_seen F.bytes_of ledger.new
        ≡ with_changes (as_cause packet.now.frame (packet_in F.bytes_of packet.now) router.now)
        (transitions_to router.now.machines.records effects.entry.affected)
        (ledger_seen F.bytes_of ledger.old)) }
    ensures frames { ledger.new.frames.items ≡ ledger.old.frames.items }
    ensures own { ledger.new.own.items ≡ ledger.old.own.items }
    ensures count { T.failures device.new ≡ failures_by (T.failures device.old) result }
{
    let Effects { sets, affected } = effects;
    let Ok(()) = write_ignored(event_writer, device, router, ledger, packet, sets) else {
        return Err(TurnFault::Output);
    };
    write_changes(event_writer, device, router, ledger, packet, &affected)
}

/// A port receives a Join/Prune message.
fn hear_message<F: Family, W, T: EventWriter<F, W>>(
    event_writer: &T,
    device: &mut W,
    router: &mut Router<'_, F>,
    ledger: &mut Ledger<F>,
    packet: &HeardPacket<'_, F::Addr>,
    message: JpView<'_, F>,
) -> Result<(), TurnFault>
    requires port { packet.now.port < length router.old.ports }
    requires read { packet_read F.family (packet_in F.bytes_of packet.now) ≡ read_message message }
    ensures reported { Writes (T.line event_writer.now)
        (HearsPacket F.family packet.now.frame (packet_in F.bytes_of packet.now)
        (ledger_seen F.bytes_of ledger.old) router.old)
        (ledger_seen F.bytes_of ledger.new) router.new (T.contents device.old)
        (T.contents device.new) result }
    ensures count { T.failures device.new ≡ failures_by (T.failures device.old) result }
    ensures setup { setup_of router.new ≡ setup_of router.old }
    ensures moment { router.new.machines.moment ≡ router.old.machines.moment }
    ensures frames { ledger.new.frames.items ≡ ledger.old.frames.items }
    ensures own { ledger.new.own.items ≡ ledger.old.own.items }
{
    transitions_are_there();
    let sets = message.sets();
    let Ok(affected) = affected_by(ledger.alloc(), router, packet.port, &message) else {
        return Err(TurnFault::Memory);
    };
    let effects = Effects { sets, affected };
    let message = PimMessage::JoinPrune(message);
    let applied = judge(event_writer, device, router, ledger, packet, message)?;
    if !applied {
        return Ok(());
    }
    write_effects(event_writer, device, router, ledger, packet, effects)
}

/// A port receives a packet that is neither a Hello nor a message for it.
fn hear_other<F: Family, W, T: EventWriter<F, W>>(
    event_writer: &T,
    device: &mut W,
    router: &mut Router<'_, F>,
    ledger: &Ledger<F>,
    packet: &HeardPacket<'_, F::Addr>,
    message: PimMessage<'_, F>,
) -> Result<(), TurnFault>
    requires port { packet.now.port < length router.old.ports }
    requires read { packet_read F.family (packet_in F.bytes_of packet.now)
        ≡ reading_seen F.family message }
    requires none { hello_in (reading_seen F.family message) ≡ None }
    requires other { IsForOther (own_address packet.now.port router.old)
        (message_in (reading_seen F.family message)) }
    ensures reported { Writes (T.line event_writer.now)
        (HearsPacket F.family packet.now.frame (packet_in F.bytes_of packet.now)
        (ledger_seen F.bytes_of ledger.now) router.old)
        (ledger_seen F.bytes_of ledger.now) router.new (T.contents device.old)
        (T.contents device.new) result }
    ensures count { T.failures device.new ≡ failures_by (T.failures device.old) result }
    ensures setup { setup_of router.new ≡ setup_of router.old }
    ensures moment { router.new.machines.moment ≡ router.old.machines.moment }
{
    match judge(event_writer, device, router, ledger, packet, message) {
        Ok(_) => Ok(()),
        Err(fault) => Err(fault),
    }
}

/// A port receives a packet: the router takes it, and the teller gets its events.
///
/// # Errors
/// The device failed, or memory was refused: some of the events were written.
pub(crate) fn hear_packet<F: Family, W, T: EventWriter<F, W>>(
    event_writer: &T,
    device: &mut W,
    router: &mut Router<'_, F>,
    ledger: &mut Ledger<F>,
    packet: &HeardPacket<'_, F::Addr>,
) -> Result<(), TurnFault>
    requires port { packet.now.port < length router.old.ports }
    requires own { packet.now.port < length ledger.old.own.items }
    requires bytes { length packet.now.bytes.now < 2 ^ 32 }
    ensures reported { Writes (T.line event_writer.now)
        (HearsPacket F.family packet.now.frame (packet_in F.bytes_of packet.now)
        (ledger_seen F.bytes_of ledger.old) router.old)
        (ledger_seen F.bytes_of ledger.new) router.new (T.contents device.old)
        (T.contents device.new) result }
    ensures count { T.failures device.new ≡ failures_by (T.failures device.old) result }
    ensures setup { setup_of router.new ≡ setup_of router.old }
    ensures moment { router.new.machines.moment ≡ router.old.machines.moment }
    ensures frames { ledger.new.frames.items ≡ ledger.old.frames.items }
    ensures own { length ledger.new.own.items ≡ length ledger.old.own.items }
{
    match read_message::<F>(packet.source, packet.destination, packet.bytes) {
        PimMessage::Hello(hello) => hear_hello(event_writer, device, router, ledger, packet, hello),
        PimMessage::JoinPrune(message) => {
            if is_for_port(router, packet.port, &message) {
                return hear_message(event_writer, device, router, ledger, packet, message);
            }
            let message = PimMessage::JoinPrune(message);
            hear_other(event_writer, device, router, ledger, packet, message)
        }
        other => hear_other(event_writer, device, router, ledger, packet, other),
    }
}
