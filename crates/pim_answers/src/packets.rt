//! The commands by which a packet arrives: `packet`, and `from` with the text of a message.

ghost use Rattle.std.specs.Prelude.{◌≡◌, ◌<◌, ◌≤◌, ◌^◌, ◌*◌, ◌++◌, ◌∷◌, [], true, false, length};
ghost use Rattle.std.specs.Prelude.{None, IfOk, IfErr, IfSome, IfNone};
ghost use Rattle.pim_device.specs.Device.{AppendsAll, failures_after};
ghost use Rattle.pim_text.specs.Spell.{stated_in};
ghost use Rattle.pim_request.specs.Forms.{IsHex};
ghost use Rattle.pim_router.specs.Seen.{packet_seen};
ghost use Rattle.pim_report.specs.PacketLine.{verdict_line};
ghost use Rattle.pim_answers.specs.Answered.{OrMemoryIf, Answered};
ghost use Rattle.pim_answers.specs.Families.{differ_from};
ghost use Rattle.pim_answers.specs.Lines.{ok_line};
ghost use Rattle.pim_answers.specs.Packets.{Takes, NeedsMemory, AnswersPacket, addresses_of};
ghost use Rattle.pim_answers.specs.Packets.{room_limit, IsMessageOf, AnswersFrom};
ghost use Rattle.pim_answers.specs.PacketsSeen.{IsPort, AreEnds, AreEndsOf, has_other_family};
ghost use Rattle.pim_answers.specs.PacketsSeen.{IsFillFault};

use crate::fault::{AnswerFault, write_fault, write_ok};
use crate::room::Room;
use pim_addr::{Drain, Failed, Family};
use pim_frame::all_routers;
use pim_lines::{AnyAddress, of_family};
use pim_report::write_verdict_line;
use pim_request::{Packet, Sender};
use pim_router::{Router, Verdict};
use pim_text::{Stated, TextFault, spell, stated_in};
use std::alloc::Global;

/// A packet whose message is given as a text.
#[derive(Clone, Copy, Debug)]
pub struct FromText<'a> {
    /// The port, the source and the destination.
    pub sender: Sender,
    /// The families of the addresses in the text.
    pub stated: Stated,
    /// The text, which states a message.
    pub text: &'a [u8],
}

/// The source and the destination of a packet, in the router's family.
#[derive(Clone, Copy, Debug)]
struct AnswerEnds<A> {
    source: A,
    destination: A,
}

/// The source and the destination in the family, if both are of it.
fn both_of<F: Family>(source: AnyAddress, destination: AnyAddress) -> Option<AnswerEnds<F::Addr>>
    ensures ends { IfSome result (AreEnds F.bytes_of source destination) }
    ensures same { IfSome result (λ _. differ_from F.family (source ∷ destination ∷ []) ≡ false) }
    ensures other { IfNone result (differ_from F.family (source ∷ destination ∷ []) ≡ true) }
{
    Some(AnswerEnds {
        source: of_family::<F>(source)?,
        destination: of_family::<F>(destination)?,
    })
}

/// The port with this number, where there are `count` ports.
fn port_of(port: u64, count: usize) -> Result<usize, AnswerFault<'static>>
    ensures { IsPort port count result }
{
    if port < count as u64 {
        Ok(port as usize)
    } else {
        Err(AnswerFault::numbered(b"port ", port))
    }
}

/// Writes the line of a verdict, and `ok`.
fn answer_verdict<W: Drain>(answers: &mut W, verdict: Verdict) -> Result<(), Failed>
    ensures bytes { AppendsAll (W.contents answers.old) (W.contents answers.new) result
        (verdict_line verdict ++ ok_line) }
    ensures count { W.failures answers.new ≡ failures_after (W.failures answers.old) result }
{
    write_verdict_line(answers, verdict)?;
    write_ok(answers)
}

/// The port takes a packet, and the verdict is the answer. No timer fires.
fn take<F: Family, W: Drain>(
    router: &mut Router<'_, F>,
    port: usize,
    ends: AnswerEnds<F::Addr>,
    message: &[u8],
    answers: &mut W,
) -> Result<(), Failed>
    requires port { port < length router.old.ports }
    requires bytes { length message.now < 2 ^ 32 }
    ensures answered { Answered (OrMemoryIf
        (NeedsMemory F.family
        (packet_seen F.bytes_of port ends.source ends.destination message.now) router.old)
        router.old
        (Takes F.family (packet_seen F.bytes_of port ends.source ends.destination message.now)
        router.old))
        (W.contents answers.old) (W.contents answers.new) result (λ _. router.new) }
    ensures count { W.failures answers.new ≡ failures_after (W.failures answers.old) result }
{
    match router.take_packet(port, ends.source, ends.destination, message) {
        Ok(verdict) => answer_verdict(answers, verdict),
        Err(_) => write_fault(answers, &AnswerFault::memory()),
    }
}

/// Answers `packet`, whose digits are at most 1,048,576.
///
/// # Errors
/// The device failed: a prefix of the answer was written.
pub fn answer_packet<F: Family, W: Drain>(
    router: &mut Router<'_, F>,
    packet: &Packet<'_>,
    room: &mut Room,
    answers: &mut W,
) -> Result<(), Failed>
    requires hex { IsHex packet.now.hex.now }
    requires short { length packet.now.hex.now ≤ 2 * room_limit }
    ensures answered { Answered (AnswersPacket F.family packet.now router.old)
        (W.contents answers.old) (W.contents answers.new) result (λ _. router.new) }
    ensures count { W.failures answers.new ≡ failures_after (W.failures answers.old) result }
{
    let Some(ends) = both_of::<F>(packet.source, packet.destination) else {
        return write_fault(answers, &AnswerFault::family());
    };
    let port = match port_of(packet.port, router.port_count()) {
        Ok(port) => port,
        Err(fault) => return write_fault(answers, &fault),
    };
    room.decode(packet.hex);
    take::<F, W>(router, port, ends, room.message(), answers)
}

/// The source, and ALL-PIM-ROUTERS, if the source is of the family.
fn ends_to_all<F: Family>(source: AnyAddress) -> Option<AnswerEnds<F::Addr>>
    ensures ends { IfSome result (AreEndsOf F.family F.bytes_of source None) }
    ensures same { IfSome result (λ _. differ_from F.family (source ∷ []) ≡ false) }
    ensures other { IfNone result (differ_from F.family (source ∷ []) ≡ true) }
{
    Some(AnswerEnds {
        source: of_family::<F>(source)?,
        destination: all_routers::<F>(),
    })
}

/// The source and the destination of a sender. Without a destination it is ALL-PIM-ROUTERS.
fn ends_of<F: Family>(sender: &Sender) -> Option<AnswerEnds<F::Addr>>
    ensures ends { IfSome result
        (AreEndsOf F.family F.bytes_of sender.now.source sender.now.destination) }
    ensures same { IfSome result (λ _. differ_from F.family (addresses_of sender.now) ≡ false) }
    ensures other { IfNone result (differ_from F.family (addresses_of sender.now) ≡ true) }
{
    match sender.destination {
        Some(destination) => both_of::<F>(sender.source, destination),
        None => ends_to_all::<F>(sender.source),
    }
}

/// The source and the destination of a sender, if all addresses are of the family, those of the
/// text too.
fn ends_of_text<F: Family>(from: &FromText<'_>) -> Option<AnswerEnds<F::Addr>>
    ensures ends { IfSome result
        (AreEndsOf F.family F.bytes_of from.now.sender.source from.now.sender.destination) }
    ensures same { IfSome result (λ _. has_other_family F.family from.now ≡ false) }
    ensures other { IfNone result (has_other_family F.family from.now ≡ true) }
{
    if stated_in::<F>(from.stated) {
        ends_of::<F>(&from.sender)
    } else {
        None
    }
}

/// Fills the room with the message that a text spells.
fn fill_spelled<F: Family>(
    alloc: Global,
    ends: AnswerEnds<F::Addr>,
    from: &FromText<'_>,
    room: &mut Room,
) -> Result<(), AnswerFault<'static>>
    requires { length from.now.text.now < 2 ^ 32 }
    ensures message { IfOk result (λ _. IsMessageOf F.family from.now.text.now
        (F.bytes_of ends.source) (F.bytes_of ends.destination) room.new) }
    ensures short { IfOk result (λ _. length room.new ≤ 65536) }
    ensures fault { IfErr result (IsFillFault F.family from.now.text.now) }
{
    match spell::<F>(alloc, from.text) {
        Ok(spelled) => {
            let message_type = spelled.message_type();
            room.fill_sealed::<F>(ends.source, ends.destination, message_type, &spelled.body);
            Ok(())
        }
        Err(TextFault::TooLong) => Err(AnswerFault::plain(b"text too-long")),
        Err(_) => Err(AnswerFault::memory()),
    }
}

/// Answers `from` with a text that states a message.
///
/// # Errors
/// The device failed: a prefix of the answer was written.
pub fn answer_from<F: Family, W: Drain>(
    alloc: Global,
    router: &mut Router<'_, F>,
    from: &FromText<'_>,
    room: &mut Room,
    answers: &mut W,
) -> Result<(), Failed>
    requires { length from.now.text.now < 2 ^ 32 }
    ensures answered { Answered (AnswersFrom F.family from.now router.old)
        (W.contents answers.old) (W.contents answers.new) result (λ _. router.new) }
    ensures count { W.failures answers.new ≡ failures_after (W.failures answers.old) result }
{
    let Some(ends) = ends_of_text::<F>(from) else {
        return write_fault(answers, &AnswerFault::family());
    };
    let port = match port_of(from.sender.port, router.port_count()) {
        Ok(port) => port,
        Err(fault) => return write_fault(answers, &fault),
    };
    match fill_spelled::<F>(alloc, ends, from, room) {
        Ok(()) => take::<F, W>(router, port, ends, room.message(), answers),
        Err(fault) => write_fault(answers, &fault),
    }
}
