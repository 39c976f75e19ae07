//! The line of a packet.

ghost use Rattle.std.specs.Prelude.{◌≡◌, codes, []};
ghost use Rattle.pim_device.specs.Device.{AppendsAll, failures_after};
ghost use Rattle.pim_report.specs.Said.{said_text};
ghost use Rattle.pim_report.specs.PacketLine.{heard_words, full_words, unmarked_words, mark_of};
ghost use Rattle.pim_report.specs.PacketLine.{verdict_words};
ghost use Rattle.pim_report.specs.PacketLine.{sender_words, verdict_line, packet_line};

use crate::malformed::malformed_said;
use crate::said::Said;
use itoa::Buffer;
use pim_addr::{Drain, Failed, Family};
use pim_hello::Heard;
use pim_lines::{Shown, write_pieces};
use pim_router::{Store, Verdict};

/// What a Hello means for its sender on the port.
pub fn heard_words(heard: Heard) -> &'static [u8]
    ensures { result.now ≡ heard_words heard }
{
    match heard {
        Heard::New => b"hello new",
        Heard::Same => b"hello same",
        Heard::Restarted => b"hello restarted",
        Heard::Gone => b"hello gone",
    }
}

/// Which store has no room.
fn full_said(store: Store) -> Said
    ensures { said_text result ≡ full_words store }
{
    match store {
        Store::Neighbours => Said::plain(b"full neighbours"),
        Store::Records { needed } => Said::numbered(b"full ", needed as u64),
    }
}

/// The words of a verdict without the mark of a malformed message.
fn verdict_said(verdict: Verdict) -> Said
    ensures { said_text result ≡ unmarked_words verdict }
{
    match verdict {
        Verdict::Mine => Said::plain(b"mine"),
        Verdict::Malformed(fault) => malformed_said(fault),
        Verdict::OtherType(message_type) => Said::numbered(b"type ", u64::from(message_type)),
        Verdict::HelloTaken(heard) => Said::plain(heard_words(heard)),
        Verdict::UnknownNeighbour => Said::plain(b"unknown-neighbour"),
        Verdict::NotForUs => Said::plain(b"not-for-us"),
        Verdict::Full(store) => full_said(store),
        Verdict::Applied => Said::plain(b"applied"),
    }
}

/// The mark of a malformed message, or nothing.
fn mark_of(verdict: &Verdict) -> &[u8]
    ensures { result.now ≡ mark_of verdict.now }
{
    match verdict {
        Verdict::Malformed(_) => b"malformed ",
        _ => b"",
    }
}

/// Writes the words before the verdict in the line of a packet.
fn write_sender<F: Family, W: Drain>(
    writer: &mut W,
    moment: u64,
    port: usize,
    source: F::Addr,
) -> Result<(), Failed>
    ensures bytes { AppendsAll (W.contents writer.old) (W.contents writer.new) result
        (sender_words F.family moment port (F.bytes_of source)) }
    ensures count { W.failures writer.new ≡ failures_after (W.failures writer.old) result }
{
    let sender = Shown::address::<F>(source);
    let mut at = Buffer::new();
    let mut on = Buffer::new();
    let pieces = [
        at.format(moment).as_bytes(),
        b" port ",
        on.format(port).as_bytes(),
        b" from ",
        sender.text(),
        b" ",
    ];
    write_pieces(writer, &pieces)
}

/// Writes the words of a verdict, without the end of a line.
///
/// # Errors
/// The device failed: a prefix of the words was written.
pub fn write_verdict_words<W: Drain>(writer: &mut W, judged: Verdict) -> Result<(), Failed>
    ensures bytes { AppendsAll (W.contents writer.old) (W.contents writer.new) result
        (verdict_words judged) }
    ensures count { W.failures writer.new ≡ failures_after (W.failures writer.old) result }
{
    let said = verdict_said(judged);
    let mut number = Buffer::new();
    let pieces = [
        mark_of(&judged),
        said.words(),
        said.name(),
        said.more(),
        said.digits(&mut number),
    ];
    write_pieces(writer, &pieces)
}

/// Writes the line of a verdict: its words alone.
///
/// # Errors
/// The device failed: a prefix of the line was written.
pub fn write_verdict_line<W: Drain>(writer: &mut W, verdict: Verdict) -> Result<(), Failed>
    ensures bytes { AppendsAll (W.contents writer.old) (W.contents writer.new) result
        (verdict_line verdict) }
    ensures count { W.failures writer.new ≡ failures_after (W.failures writer.old) result }
{
    let said = verdict_said(verdict);
    let mut digits = Buffer::new();
    let pieces = [
        mark_of(&verdict),
        said.words(),
        said.name(),
        said.more(),
        said.digits(&mut digits),
        b"\n",
    ];
    write_pieces(writer, &pieces)
}

/// Writes the line of a packet that came at this moment, in milliseconds, on this port and from
/// this sender.
///
/// # Errors
/// The device failed: a prefix of the line was written.
pub fn write_packet_line<F: Family, W: Drain>(
    writer: &mut W,
    moment: u64,
    port: usize,
    source: F::Addr,
    verdict: Verdict,
) -> Result<(), Failed>
    ensures bytes { AppendsAll (W.contents writer.old) (W.contents writer.new) result
        (packet_line F.family moment port (F.bytes_of source) verdict) }
    ensures count { W.failures writer.new ≡ failures_after (W.failures writer.old) result }
{
    write_sender::<F, W>(writer, moment, port, source)?;
    write_verdict_line(writer, verdict)
}
