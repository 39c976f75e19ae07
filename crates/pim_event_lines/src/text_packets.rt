//! The lines of packets and records as text, without their moments and ports.

ghost use Rattle.std.specs.Prelude.{◌≡◌, ◌++◌};
ghost use Rattle.pim_device.specs.Device.{AppendsAll, failures_after};
ghost use Rattle.pim_events.specs.Events.{greeting_seen, judgment_seen, ignored_seen};
ghost use Rattle.pim_event_lines.specs.TextLine.{sender_text, greeting_text, meaning_text};
ghost use Rattle.pim_event_lines.specs.TextLine.{hello_line, verdict_text, message_part};
ghost use Rattle.pim_event_lines.specs.TextLine.{judged_line, rp_part, ignored_line, restart_line};
ghost use Rattle.pim_event_lines.specs.TextLine.{skipped_line, entry_text, generation_part};
ghost use Rattle.pim_event_lines.specs.Files.{frame_text};
ghost use Rattle.pim_event_lines.specs.TextLine.{restarted_part, restart_words};
ghost use Rattle.pim_lines.specs.Pieces.{line};
ghost use Rattle.std.specs.Prelude.{codes, option_map};

use crate::counts::{joined_in, pruned_in};
use crate::files::{FileName, file_of};
use crate::words::{skip_words, wide};
use itoa::Buffer;
use pim_addr::{Drain, Failed, Family, write_all};
use pim_capture::RecordPlace;
use pim_events::{Greeting, Ignored, Judgment, OwnRestart, Skipping};
use pim_hello::Heard;
use pim_jp::JpView;
use pim_lines::{ShortText, number_or, write_pieces};
use pim_report::{heard_words, write_verdict_words};

/// Writes a record, with the name of its file where its port has several.
pub(crate) fn write_frame<W: Drain>(
    writer: &mut W,
    files: &[FileName],
    frame: RecordPlace,
) -> Result<(), Failed>
    ensures bytes { AppendsAll (W.contents writer.old) (W.contents writer.new) result
        (frame_text files.now frame) }
    ensures count { W.failures writer.new ≡ failures_after (W.failures writer.old) result }
{
    let mut number = Buffer::new();
    let pieces = [
        file_of(files, frame),
        b"#",
        number.format(frame.record).as_bytes(),
    ];
    write_pieces(writer, &pieces)
}

/// Writes the sender of a Hello and what it means.
fn write_greeting<F: Family, W: Drain>(
    writer: &mut W,
    files: &[FileName],
    hello: &Greeting<F::Addr>,
) -> Result<(), Failed>
    ensures bytes { AppendsAll (W.contents writer.old) (W.contents writer.new) result
        (greeting_text F.family files.now (greeting_seen F.bytes_of hello.now)) }
    ensures count { W.failures writer.new ≡ failures_after (W.failures writer.old) result }
{
    write_sender::<F, W>(writer, files, hello.frame, hello.from)?;
    write_all(writer, heard_words(hello.verdict))
}

/// Writes the Generation ID of a Hello.
fn write_generation<W: Drain>(writer: &mut W, generation: Option<u32>) -> Result<(), Failed>
    ensures bytes { AppendsAll (W.contents writer.old) (W.contents writer.new) result
        (line (generation_part generation)) }
    ensures count { W.failures writer.new ≡ failures_after (W.failures writer.old) result }
{
    let mut digits = Buffer::new();
    let pieces = [
        b", generation ",
        number_or(&mut digits, wide(generation), b"-"),
        b"\n",
    ];
    write_pieces(writer, &pieces)
}

/// Writes the Generation IDs of a sender that restarted.
fn write_restarted<W: Drain>(
    writer: &mut W,
    was: Option<u32>,
    generation: Option<u32>,
) -> Result<(), Failed>
    ensures bytes { AppendsAll (W.contents writer.old) (W.contents writer.new) result
        (line (restarted_part was generation)) }
    ensures count { W.failures writer.new ≡ failures_after (W.failures writer.old) result }
{
    let mut before = Buffer::new();
    let mut after = Buffer::new();
    let pieces = [
        b", generation ",
        number_or(&mut before, wide(was), b"-"),
        b" -> ",
        number_or(&mut after, wide(generation), b"-"),
        b"; its joins stay until they expire\n",
    ];
    write_pieces(writer, &pieces)
}

/// Writes that the joins of a sender stay.
fn write_stays<W: Drain>(writer: &mut W) -> Result<(), Failed>
    ensures bytes { AppendsAll (W.contents writer.old) (W.contents writer.new) result
        (line (codes "; its joins stay until they expire")) }
    ensures count { W.failures writer.new ≡ failures_after (W.failures writer.old) result }
{
    write_all(writer, b"; its joins stay until they expire\n")
}

/// Writes the Generation IDs of a Hello, and what it means for the sender's state.
fn write_meaning<W: Drain>(
    writer: &mut W,
    heard: Heard,
    was: Option<u32>,
    generation: Option<u32>,
) -> Result<(), Failed>
    ensures bytes { AppendsAll (W.contents writer.old) (W.contents writer.new) result
        (line (meaning_text heard was generation)) }
    ensures count { W.failures writer.new ≡ failures_after (W.failures writer.old) result }
{
    match heard {
        Heard::New => write_generation(writer, generation),
        Heard::Same => write_generation(writer, generation),
        Heard::Restarted => write_restarted(writer, was, generation),
        Heard::Gone => write_stays(writer),
    }
}

/// Writes the line of a Hello that was taken.
pub(crate) fn write_hello_line<F: Family, W: Drain>(
    writer: &mut W,
    files: &[FileName],
    hello: &Greeting<F::Addr>,
) -> Result<(), Failed>
    ensures bytes { AppendsAll (W.contents writer.old) (W.contents writer.new) result
        (hello_line F.family files.now (greeting_seen F.bytes_of hello.now)) }
    ensures count { W.failures writer.new ≡ failures_after (W.failures writer.old) result }
{
    write_greeting::<F, W>(writer, files, hello)?;
    write_meaning(writer, hello.verdict, hello.was, hello.generation)
}

/// Writes the sender of a packet.
fn write_sender<F: Family, W: Drain>(
    writer: &mut W,
    files: &[FileName],
    frame: RecordPlace,
    from: F::Addr,
) -> Result<(), Failed>
    ensures bytes { AppendsAll (W.contents writer.old) (W.contents writer.new) result
        (sender_text F.family files.now frame (F.bytes_of from) ++ codes ": ") }
    ensures count { W.failures writer.new ≡ failures_after (W.failures writer.old) result }
{
    let mut number = Buffer::new();
    let from = ShortText::of::<F>(from);
    let pieces = [
        file_of(files, frame),
        b"#",
        number.format(frame.record).as_bytes(),
        b" ",
        from.text(),
        b": ",
    ];
    write_pieces(writer, &pieces)
}

/// Writes the verdict on a packet.
fn write_verdict<F: Family, W: Drain>(
    writer: &mut W,
    files: &[FileName],
    packet: &Judgment<'_, F>,
) -> Result<(), Failed>
    ensures bytes { AppendsAll (W.contents writer.old) (W.contents writer.new) result
        (verdict_text F.family files.now (judgment_seen F.bytes_of packet.now)) }
    ensures count { W.failures writer.new ≡ failures_after (W.failures writer.old) result }
{
    write_sender::<F, W>(writer, files, packet.frame, packet.from)?;
    write_verdict_words(writer, packet.verdict)
}

/// Writes to whom a Join/Prune message is addressed, and the number of its entries.
fn write_message_part<F: Family, W: Drain>(
    writer: &mut W,
    message: &Option<JpView<'_, F>>,
) -> Result<(), Failed>
    ensures bytes { AppendsAll (W.contents writer.old) (W.contents writer.new) result
        (line (message_part F.family message.now)) }
    ensures count { W.failures writer.new ≡ failures_after (W.failures writer.old) result }
{
    let Some(message) = message else {
        return write_all(writer, b"\n");
    };
    let upstream = ShortText::of::<F>(message.upstream());
    let mut joined = Buffer::new();
    let mut pruned = Buffer::new();
    let pieces = [
        b", for ",
        upstream.text(),
        b", joined ",
        joined.format(joined_in::<F>(message)).as_bytes(),
        b" pruned ",
        pruned.format(pruned_in::<F>(message)).as_bytes(),
        b"\n",
    ];
    write_pieces(writer, &pieces)
}

/// Writes the line of a packet with its verdict.
pub(crate) fn write_judged_line<F: Family, W: Drain>(
    writer: &mut W,
    files: &[FileName],
    packet: &Judgment<'_, F>,
) -> Result<(), Failed>
    ensures bytes { AppendsAll (W.contents writer.old) (W.contents writer.new) result
        (judged_line F.family files.now (judgment_seen F.bytes_of packet.now)) }
    ensures count { W.failures writer.new ≡ failures_after (W.failures writer.old) result }
{
    write_verdict::<F, W>(writer, files, packet)?;
    write_message_part::<F, W>(writer, &packet.message)
}

/// Writes a Join(*,G) that is ignored, and the RP that it names.
fn write_entry<F: Family, W: Drain>(
    writer: &mut W,
    files: &[FileName],
    entry: &Ignored<F::Addr>,
) -> Result<(), Failed>
    ensures bytes { AppendsAll (W.contents writer.old) (W.contents writer.new) result
        (entry_text F.family files.now (ignored_seen F.bytes_of entry.now)) }
    ensures count { W.failures writer.new ≡ failures_after (W.failures writer.old) result }
{
    let mut frame = Buffer::new();
    let from = ShortText::of::<F>(entry.from);
    let group = ShortText::of::<F>(entry.group);
    let names = ShortText::of::<F>(entry.names);
    let pieces = [
        file_of(files, entry.frame),
        b"#",
        frame.format(entry.frame.record).as_bytes(),
        b" ",
        from.text(),
        b" joins star ",
        group.text(),
        b": ignored, it names RP ",
        names.text(),
        b", and ",
    ];
    write_pieces(writer, &pieces)
}

/// Writes the RP of a group, if it has one.
fn write_rp<F: Family, W: Drain>(writer: &mut W, rp: Option<F::Addr>) -> Result<(), Failed>
    ensures bytes { AppendsAll (W.contents writer.old) (W.contents writer.new) result
        (line (rp_part F.family (option_map F.bytes_of rp))) }
    ensures count { W.failures writer.new ≡ failures_after (W.failures writer.old) result }
{
    match rp {
        Some(rp) => {
            let rp = ShortText::of::<F>(rp);
            let pieces = [b"the RP of this group is ", rp.text(), b"\n"];
            write_pieces(writer, &pieces)
        }
        None => write_all(writer, b"this group has no RP (--rp)\n"),
    }
}

/// Writes the line of a Join(*,G) that is ignored.
pub(crate) fn write_ignored_line<F: Family, W: Drain>(
    writer: &mut W,
    files: &[FileName],
    entry: &Ignored<F::Addr>,
) -> Result<(), Failed>
    ensures bytes { AppendsAll (W.contents writer.old) (W.contents writer.new) result
        (ignored_line F.family files.now (ignored_seen F.bytes_of entry.now)) }
    ensures count { W.failures writer.new ≡ failures_after (W.failures writer.old) result }
{
    write_entry::<F, W>(writer, files, entry)?;
    write_rp::<F, W>(writer, entry.rp)
}

/// Writes the Generation IDs of the port's own router, and what its restart means.
fn write_own_restart<W: Drain>(writer: &mut W, restart: OwnRestart) -> Result<(), Failed>
    ensures bytes { AppendsAll (W.contents writer.old) (W.contents writer.new) result
        (line (restart_words restart)) }
    ensures count { W.failures writer.new ≡ failures_after (W.failures writer.old) result }
{
    let mut before = Buffer::new();
    let mut after = Buffer::new();
    let pieces = [
        b" own Hello, generation ",
        number_or(&mut before, wide(restart.was), b"-"),
        b" -> ",
        number_or(&mut after, wide(restart.generation), b"-"),
        b": this router restarted; it lost what it held, the replay keeps it\n",
    ];
    write_pieces(writer, &pieces)
}

/// Writes the line of a restart of the port's own router. `files` are the names of the port's
/// files, if it has several.
///
/// # Errors
/// The device failed: a prefix of the line was written.
pub fn write_restart_line<W: Drain>(
    writer: &mut W,
    files: &[FileName],
    restart: OwnRestart,
) -> Result<(), Failed>
    ensures bytes { AppendsAll (W.contents writer.old) (W.contents writer.new) result
        (restart_line files.now restart) }
    ensures count { W.failures writer.new ≡ failures_after (W.failures writer.old) result }
{
    write_frame(writer, files, restart.frame)?;
    write_own_restart(writer, restart)
}

/// Writes the line of a record that is skipped.
pub(crate) fn write_skipped_line<W: Drain>(
    writer: &mut W,
    files: &[FileName],
    skipped: Skipping,
) -> Result<(), Failed>
    ensures bytes { AppendsAll (W.contents writer.old) (W.contents writer.new) result
        (skipped_line files.now skipped) }
    ensures count { W.failures writer.new ≡ failures_after (W.failures writer.old) result }
{
    let why = skipped.why;
    let mut frame = Buffer::new();
    let pieces = [
        file_of(files, skipped.frame),
        b"#",
        frame.format(skipped.frame.record).as_bytes(),
        b" skipped: ",
        skip_words(&why),
        b"\n",
    ];
    write_pieces(writer, &pieces)
}
