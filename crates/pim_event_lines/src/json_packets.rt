//! The JSON of packets and records, from the name of the event on.

ghost use Rattle.std.specs.Prelude.{◌≡◌, ◌++◌, codes, option_map};
ghost use Rattle.pim_device.specs.Device.{AppendsAll, failures_after};
ghost use Rattle.pim_events.specs.Events.{greeting_seen, judgment_seen, ignored_seen};
ghost use Rattle.pim_event_lines.specs.JsonLine.{sender_json, hello_json, message_json};
ghost use Rattle.pim_event_lines.specs.JsonLine.{verdict_json, judged_json, entry_json};
ghost use Rattle.pim_event_lines.specs.JsonLine.{address_json, ignored_json, restart_json};
ghost use Rattle.pim_event_lines.specs.Files.{frame_json};
ghost use Rattle.pim_event_lines.specs.JsonLine.{skipped_json, meaning_json, generations_json};
ghost use Rattle.pim_lines.specs.Pieces.{line};

use crate::counts::{joined_in, pruned_in};
use crate::files::{FileName, file_of, if_several};
use crate::words::{meaning_word, skip_word, wide};
use itoa::Buffer;
use pim_addr::{Drain, Failed, Family, write_all};
use pim_capture::RecordPlace;
use pim_events::{Greeting, Ignored, Judgment, OwnRestart, Skipping};
use pim_jp::JpView;
use pim_lines::{ShortText, number_or, write_pieces};
use pim_report::write_verdict_words;

/// Writes the name of an event, and the record and the sender of a packet.
pub(crate) fn write_named<F: Family, W: Drain>(
    writer: &mut W,
    name: &[u8],
    files: &[FileName],
    frame: RecordPlace,
    from: F::Addr,
) -> Result<(), Failed>
    ensures bytes { AppendsAll (W.contents writer.old) (W.contents writer.new) result
        (name.now ++ sender_json F.family files.now frame (F.bytes_of from)) }
    ensures count { W.failures writer.new ≡ failures_after (W.failures writer.old) result }
{
    let mut number = Buffer::new();
    let from = ShortText::of::<F>(from);
    let pieces = [
        name,
        b"\",\"frame\":",
        number.format(frame.record).as_bytes(),
        if_several(files, b",\"file\":\""),
        file_of(files, frame),
        if_several(files, b"\""),
        b",\"from\":\"",
        from.text(),
        b"\"",
    ];
    write_pieces(writer, &pieces)
}

/// Writes what a Hello means for its sender, and ends the object.
fn write_meaning<F: Family, W: Drain>(
    writer: &mut W,
    hello: &Greeting<F::Addr>,
) -> Result<(), Failed>
    ensures bytes { AppendsAll (W.contents writer.old) (W.contents writer.new) result
        (line (meaning_json (greeting_seen F.bytes_of hello.now))) }
    ensures count { W.failures writer.new ≡ failures_after (W.failures writer.old) result }
{
    let verdict = hello.verdict;
    let mut before = Buffer::new();
    let mut after = Buffer::new();
    let pieces = [
        b",\"verdict\":\"",
        meaning_word(&verdict),
        b"\",\"was\":",
        number_or(&mut before, wide(hello.was), b"null"),
        b",\"generation\":",
        number_or(&mut after, wide(hello.generation), b"null"),
        b"}\n",
    ];
    write_pieces(writer, &pieces)
}

/// Writes the members of a Hello that was taken.
pub(crate) fn write_hello_json<F: Family, W: Drain>(
    writer: &mut W,
    files: &[FileName],
    hello: &Greeting<F::Addr>,
) -> Result<(), Failed>
    ensures bytes { AppendsAll (W.contents writer.old) (W.contents writer.new) result
        (hello_json F.family files.now (greeting_seen F.bytes_of hello.now)) }
    ensures count { W.failures writer.new ≡ failures_after (W.failures writer.old) result }
{
    write_named::<F, W>(writer, b"hello", files, hello.frame, hello.from)?;
    write_meaning::<F, W>(writer, hello)
}

/// Writes the sender of a packet, up to its verdict.
fn write_sender<F: Family, W: Drain>(
    writer: &mut W,
    files: &[FileName],
    frame: RecordPlace,
    from: F::Addr,
) -> Result<(), Failed>
    ensures bytes { AppendsAll (W.contents writer.old) (W.contents writer.new) result
        (codes "packet" ++ sender_json F.family files.now frame (F.bytes_of from)
        ++ codes ",\"verdict\":\"") }
    ensures count { W.failures writer.new ≡ failures_after (W.failures writer.old) result }
{
    let mut number = Buffer::new();
    let from = ShortText::of::<F>(from);
    let pieces = [
        b"packet\",\"frame\":",
        number.format(frame.record).as_bytes(),
        if_several(files, b",\"file\":\""),
        file_of(files, frame),
        if_several(files, b"\""),
        b",\"from\":\"",
        from.text(),
        b"\",\"verdict\":\"",
    ];
    write_pieces(writer, &pieces)
}

/// Writes the verdict on a packet.
fn write_verdict<F: Family, W: Drain>(
    writer: &mut W,
    files: &[FileName],
    packet: &Judgment<'_, F>,
) -> Result<(), Failed>
    ensures bytes { AppendsAll (W.contents writer.old) (W.contents writer.new) result
        (verdict_json F.family files.now (judgment_seen F.bytes_of packet.now)) }
    ensures count { W.failures writer.new ≡ failures_after (W.failures writer.old) result }
{
    write_sender::<F, W>(writer, files, packet.frame, packet.from)?;
    write_verdict_words(writer, packet.verdict)
}

/// Writes to whom a Join/Prune message is addressed, and the number of its entries.
fn write_message<F: Family, W: Drain>(
    writer: &mut W,
    message: &Option<JpView<'_, F>>,
) -> Result<(), Failed>
    ensures bytes { AppendsAll (W.contents writer.old) (W.contents writer.new) result
        (line (codes "\"" ++ message_json F.family message.now ++ codes "}")) }
    ensures count { W.failures writer.new ≡ failures_after (W.failures writer.old) result }
{
    let Some(message) = message else {
        return write_all(
            writer,
            b"\",\"for\":null,\"joined\":null,\"pruned\":null}\n",
        );
    };
    let upstream = ShortText::of::<F>(message.upstream());
    let mut joined = Buffer::new();
    let mut pruned = Buffer::new();
    let pieces = [
        b"\",\"for\":\"",
        upstream.text(),
        b"\",\"joined\":",
        joined.format(joined_in::<F>(message)).as_bytes(),
        b",\"pruned\":",
        pruned.format(pruned_in::<F>(message)).as_bytes(),
        b"}\n",
    ];
    write_pieces(writer, &pieces)
}

/// Writes the members of a packet with its verdict.
pub(crate) fn write_judged_json<F: Family, W: Drain>(
    writer: &mut W,
    files: &[FileName],
    packet: &Judgment<'_, F>,
) -> Result<(), Failed>
    ensures bytes { AppendsAll (W.contents writer.old) (W.contents writer.new) result
        (judged_json F.family files.now (judgment_seen F.bytes_of packet.now)) }
    ensures count { W.failures writer.new ≡ failures_after (W.failures writer.old) result }
{
    write_verdict::<F, W>(writer, files, packet)?;
    write_message::<F, W>(writer, &packet.message)
}

/// Writes the members of a Join(*,G) that is ignored, up to the RP of its group.
fn write_entry<F: Family, W: Drain>(
    writer: &mut W,
    files: &[FileName],
    entry: &Ignored<F::Addr>,
) -> Result<(), Failed>
    ensures bytes { AppendsAll (W.contents writer.old) (W.contents writer.new) result
        (entry_json F.family files.now (ignored_seen F.bytes_of entry.now)) }
    ensures count { W.failures writer.new ≡ failures_after (W.failures writer.old) result }
{
    let mut frame = Buffer::new();
    let from = ShortText::of::<F>(entry.from);
    let group = ShortText::of::<F>(entry.group);
    let names = ShortText::of::<F>(entry.names);
    let pieces = [
        b"ignored\",\"frame\":",
        frame.format(entry.frame.record).as_bytes(),
        if_several(files, b",\"file\":\""),
        file_of(files, entry.frame),
        if_several(files, b"\""),
        b",\"from\":\"",
        from.text(),
        b"\",\"group\":\"",
        group.text(),
        b"\",\"names\":\"",
        names.text(),
        b"\",\"rp\":",
    ];
    write_pieces(writer, &pieces)
}

/// Writes an address as a string, or `null`, and ends the object.
fn write_last_address<F: Family, W: Drain>(
    writer: &mut W,
    address: Option<F::Addr>,
) -> Result<(), Failed>
    ensures bytes { AppendsAll (W.contents writer.old) (W.contents writer.new) result
        (address_json F.family (option_map F.bytes_of address) ++ line (codes "}")) }
    ensures count { W.failures writer.new ≡ failures_after (W.failures writer.old) result }
{
    match address {
        Some(address) => {
            let shown = ShortText::of::<F>(address);
            let pieces = [b"\"", shown.text(), b"\"}\n"];
            write_pieces(writer, &pieces)
        }
        None => write_all(writer, b"null}\n"),
    }
}

/// Writes the members of a Join(*,G) that is ignored.
pub(crate) fn write_ignored_json<F: Family, W: Drain>(
    writer: &mut W,
    files: &[FileName],
    entry: &Ignored<F::Addr>,
) -> Result<(), Failed>
    ensures bytes { AppendsAll (W.contents writer.old) (W.contents writer.new) result
        (ignored_json F.family files.now (ignored_seen F.bytes_of entry.now)) }
    ensures count { W.failures writer.new ≡ failures_after (W.failures writer.old) result }
{
    write_entry::<F, W>(writer, files, entry)?;
    write_last_address::<F, W>(writer, entry.rp)
}

/// Writes the Generation IDs of the port's own router, and ends the object.
fn write_generations<W: Drain>(writer: &mut W, restart: OwnRestart) -> Result<(), Failed>
    ensures bytes { AppendsAll (W.contents writer.old) (W.contents writer.new) result
        (line (generations_json restart)) }
    ensures count { W.failures writer.new ≡ failures_after (W.failures writer.old) result }
{
    let mut before = Buffer::new();
    let mut after = Buffer::new();
    let pieces = [
        b",\"was\":",
        number_or(&mut before, wide(restart.was), b"null"),
        b",\"generation\":",
        number_or(&mut after, wide(restart.generation), b"null"),
        b"}\n",
    ];
    write_pieces(writer, &pieces)
}

/// Writes the name of a restart of the port's own router, and its record.
fn write_restart<W: Drain>(
    writer: &mut W,
    files: &[FileName],
    frame: RecordPlace,
) -> Result<(), Failed>
    ensures bytes { AppendsAll (W.contents writer.old) (W.contents writer.new) result
        (codes "restarted\",\"frame\":" ++ frame_json files.now frame) }
    ensures count { W.failures writer.new ≡ failures_after (W.failures writer.old) result }
{
    let mut number = Buffer::new();
    let pieces = [
        b"restarted\",\"frame\":",
        number.format(frame.record).as_bytes(),
        if_several(files, b",\"file\":\""),
        file_of(files, frame),
        if_several(files, b"\""),
    ];
    write_pieces(writer, &pieces)
}

/// Writes the members of a restart of the port's own router, from the name of the event on. `files`
/// are the names of the port's files as they stand in JSON strings, if it has several.
///
/// # Errors
/// The device failed: a prefix of them was written.
pub fn write_restart_json<W: Drain>(
    writer: &mut W,
    files: &[FileName],
    restart: OwnRestart,
) -> Result<(), Failed>
    ensures bytes { AppendsAll (W.contents writer.old) (W.contents writer.new) result
        (restart_json files.now restart) }
    ensures count { W.failures writer.new ≡ failures_after (W.failures writer.old) result }
{
    write_restart(writer, files, restart.frame)?;
    write_generations(writer, restart)
}

/// Writes the members of a record that is skipped.
pub(crate) fn write_skipped_json<W: Drain>(
    writer: &mut W,
    files: &[FileName],
    skipped: Skipping,
) -> Result<(), Failed>
    ensures bytes { AppendsAll (W.contents writer.old) (W.contents writer.new) result
        (skipped_json files.now skipped) }
    ensures count { W.failures writer.new ≡ failures_after (W.failures writer.old) result }
{
    let why = skipped.why;
    let mut frame = Buffer::new();
    let pieces = [
        b"skipped\",\"frame\":",
        frame.format(skipped.frame.record).as_bytes(),
        if_several(files, b",\"file\":\""),
        file_of(files, skipped.frame),
        if_several(files, b"\""),
        b",\"why\":\"",
        skip_word(&why),
        b"\"}\n",
    ];
    write_pieces(writer, &pieces)
}
