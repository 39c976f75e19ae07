//! The JSON of an audit's lines, from the name of the event on.

ghost use Rattle.std.specs.Prelude.{◌≡◌, ◌++◌, [], None, codes, decimal, option_map};
ghost use Rattle.pim_device.specs.Device.{AppendsAll, failures_after};
ghost use Rattle.pim_down.specs.Seen.{event_seen, what_seen};
ghost use Rattle.pim_lines.specs.Pieces.{line};
ghost use Rattle.pim_event_lines.specs.JsonLine.{source_json};
ghost use Rattle.pim_audit_events.specs.Seen.{origin_seen};
ghost use Rattle.pim_audit_lines.specs.AuditJson.{asked_json, entry_json, named_json, sent_json};
ghost use Rattle.pim_audit_lines.specs.AuditJson.{lost_json, needed_json, totals_json};

use crate::words::asked_word;
use itoa::Buffer;
use pim_addr::{Drain, Failed, Family, write_all};
use pim_audit_events::{AuditTotals, Loss, MessageOrigin};
use pim_down::{Event, What};
use pim_event_lines::{FileName, file_of, if_several, kind_word};
use pim_lines::{ShortText, write_pieces};

/// Writes what an entry asks for, up to its source.
fn write_asked<F: Family, W: Drain>(writer: &mut W, entry: &Event<F::Addr>) -> Result<(), Failed>
    ensures bytes { AppendsAll (W.contents writer.old) (W.contents writer.new) result
        (asked_json F.family (event_seen F.bytes_of entry.now)) }
    ensures count { W.failures writer.new ≡ failures_after (W.failures writer.old) result }
{
    let joins = entry.joins;
    let kind = kind_word::<F>(entry.what);
    let group = ShortText::of::<F>(entry.group);
    let pieces = [
        b",\"by\":\"",
        asked_word(&joins),
        b"\",\"what\":\"",
        kind.text(),
        b"\",\"group\":\"",
        group.text(),
        b"\",\"source\":",
    ];
    write_pieces(writer, &pieces)
}

/// Writes the source of an entry, or `null`, and ends the object.
fn write_source<F: Family, W: Drain>(writer: &mut W, what: What<F::Addr>) -> Result<(), Failed>
    ensures bytes { AppendsAll (W.contents writer.old) (W.contents writer.new) result
        (source_json F.family (what_seen F.bytes_of what) ++ line (codes "}")) }
    ensures count { W.failures writer.new ≡ failures_after (W.failures writer.old) result }
{
    match what {
        What::Star => write_all(writer, b"null}\n"),
        What::Source(source) | What::Rpt(source) => {
            let source = ShortText::of::<F>(source);
            let pieces = [b"\"", source.text(), b"\"}\n"];
            write_pieces(writer, &pieces)
        }
    }
}

/// Writes an entry, and ends the object.
fn write_entry<F: Family, W: Drain>(writer: &mut W, entry: &Event<F::Addr>) -> Result<(), Failed>
    ensures bytes { AppendsAll (W.contents writer.old) (W.contents writer.new) result
        (entry_json F.family (event_seen F.bytes_of entry.now)) }
    ensures count { W.failures writer.new ≡ failures_after (W.failures writer.old) result }
{
    write_asked::<F, W>(writer, entry)?;
    write_source::<F, W>(writer, entry.what)
}

/// Writes a name and a number.
fn write_number<W: Drain>(writer: &mut W, name: &[u8], number: u64) -> Result<(), Failed>
    ensures bytes { AppendsAll (W.contents writer.old) (W.contents writer.new) result
        (name.now ++ decimal number) }
    ensures count { W.failures writer.new ≡ failures_after (W.failures writer.old) result }
{
    let mut digits = Buffer::new();
    let pieces = [name, digits.format(number).as_bytes()];
    write_pieces(writer, &pieces)
}

/// Writes a name and a number, and an entry at the end of the object.
pub(crate) fn write_timed<F: Family, W: Drain>(
    writer: &mut W,
    name: &[u8],
    number: u64,
    entry: &Event<F::Addr>,
) -> Result<(), Failed>
    ensures bytes { AppendsAll (W.contents writer.old) (W.contents writer.new) result
        ((name.now ++ decimal number) ++ entry_json F.family (event_seen F.bytes_of entry.now)) }
    ensures count { W.failures writer.new ≡ failures_after (W.failures writer.old) result }
{
    write_number(writer, name, number)?;
    write_entry::<F, W>(writer, entry)
}

/// Writes the name of an event, and its record.
fn write_named<F: Family, W: Drain>(
    writer: &mut W,
    files: &[FileName],
    name: &[u8],
    origin: Option<MessageOrigin<F::Addr>>,
) -> Result<(), Failed>
    ensures bytes { AppendsAll (W.contents writer.old) (W.contents writer.new) result
        (named_json F.family files.now name.now (option_map (origin_seen F.bytes_of) origin)) }
    ensures count { W.failures writer.new ≡ failures_after (W.failures writer.old) result }
{
    let Some(message) = origin else {
        let pieces = [name, b"\",\"frame\":null,\"from\":null"];
        return write_pieces(writer, &pieces);
    };
    let mut frame = Buffer::new();
    let from = ShortText::of::<F>(message.from);
    let pieces = [
        name,
        b"\",\"frame\":",
        frame.format(message.frame.record).as_bytes(),
        if_several(files, b",\"file\":\""),
        file_of(files, message.frame),
        if_several(files, b"\""),
        b",\"from\":\"",
        from.text(),
        b"\"",
    ];
    write_pieces(writer, &pieces)
}

/// Writes a late entry that was sent, and its record.
pub(crate) fn write_sent_json<F: Family, W: Drain>(
    writer: &mut W,
    files: &[FileName],
    origin: Option<MessageOrigin<F::Addr>>,
    entry: &Event<F::Addr>,
    after: u64,
) -> Result<(), Failed>
    ensures bytes { AppendsAll (W.contents writer.old) (W.contents writer.new) result
        (sent_json F.family files.now (option_map (origin_seen F.bytes_of) origin)
        (event_seen F.bytes_of entry.now) after) }
    ensures count { W.failures writer.new ≡ failures_after (W.failures writer.old) result }
{
    write_named::<F, W>(writer, files, b"sent", origin)?;
    write_timed::<F, W>(writer, b",\"after\":", after, entry)
}

/// Writes that the upstream neighbour lost what it was asked by a Hello of this record, with what
/// ends the object.
fn write_heard<F: Family, W: Drain>(
    writer: &mut W,
    files: &[FileName],
    origin: Option<MessageOrigin<F::Addr>>,
    verdict: &[u8],
) -> Result<(), Failed>
    ensures bytes { AppendsAll (W.contents writer.old) (W.contents writer.new) result
        (named_json F.family files.now (codes "upstream") (option_map (origin_seen F.bytes_of) origin)
        ++ verdict.now) }
    ensures count { W.failures writer.new ≡ failures_after (W.failures writer.old) result }
{
    write_named::<F, W>(writer, files, b"upstream", origin)?;
    write_all(writer, verdict)
}

/// Writes that the time of the upstream neighbour is over.
fn write_time_out<F: Family, W: Drain>(writer: &mut W, upstream: F::Addr) -> Result<(), Failed>
    ensures bytes { AppendsAll (W.contents writer.old) (W.contents writer.new) result
        (lost_json F.family [] (F.bytes_of upstream) None Loss.TimedOut) }
    ensures count { W.failures writer.new ≡ failures_after (W.failures writer.old) result }
{
    let neighbour = ShortText::of::<F>(upstream);
    let pieces = [
        b"upstream\",\"frame\":null,\"from\":\"",
        neighbour.text(),
        b"\",\"verdict\":\"timed-out\"}\n",
    ];
    write_pieces(writer, &pieces)
}

/// Writes that the upstream neighbour lost what it was asked.
pub(crate) fn write_lost_json<F: Family, W: Drain>(
    writer: &mut W,
    files: &[FileName],
    upstream: F::Addr,
    origin: Option<MessageOrigin<F::Addr>>,
    loss: Loss,
) -> Result<(), Failed>
    ensures bytes { AppendsAll (W.contents writer.old) (W.contents writer.new) result
        (lost_json F.family files.now (F.bytes_of upstream) (option_map (origin_seen F.bytes_of) origin)
        loss) }
    ensures count { W.failures writer.new ≡ failures_after (W.failures writer.old) result }
{
    match loss {
        Loss::Restarted => {
            write_heard::<F, W>(writer, files, origin, b",\"verdict\":\"restarted\"}\n")
        }
        Loss::Gone => write_heard::<F, W>(writer, files, origin, b",\"verdict\":\"gone\"}\n"),
        Loss::TimedOut => write_time_out::<F, W>(writer, upstream),
    }
}

/// Writes how many records a message needs, and ends the object.
fn write_needed<W: Drain>(writer: &mut W, needed: usize) -> Result<(), Failed>
    ensures bytes { AppendsAll (W.contents writer.old) (W.contents writer.new) result
        (needed_json needed) }
    ensures count { W.failures writer.new ≡ failures_after (W.failures writer.old) result }
{
    let mut digits = Buffer::new();
    let pieces = [b",\"needed\":", digits.format(needed).as_bytes(), b"}\n"];
    write_pieces(writer, &pieces)
}

/// Writes a message for which the upstream neighbour has no room.
pub(crate) fn write_full_json<F: Family, W: Drain>(
    writer: &mut W,
    files: &[FileName],
    origin: Option<MessageOrigin<F::Addr>>,
    needed: usize,
) -> Result<(), Failed>
    ensures bytes { AppendsAll (W.contents writer.old) (W.contents writer.new) result
        (named_json F.family files.now (codes "full") (option_map (origin_seen F.bytes_of) origin)
        ++ needed_json needed) }
    ensures count { W.failures writer.new ≡ failures_after (W.failures writer.old) result }
{
    write_named::<F, W>(writer, files, b"full", origin)?;
    write_needed(writer, needed)
}

/// Writes the end of the run.
pub(crate) fn write_totals_json<W: Drain>(writer: &mut W, totals: AuditTotals) -> Result<(), Failed>
    ensures bytes { AppendsAll (W.contents writer.old) (W.contents writer.new) result
        (totals_json totals) }
    ensures count { W.failures writer.new ≡ failures_after (W.failures writer.old) result }
{
    let mut due = Buffer::new();
    let mut late = Buffer::new();
    let mut worst = Buffer::new();
    let mut open = Buffer::new();
    let pieces = [
        b"end\",\"due\":",
        due.format(totals.due).as_bytes(),
        b",\"late\":",
        late.format(totals.late).as_bytes(),
        b",\"worst\":",
        worst.format(totals.worst).as_bytes(),
        b",\"open\":",
        open.format(totals.open).as_bytes(),
        b"}\n",
    ];
    write_pieces(writer, &pieces)
}
