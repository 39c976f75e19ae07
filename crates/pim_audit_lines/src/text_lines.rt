//! The lines of an audit as text, without their moments and ports.

ghost use Rattle.std.specs.Prelude.{◌≡◌, ◌++◌, [], None, codes, option_map};
ghost use Rattle.pim_device.specs.Device.{AppendsAll, failures_after};
ghost use Rattle.pim_down.specs.Seen.{event_seen};
ghost use Rattle.pim_lines.specs.Pieces.{line};
ghost use Rattle.pim_audit_events.specs.Seen.{origin_seen};
ghost use Rattle.pim_audit_lines.specs.AuditText.{origin_text, late_line, sends_line};
ghost use Rattle.pim_audit_lines.specs.AuditText.{dropped_line, lost_line, full_line, totals_line};

use crate::words::asked_word;
use itoa::Buffer;
use pim_addr::{Drain, Failed, Family, write_all};
use pim_audit_events::{AuditTotals, Loss, MessageOrigin};
use pim_down::Event;
use pim_event_lines::{FileName, Stamp, file_of, show_what};
use pim_events::epoch_at;
use pim_lines::{ShortText, write_pieces};
use pim_time::TimeForm;

/// Writes the record of a message and its sender; nothing without one.
fn write_origin<F: Family, W: Drain>(
    writer: &mut W,
    files: &[FileName],
    origin: Option<MessageOrigin<F::Addr>>,
) -> Result<(), Failed>
    ensures bytes { AppendsAll (W.contents writer.old) (W.contents writer.new) result
        (origin_text F.family files.now (option_map (origin_seen F.bytes_of) origin)) }
    ensures count { W.failures writer.new ≡ failures_after (W.failures writer.old) result }
{
    let Some(message) = origin else {
        return Ok(());
    };
    let mut frame = Buffer::new();
    let from = ShortText::of::<F>(message.from);
    let pieces = [
        file_of(files, message.frame),
        b"#",
        frame.format(message.frame.record).as_bytes(),
        b" ",
        from.text(),
    ];
    write_pieces(writer, &pieces)
}

/// Writes the line of an entry that is late: it is due since this moment, in milliseconds.
pub(crate) fn write_late_line<F: Family, W: Drain>(
    writer: &mut W,
    form: TimeForm,
    begin: Option<u64>,
    entry: &Event<F::Addr>,
    since: u64,
) -> Result<(), Failed>
    ensures bytes { AppendsAll (W.contents writer.old) (W.contents writer.new) result
        (late_line F.family form begin (event_seen F.bytes_of entry.now) since) }
    ensures count { W.failures writer.new ≡ failures_after (W.failures writer.old) result }
{
    let joins = entry.joins;
    let stamp = Stamp::of(form, since, epoch_at(begin, since));
    let what = show_what::<F>(entry.what);
    let group = ShortText::of::<F>(entry.group);
    let pieces = [
        b"late: ",
        asked_word(&joins),
        b" ",
        what.kind(),
        what.source(),
        what.gap(),
        group.text(),
        b", due since ",
        stamp.text(),
        b"\n",
    ];
    write_pieces(writer, &pieces)
}

/// Writes that a late entry was sent, which had been due for this many milliseconds.
fn write_sends<F: Family, W: Drain>(
    writer: &mut W,
    entry: &Event<F::Addr>,
    after: u64,
) -> Result<(), Failed>
    ensures bytes { AppendsAll (W.contents writer.old) (W.contents writer.new) result
        (sends_line F.family (event_seen F.bytes_of entry.now) after) }
    ensures count { W.failures writer.new ≡ failures_after (W.failures writer.old) result }
{
    let joins = entry.joins;
    let what = show_what::<F>(entry.what);
    let group = ShortText::of::<F>(entry.group);
    let mut digits = Buffer::new();
    let pieces = [
        b" sends ",
        asked_word(&joins),
        b" ",
        what.kind(),
        what.source(),
        what.gap(),
        group.text(),
        b": ",
        digits.format(after).as_bytes(),
        b" ms after it was due\n",
    ];
    write_pieces(writer, &pieces)
}

/// Writes the line of a late entry that was sent, and its record.
pub(crate) fn write_sent_line<F: Family, W: Drain>(
    writer: &mut W,
    files: &[FileName],
    origin: Option<MessageOrigin<F::Addr>>,
    entry: &Event<F::Addr>,
    after: u64,
) -> Result<(), Failed>
    ensures bytes { AppendsAll (W.contents writer.old) (W.contents writer.new) result
        (origin_text F.family files.now (option_map (origin_seen F.bytes_of) origin)
        ++ sends_line F.family (event_seen F.bytes_of entry.now) after) }
    ensures count { W.failures writer.new ≡ failures_after (W.failures writer.old) result }
{
    write_origin::<F, W>(writer, files, origin)?;
    write_sends::<F, W>(writer, entry, after)
}

/// Writes the line of a late entry that is no longer due.
pub(crate) fn write_dropped_line<F: Family, W: Drain>(
    writer: &mut W,
    entry: &Event<F::Addr>,
    after: u64,
) -> Result<(), Failed>
    ensures bytes { AppendsAll (W.contents writer.old) (W.contents writer.new) result
        (dropped_line F.family (event_seen F.bytes_of entry.now) after) }
    ensures count { W.failures writer.new ≡ failures_after (W.failures writer.old) result }
{
    let joins = entry.joins;
    let what = show_what::<F>(entry.what);
    let group = ShortText::of::<F>(entry.group);
    let mut digits = Buffer::new();
    let pieces = [
        b"no longer due: ",
        asked_word(&joins),
        b" ",
        what.kind(),
        what.source(),
        what.gap(),
        group.text(),
        b", after ",
        digits.format(after).as_bytes(),
        b" ms\n",
    ];
    write_pieces(writer, &pieces)
}

/// Writes that a Hello of this record has a new Generation ID.
fn write_restarted<F: Family, W: Drain>(
    writer: &mut W,
    files: &[FileName],
    origin: Option<MessageOrigin<F::Addr>>,
) -> Result<(), Failed>
    ensures bytes { AppendsAll (W.contents writer.old) (W.contents writer.new) result
        (origin_text F.family files.now (option_map (origin_seen F.bytes_of) origin)
        ++ line (codes ": hello restarted; it lost what it was asked")) }
    ensures count { W.failures writer.new ≡ failures_after (W.failures writer.old) result }
{
    write_origin::<F, W>(writer, files, origin)?;
    write_all(writer, b": hello restarted; it lost what it was asked\n")
}

/// Writes that a Hello of this record is a goodbye.
fn write_gone<F: Family, W: Drain>(
    writer: &mut W,
    files: &[FileName],
    origin: Option<MessageOrigin<F::Addr>>,
) -> Result<(), Failed>
    ensures bytes { AppendsAll (W.contents writer.old) (W.contents writer.new) result
        (origin_text F.family files.now (option_map (origin_seen F.bytes_of) origin)
        ++ line (codes ": hello gone; it lost what it was asked")) }
    ensures count { W.failures writer.new ≡ failures_after (W.failures writer.old) result }
{
    write_origin::<F, W>(writer, files, origin)?;
    write_all(writer, b": hello gone; it lost what it was asked\n")
}

/// Writes that the time of the upstream neighbour is over.
fn write_time_out<F: Family, W: Drain>(writer: &mut W, upstream: F::Addr) -> Result<(), Failed>
    ensures bytes { AppendsAll (W.contents writer.old) (W.contents writer.new) result
        (lost_line F.family [] (F.bytes_of upstream) None Loss.TimedOut) }
    ensures count { W.failures writer.new ≡ failures_after (W.failures writer.old) result }
{
    let neighbour = ShortText::of::<F>(upstream);
    let pieces = [
        b"neighbour ",
        neighbour.text(),
        b" timed out; it lost what it was asked\n",
    ];
    write_pieces(writer, &pieces)
}

/// Writes the line of an upstream neighbour that lost what it was asked.
pub(crate) fn write_lost_line<F: Family, W: Drain>(
    writer: &mut W,
    files: &[FileName],
    upstream: F::Addr,
    origin: Option<MessageOrigin<F::Addr>>,
    loss: Loss,
) -> Result<(), Failed>
    ensures bytes { AppendsAll (W.contents writer.old) (W.contents writer.new) result
        (lost_line F.family files.now (F.bytes_of upstream) (option_map (origin_seen F.bytes_of) origin)
        loss) }
    ensures count { W.failures writer.new ≡ failures_after (W.failures writer.old) result }
{
    match loss {
        Loss::Restarted => write_restarted::<F, W>(writer, files, origin),
        Loss::Gone => write_gone::<F, W>(writer, files, origin),
        Loss::TimedOut => write_time_out::<F, W>(writer, upstream),
    }
}

/// Writes how many records a message needs.
fn write_needed<W: Drain>(writer: &mut W, needed: usize) -> Result<(), Failed>
    ensures bytes { AppendsAll (W.contents writer.old) (W.contents writer.new) result
        (full_line needed) }
    ensures count { W.failures writer.new ≡ failures_after (W.failures writer.old) result }
{
    let mut digits = Buffer::new();
    let pieces = [
        b": full ",
        digits.format(needed).as_bytes(),
        b" at the upstream neighbour\n",
    ];
    write_pieces(writer, &pieces)
}

/// Writes the line of a message for which the upstream neighbour has no room.
pub(crate) fn write_full_line<F: Family, W: Drain>(
    writer: &mut W,
    files: &[FileName],
    origin: Option<MessageOrigin<F::Addr>>,
    needed: usize,
) -> Result<(), Failed>
    ensures bytes { AppendsAll (W.contents writer.old) (W.contents writer.new) result
        (origin_text F.family files.now (option_map (origin_seen F.bytes_of) origin) ++ full_line needed) }
    ensures count { W.failures writer.new ≡ failures_after (W.failures writer.old) result }
{
    write_origin::<F, W>(writer, files, origin)?;
    write_needed(writer, needed)
}

/// Writes the line of the end of the run.
pub(crate) fn write_totals_line<W: Drain>(writer: &mut W, totals: AuditTotals) -> Result<(), Failed>
    ensures bytes { AppendsAll (W.contents writer.old) (W.contents writer.new) result
        (totals_line totals) }
    ensures count { W.failures writer.new ≡ failures_after (W.failures writer.old) result }
{
    let mut due = Buffer::new();
    let mut late = Buffer::new();
    let mut worst = Buffer::new();
    let mut open = Buffer::new();
    let pieces = [
        b"end: due ",
        due.format(totals.due).as_bytes(),
        b" late ",
        late.format(totals.late).as_bytes(),
        b" worst ",
        worst.format(totals.worst).as_bytes(),
        b" open ",
        open.format(totals.open).as_bytes(),
        b"\n",
    ];
    write_pieces(writer, &pieces)
}
