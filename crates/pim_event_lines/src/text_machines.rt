//! The lines of machines, neighbours and the end as text, without their moments and ports.

ghost use Rattle.std.specs.Prelude.{◌≡◌, ◌++◌};
ghost use Rattle.pim_device.specs.Device.{AppendsAll, failures_after};
ghost use Rattle.pim_events.specs.Events.{transition_seen, time_out_seen, cause_seen, fired_seen};
ghost use Rattle.pim_event_lines.specs.TextLine.{neighbours_text, expiry_part, waiting_part};
ghost use Rattle.pim_event_lines.specs.TextLine.{overrides_part, change_text, timers_line};
ghost use Rattle.pim_event_lines.specs.TextLine.{transition_line, time_out_line, effect_text};
ghost use Rattle.pim_event_lines.specs.TextLine.{fired_line, cause_line, held_text, counts_text};
ghost use Rattle.pim_event_lines.specs.TextLine.{ending_line, change_words, sender_text};
ghost use Rattle.pim_lines.specs.Pieces.{line};
ghost use Rattle.std.specs.Prelude.{if◌then◌else◌, ◌==◌, codes};

use crate::files::{FileName, file_of};
use crate::words::{by_words, cause_words, echo_text, show_what, state_text, timer_words};
use itoa::Buffer;
use pim_addr::{Drain, Failed, Family, write_all};
use pim_capture::RecordPlace;
use pim_down::{Machine, Pending, Timer};
use pim_events::{
    Cause, EndOfTrace, Fired, SkipCounts, TimeOut, TransitionEvent, pending_in, state_in,
};
use pim_lines::{ShortText, number_or, write_pieces};

/// Writes the time left on the Expiry Timer of a machine that is held.
fn write_expiry<W: Drain>(writer: &mut W, after: Option<Machine>) -> Result<(), Failed>
    ensures bytes { AppendsAll (W.contents writer.old) (W.contents writer.new) result
        (expiry_part after) }
    ensures count { W.failures writer.new ≡ failures_after (W.failures writer.old) result }
{
    let Some(machine) = after else {
        return Ok(());
    };
    let mut digits = Buffer::new();
    let pieces = [
        b", et ",
        number_or(&mut digits, machine.expires_in, b"never"),
    ];
    write_pieces(writer, &pieces)
}

/// The word after the number of neighbours.
fn neighbours_word(count: usize) -> &'static [u8]
    ensures { result.now ≡ (if count == 1 then codes " neighbour" else codes " neighbours") }
{
    if count == 1 {
        b" neighbour"
    } else {
        b" neighbours"
    }
}

/// Writes the time left on a Prune-Pending Timer and the number of neighbours, if the timer runs.
fn write_waiting<W: Drain>(
    writer: &mut W,
    neighbours: usize,
    pending: Option<Pending>,
) -> Result<(), Failed>
    ensures bytes { AppendsAll (W.contents writer.old) (W.contents writer.new) result
        (waiting_part neighbours pending) }
    ensures count { W.failures writer.new ≡ failures_after (W.failures writer.old) result }
{
    let Some(timer) = pending else {
        return Ok(());
    };
    let mut left = Buffer::new();
    let mut count = Buffer::new();
    let pieces = [
        b", ppt ",
        left.format(timer.ends_in).as_bytes(),
        b", ",
        count.format(neighbours).as_bytes(),
        neighbours_word(neighbours),
    ];
    write_pieces(writer, &pieces)
}

/// Writes the packet that is overridden, if one is, and ends the line.
fn write_overrides<W: Drain>(
    writer: &mut W,
    files: &[FileName],
    overrides: Option<RecordPlace>,
) -> Result<(), Failed>
    ensures bytes { AppendsAll (W.contents writer.old) (W.contents writer.new) result
        (line (overrides_part files.now overrides)) }
    ensures count { W.failures writer.new ≡ failures_after (W.failures writer.old) result }
{
    let Some(place) = overrides else {
        return write_all(writer, b"\n");
    };
    let mut digits = Buffer::new();
    let pieces = [
        b", overrides ",
        file_of(files, place),
        b"#",
        digits.format(place.record).as_bytes(),
        b"\n",
    ];
    write_pieces(writer, &pieces)
}

/// Writes the time left on a Prune-Pending Timer, and the packet that is overridden.
fn write_pending<W: Drain>(
    writer: &mut W,
    files: &[FileName],
    neighbours: usize,
    pending: Option<Pending>,
    overrides: Option<RecordPlace>,
) -> Result<(), Failed>
    ensures bytes { AppendsAll (W.contents writer.old) (W.contents writer.new) result
        (waiting_part neighbours pending ++ line (overrides_part files.now overrides)) }
    ensures count { W.failures writer.new ≡ failures_after (W.failures writer.old) result }
{
    write_waiting(writer, neighbours, pending)?;
    write_overrides(writer, files, overrides)
}

/// Writes the timers of a machine after a message, and the packet that is overridden.
fn write_timers<F: Family, W: Drain>(
    writer: &mut W,
    files: &[FileName],
    change: &TransitionEvent<F::Addr>,
) -> Result<(), Failed>
    ensures bytes { AppendsAll (W.contents writer.old) (W.contents writer.new) result
        (timers_line files.now (transition_seen F.bytes_of change.now)) }
    ensures count { W.failures writer.new ≡ failures_after (W.failures writer.old) result }
{
    let pending = pending_in(change.after);
    write_expiry(writer, change.after)?;
    write_pending(writer, files, change.neighbours, pending, change.overrides)
}

/// Writes what a message does to a machine, and the states before and after it.
fn write_change_words<F: Family, W: Drain>(
    writer: &mut W,
    change: &TransitionEvent<F::Addr>,
) -> Result<(), Failed>
    ensures bytes { AppendsAll (W.contents writer.old) (W.contents writer.new) result
        (change_words F.family (transition_seen F.bytes_of change.now)) }
    ensures count { W.failures writer.new ≡ failures_after (W.failures writer.old) result }
{
    let by = change.by;
    let was = change.before;
    let after = state_in(change.after);
    let what = show_what::<F>(change.what);
    let group = ShortText::of::<F>(change.group);
    let pieces = [
        by_words(&by),
        what.kind(),
        what.source(),
        what.gap(),
        group.text(),
        b": ",
        state_text(&was),
        b" -> ",
        state_text(&after),
    ];
    write_pieces(writer, &pieces)
}

/// Writes the sender of a message.
fn write_sender<F: Family, W: Drain>(
    writer: &mut W,
    files: &[FileName],
    change: &TransitionEvent<F::Addr>,
) -> Result<(), Failed>
    ensures bytes { AppendsAll (W.contents writer.old) (W.contents writer.new) result
        (sender_text F.family files.now change.now.frame (F.bytes_of change.now.from)) }
    ensures count { W.failures writer.new ≡ failures_after (W.failures writer.old) result }
{
    let mut frame = Buffer::new();
    let from = ShortText::of::<F>(change.from);
    let pieces = [
        file_of(files, change.frame),
        b"#",
        frame.format(change.frame.record).as_bytes(),
        b" ",
        from.text(),
    ];
    write_pieces(writer, &pieces)
}

/// Writes the sender of a message, what it does to a machine, and the states before and after it.
fn write_change<F: Family, W: Drain>(
    writer: &mut W,
    files: &[FileName],
    change: &TransitionEvent<F::Addr>,
) -> Result<(), Failed>
    ensures bytes { AppendsAll (W.contents writer.old) (W.contents writer.new) result
        (change_text F.family files.now (transition_seen F.bytes_of change.now)) }
    ensures count { W.failures writer.new ≡ failures_after (W.failures writer.old) result }
{
    write_sender::<F, W>(writer, files, change)?;
    write_change_words::<F, W>(writer, change)
}

/// Writes the line of a machine that a message changed.
pub(crate) fn write_transition_line<F: Family, W: Drain>(
    writer: &mut W,
    files: &[FileName],
    change: &TransitionEvent<F::Addr>,
) -> Result<(), Failed>
    ensures bytes { AppendsAll (W.contents writer.old) (W.contents writer.new) result
        (transition_line F.family files.now (transition_seen F.bytes_of change.now)) }
    ensures count { W.failures writer.new ≡ failures_after (W.failures writer.old) result }
{
    write_change::<F, W>(writer, files, change)?;
    write_timers::<F, W>(writer, files, change)
}

/// Writes the line of a neighbour whose time is over, at this moment in milliseconds.
pub(crate) fn write_time_out_line<F: Family, W: Drain>(
    writer: &mut W,
    files: &[FileName],
    ms: u64,
    over: &TimeOut<F::Addr>,
) -> Result<(), Failed>
    ensures bytes { AppendsAll (W.contents writer.old) (W.contents writer.new) result
        (time_out_line F.family files.now ms (time_out_seen F.bytes_of over.now)) }
    ensures count { W.failures writer.new ≡ failures_after (W.failures writer.old) result }
{
    let neighbour = ShortText::of::<F>(over.neighbour);
    let mut frame = Buffer::new();
    let mut before = Buffer::new();
    let pieces = [
        b"neighbour ",
        neighbour.text(),
        b" timed out; Hello ",
        file_of(files, over.frame),
        b"#",
        frame.format(over.frame.record).as_bytes(),
        b", ",
        before.format(ms.saturating_sub(over.ms)).as_bytes(),
        b" ms before; its joins stay until they expire\n",
    ];
    write_pieces(writer, &pieces)
}

/// Writes what a timer that fired does to its machine.
fn write_effect<F: Family, W: Drain>(writer: &mut W, firing: &Fired<F::Addr>) -> Result<(), Failed>
    ensures bytes { AppendsAll (W.contents writer.old) (W.contents writer.new) result
        (effect_text F.family (fired_seen F.bytes_of firing.now)) }
    ensures count { W.failures writer.new ≡ failures_after (W.failures writer.old) result }
{
    let timer = firing.timer;
    let after = firing.after;
    let echo = firing.echo;
    let before = Some(firing.before);
    let what = show_what::<F>(firing.what);
    let group = ShortText::of::<F>(firing.group);
    let pieces = [
        timer_words(&timer),
        what.kind(),
        what.source(),
        what.gap(),
        group.text(),
        b": ",
        state_text(&before),
        b" -> ",
        state_text(&after),
        echo_text(firing.timer, &echo),
    ];
    write_pieces(writer, &pieces)
}

/// Writes the packet that set a timer, and how long before this moment, in milliseconds, it came.
pub(crate) fn write_cause<F: Family, W: Drain>(
    writer: &mut W,
    files: &[FileName],
    ms: u64,
    timer: Timer,
    cause: Cause<F::Addr>,
) -> Result<(), Failed>
    ensures bytes { AppendsAll (W.contents writer.old) (W.contents writer.new) result
        (cause_line F.family files.now ms timer (cause_seen F.bytes_of cause)) }
    ensures count { W.failures writer.new ≡ failures_after (W.failures writer.old) result }
{
    let from = ShortText::of::<F>(cause.from);
    let mut frame = Buffer::new();
    let mut before = Buffer::new();
    let pieces = [
        cause_words(&timer),
        from.text(),
        b" in ",
        file_of(files, cause.frame),
        b"#",
        frame.format(cause.frame.record).as_bytes(),
        b", ",
        before.format(ms.saturating_sub(cause.ms)).as_bytes(),
        b" ms before\n",
    ];
    write_pieces(writer, &pieces)
}

/// Writes the line of a timer that fired, at this moment in milliseconds.
pub(crate) fn write_fired_line<F: Family, W: Drain>(
    writer: &mut W,
    files: &[FileName],
    ms: u64,
    firing: &Fired<F::Addr>,
) -> Result<(), Failed>
    ensures bytes { AppendsAll (W.contents writer.old) (W.contents writer.new) result
        (fired_line F.family files.now ms (fired_seen F.bytes_of firing.now)) }
    ensures count { W.failures writer.new ≡ failures_after (W.failures writer.old) result }
{
    write_effect::<F, W>(writer, firing)?;
    write_cause::<F, W>(writer, files, ms, firing.timer, firing.cause)
}

/// Writes the number of machines and of neighbours.
fn write_held<W: Drain>(writer: &mut W, records: usize, neighbours: usize) -> Result<(), Failed>
    ensures bytes { AppendsAll (W.contents writer.old) (W.contents writer.new) result
        (held_text records neighbours) }
    ensures count { W.failures writer.new ≡ failures_after (W.failures writer.old) result }
{
    let mut machines = Buffer::new();
    let mut others = Buffer::new();
    let pieces = [
        b"end: records ",
        machines.format(records).as_bytes(),
        b" neighbours ",
        others.format(neighbours).as_bytes(),
    ];
    write_pieces(writer, &pieces)
}

/// Writes the counts of skipped records.
fn write_counts<W: Drain>(writer: &mut W, counts: SkipCounts) -> Result<(), Failed>
    ensures bytes { AppendsAll (W.contents writer.old) (W.contents writer.new) result
        (line (counts_text counts)) }
    ensures count { W.failures writer.new ≡ failures_after (W.failures writer.old) result }
{
    let mut cut = Buffer::new();
    let mut not_ip = Buffer::new();
    let mut bad_header = Buffer::new();
    let mut not_pim = Buffer::new();
    let mut fragment = Buffer::new();
    let mut family = Buffer::new();
    let pieces = [
        b" skipped cut ",
        cut.format(counts.cut).as_bytes(),
        b" not-ip ",
        not_ip.format(counts.not_ip).as_bytes(),
        b" bad-header ",
        bad_header.format(counts.bad_header).as_bytes(),
        b" not-pim ",
        not_pim.format(counts.not_pim).as_bytes(),
        b" fragment ",
        fragment.format(counts.fragment).as_bytes(),
        b" family ",
        family.format(counts.family).as_bytes(),
        b"\n",
    ];
    write_pieces(writer, &pieces)
}

/// Writes the line of the end of the run.
pub(crate) fn write_ending_line<W: Drain>(writer: &mut W, ending: EndOfTrace) -> Result<(), Failed>
    ensures bytes { AppendsAll (W.contents writer.old) (W.contents writer.new) result
        (ending_line ending) }
    ensures count { W.failures writer.new ≡ failures_after (W.failures writer.old) result }
{
    write_held(writer, ending.records, ending.neighbours)?;
    write_counts(writer, ending.skipped)
}
