//! The JSON of machines, neighbours and the end, from the name of the event on.

ghost use Rattle.std.specs.Prelude.{◌≡◌, ◌++◌, None, codes};
ghost use Rattle.pim_device.specs.Device.{AppendsAll, failures_after};
ghost use Rattle.pim_down.specs.Seen.{what_seen};
ghost use Rattle.pim_events.specs.Events.{transition_seen, time_out_seen, fired_seen};
ghost use Rattle.pim_event_lines.specs.JsonLine.{change_json, source_json, outcome_json};
ghost use Rattle.pim_event_lines.specs.JsonLine.{transition_json, time_out_json, timer_json};
ghost use Rattle.pim_event_lines.specs.JsonLine.{effect_json, fired_json, held_json, counts_json};
ghost use Rattle.pim_event_lines.specs.JsonLine.{ending_json, overrides_json, timers_json, by_json};
ghost use Rattle.pim_lines.specs.Pieces.{line};

use crate::files::{FileName, file_of, if_several};
use crate::json_packets::write_named;
use crate::words::{
    bool_json, by_word, expiry_json, kind_word, pending_json, state_text, timer_word,
};
use itoa::Buffer;
use pim_addr::{Drain, Failed, Family, write_all};
use pim_capture::RecordPlace;
use pim_down::What;
use pim_events::{EndOfTrace, Fired, SkipCounts, TimeOut, TransitionEvent, state_in};
use pim_lines::{ShortText, number_or, write_pieces};

/// Writes the source of a machine, or `null`.
fn write_source<F: Family, W: Drain>(writer: &mut W, what: What<F::Addr>) -> Result<(), Failed>
    ensures bytes { AppendsAll (W.contents writer.old) (W.contents writer.new) result
        (source_json F.family (what_seen F.bytes_of what)) }
    ensures count { W.failures writer.new ≡ failures_after (W.failures writer.old) result }
{
    match what {
        What::Star => write_all(writer, b"null"),
        What::Source(source) | What::Rpt(source) => {
            let source = ShortText::of::<F>(source);
            let pieces = [b"\"", source.text(), b"\""];
            write_pieces(writer, &pieces)
        }
    }
}

/// Writes by what a message changed which machine, up to its source.
fn write_by<F: Family, W: Drain>(
    writer: &mut W,
    change: &TransitionEvent<F::Addr>,
) -> Result<(), Failed>
    ensures bytes { AppendsAll (W.contents writer.old) (W.contents writer.new) result
        (by_json F.family (transition_seen F.bytes_of change.now)) }
    ensures count { W.failures writer.new ≡ failures_after (W.failures writer.old) result }
{
    let by = change.by;
    let kind = kind_word::<F>(change.what);
    let group = ShortText::of::<F>(change.group);
    let pieces = [
        b",\"by\":\"",
        by_word(&by),
        b"\",\"what\":\"",
        kind.text(),
        b"\",\"group\":\"",
        group.text(),
        b"\",\"source\":",
    ];
    write_pieces(writer, &pieces)
}

/// Writes the sender of a message, and by what it changed which machine, up to its source.
fn write_change<F: Family, W: Drain>(
    writer: &mut W,
    files: &[FileName],
    change: &TransitionEvent<F::Addr>,
) -> Result<(), Failed>
    ensures bytes { AppendsAll (W.contents writer.old) (W.contents writer.new) result
        (change_json F.family files.now (transition_seen F.bytes_of change.now)) }
    ensures count { W.failures writer.new ≡ failures_after (W.failures writer.old) result }
{
    write_named::<F, W>(writer, b"transition", files, change.frame, change.from)?;
    write_by::<F, W>(writer, change)
}

/// Writes the states before and after a message, the timers after it, and the neighbours.
fn write_timers<F: Family, W: Drain>(
    writer: &mut W,
    change: &TransitionEvent<F::Addr>,
) -> Result<(), Failed>
    ensures bytes { AppendsAll (W.contents writer.old) (W.contents writer.new) result
        (timers_json (transition_seen F.bytes_of change.now)) }
    ensures count { W.failures writer.new ≡ failures_after (W.failures writer.old) result }
{
    let was = change.before;
    let after = state_in(change.after);
    let mut expiry = Buffer::new();
    let mut pending = Buffer::new();
    let mut neighbours = Buffer::new();
    let pieces = [
        b",\"was\":\"",
        state_text(&was),
        b"\",\"now\":\"",
        state_text(&after),
        b"\",\"et\":",
        expiry_json(&mut expiry, change.after),
        b",\"ppt\":",
        pending_json(&mut pending, change.after),
        b",\"neighbours\":",
        neighbours.format(change.neighbours).as_bytes(),
        b",\"overrides\":",
    ];
    write_pieces(writer, &pieces)
}

/// Writes that no packet is overridden, and ends the object.
fn write_no_overrides<W: Drain>(writer: &mut W, files: &[FileName]) -> Result<(), Failed>
    ensures bytes { AppendsAll (W.contents writer.old) (W.contents writer.new) result
        (line (overrides_json files.now None ++ codes "}")) }
    ensures count { W.failures writer.new ≡ failures_after (W.failures writer.old) result }
{
    let pieces = [
        b"null",
        if_several(files, b",\"overrides_file\":null"),
        b"}\n",
    ];
    write_pieces(writer, &pieces)
}

/// Writes the packet that is overridden, or `null`, and ends the object.
fn write_overrides<W: Drain>(
    writer: &mut W,
    files: &[FileName],
    overrides: Option<RecordPlace>,
) -> Result<(), Failed>
    ensures bytes { AppendsAll (W.contents writer.old) (W.contents writer.new) result
        (line (overrides_json files.now overrides ++ codes "}")) }
    ensures count { W.failures writer.new ≡ failures_after (W.failures writer.old) result }
{
    let Some(place) = overrides else {
        return write_no_overrides(writer, files);
    };
    let mut digits = Buffer::new();
    let pieces = [
        digits.format(place.record).as_bytes(),
        if_several(files, b",\"overrides_file\":\""),
        file_of(files, place),
        if_several(files, b"\""),
        b"}\n",
    ];
    write_pieces(writer, &pieces)
}

/// Writes the states before and after a message, the timers after it, and what it overrides.
fn write_outcome<F: Family, W: Drain>(
    writer: &mut W,
    files: &[FileName],
    change: &TransitionEvent<F::Addr>,
) -> Result<(), Failed>
    ensures bytes { AppendsAll (W.contents writer.old) (W.contents writer.new) result
        (outcome_json files.now (transition_seen F.bytes_of change.now)) }
    ensures count { W.failures writer.new ≡ failures_after (W.failures writer.old) result }
{
    write_timers::<F, W>(writer, change)?;
    write_overrides(writer, files, change.overrides)
}

/// Writes the source of a machine, and what a message changed.
fn write_changed<F: Family, W: Drain>(
    writer: &mut W,
    files: &[FileName],
    change: &TransitionEvent<F::Addr>,
) -> Result<(), Failed>
    ensures bytes { AppendsAll (W.contents writer.old) (W.contents writer.new) result
        (source_json F.family (what_seen F.bytes_of change.now.what)
        ++ outcome_json files.now (transition_seen F.bytes_of change.now)) }
    ensures count { W.failures writer.new ≡ failures_after (W.failures writer.old) result }
{
    write_source::<F, W>(writer, change.what)?;
    write_outcome::<F, W>(writer, files, change)
}

/// Writes the members of a machine that a message changed.
pub(crate) fn write_transition_json<F: Family, W: Drain>(
    writer: &mut W,
    files: &[FileName],
    change: &TransitionEvent<F::Addr>,
) -> Result<(), Failed>
    ensures bytes { AppendsAll (W.contents writer.old) (W.contents writer.new) result
        (transition_json F.family files.now (transition_seen F.bytes_of change.now)) }
    ensures count { W.failures writer.new ≡ failures_after (W.failures writer.old) result }
{
    write_change::<F, W>(writer, files, change)?;
    write_changed::<F, W>(writer, files, change)
}

/// Writes the members of a neighbour whose time is over.
pub(crate) fn write_time_out_json<F: Family, W: Drain>(
    writer: &mut W,
    files: &[FileName],
    over: &TimeOut<F::Addr>,
) -> Result<(), Failed>
    ensures bytes { AppendsAll (W.contents writer.old) (W.contents writer.new) result
        (time_out_json F.family files.now (time_out_seen F.bytes_of over.now)) }
    ensures count { W.failures writer.new ≡ failures_after (W.failures writer.old) result }
{
    let neighbour = ShortText::of::<F>(over.neighbour);
    let mut frame = Buffer::new();
    let mut moment = Buffer::new();
    let pieces = [
        b"timed-out\",\"neighbour\":\"",
        neighbour.text(),
        b"\",\"cause\":{\"frame\":",
        frame.format(over.frame.record).as_bytes(),
        if_several(files, b",\"file\":\""),
        file_of(files, over.frame),
        if_several(files, b"\""),
        b",\"ms\":",
        moment.format(over.ms).as_bytes(),
        b"}}\n",
    ];
    write_pieces(writer, &pieces)
}

/// Writes a timer that fired and its machine, up to its source.
fn write_timer<F: Family, W: Drain>(writer: &mut W, firing: &Fired<F::Addr>) -> Result<(), Failed>
    ensures bytes { AppendsAll (W.contents writer.old) (W.contents writer.new) result
        (timer_json F.family (fired_seen F.bytes_of firing.now)) }
    ensures count { W.failures writer.new ≡ failures_after (W.failures writer.old) result }
{
    let timer = firing.timer;
    let kind = kind_word::<F>(firing.what);
    let group = ShortText::of::<F>(firing.group);
    let pieces = [
        b"fired\",\"timer\":\"",
        timer_word(&timer),
        b"\",\"what\":\"",
        kind.text(),
        b"\",\"group\":\"",
        group.text(),
        b"\",\"source\":",
    ];
    write_pieces(writer, &pieces)
}

/// Writes what a timer that fired changed, and the packet that set it.
fn write_effect<F: Family, W: Drain>(
    writer: &mut W,
    files: &[FileName],
    firing: &Fired<F::Addr>,
) -> Result<(), Failed>
    ensures bytes { AppendsAll (W.contents writer.old) (W.contents writer.new) result
        (effect_json F.family files.now (fired_seen F.bytes_of firing.now)) }
    ensures count { W.failures writer.new ≡ failures_after (W.failures writer.old) result }
{
    let after = firing.after;
    let echo = firing.echo;
    let before = Some(firing.before);
    let cause = firing.cause;
    let from = ShortText::of::<F>(cause.from);
    let mut frame = Buffer::new();
    let mut moment = Buffer::new();
    let pieces = [
        b",\"was\":\"",
        state_text(&before),
        b"\",\"now\":\"",
        state_text(&after),
        b"\",\"echo\":",
        bool_json(&echo),
        b",\"cause\":{\"frame\":",
        frame.format(cause.frame.record).as_bytes(),
        if_several(files, b",\"file\":\""),
        file_of(files, cause.frame),
        if_several(files, b"\""),
        b",\"from\":\"",
        from.text(),
        b"\",\"ms\":",
        moment.format(cause.ms).as_bytes(),
        b"}}\n",
    ];
    write_pieces(writer, &pieces)
}

/// Writes the source of a machine, and what a timer that fired changed.
fn write_fired<F: Family, W: Drain>(
    writer: &mut W,
    files: &[FileName],
    firing: &Fired<F::Addr>,
) -> Result<(), Failed>
    ensures bytes { AppendsAll (W.contents writer.old) (W.contents writer.new) result
        (source_json F.family (what_seen F.bytes_of firing.now.what)
        ++ effect_json F.family files.now (fired_seen F.bytes_of firing.now)) }
    ensures count { W.failures writer.new ≡ failures_after (W.failures writer.old) result }
{
    write_source::<F, W>(writer, firing.what)?;
    write_effect::<F, W>(writer, files, firing)
}

/// Writes the members of a timer that fired.
pub(crate) fn write_fired_json<F: Family, W: Drain>(
    writer: &mut W,
    files: &[FileName],
    firing: &Fired<F::Addr>,
) -> Result<(), Failed>
    ensures bytes { AppendsAll (W.contents writer.old) (W.contents writer.new) result
        (fired_json F.family files.now (fired_seen F.bytes_of firing.now)) }
    ensures count { W.failures writer.new ≡ failures_after (W.failures writer.old) result }
{
    write_timer::<F, W>(writer, firing)?;
    write_fired::<F, W>(writer, files, firing)
}

/// Writes the number of machines and of neighbours.
fn write_held<W: Drain>(writer: &mut W, records: usize, neighbours: usize) -> Result<(), Failed>
    ensures bytes { AppendsAll (W.contents writer.old) (W.contents writer.new) result
        (held_json records neighbours) }
    ensures count { W.failures writer.new ≡ failures_after (W.failures writer.old) result }
{
    let mut machines = Buffer::new();
    let mut others = Buffer::new();
    let pieces = [
        b"end\",\"records\":",
        machines.format(records).as_bytes(),
        b",\"neighbours\":",
        others.format(neighbours).as_bytes(),
        b",\"skipped\":",
    ];
    write_pieces(writer, &pieces)
}

/// Writes the counts of skipped records.
fn write_counts<W: Drain>(writer: &mut W, counts: SkipCounts) -> Result<(), Failed>
    ensures bytes { AppendsAll (W.contents writer.old) (W.contents writer.new) result
        (line (counts_json counts ++ codes "}")) }
    ensures count { W.failures writer.new ≡ failures_after (W.failures writer.old) result }
{
    let mut cut = Buffer::new();
    let mut not_ip = Buffer::new();
    let mut bad_header = Buffer::new();
    let mut not_pim = Buffer::new();
    let mut fragment = Buffer::new();
    let mut family = Buffer::new();
    let pieces = [
        b"{\"cut\":",
        cut.format(counts.cut).as_bytes(),
        b",\"not-ip\":",
        not_ip.format(counts.not_ip).as_bytes(),
        b",\"bad-header\":",
        bad_header.format(counts.bad_header).as_bytes(),
        b",\"not-pim\":",
        not_pim.format(counts.not_pim).as_bytes(),
        b",\"fragment\":",
        fragment.format(counts.fragment).as_bytes(),
        b",\"family\":",
        family.format(counts.family).as_bytes(),
        b"}}\n",
    ];
    write_pieces(writer, &pieces)
}

/// Writes the members of the end of the run.
pub(crate) fn write_ending_json<W: Drain>(writer: &mut W, ending: EndOfTrace) -> Result<(), Failed>
    ensures bytes { AppendsAll (W.contents writer.old) (W.contents writer.new) result
        (ending_json ending) }
    ensures count { W.failures writer.new ≡ failures_after (W.failures writer.old) result }
{
    write_held(writer, ending.records, ending.neighbours)?;
    write_counts(writer, ending.skipped)
}
