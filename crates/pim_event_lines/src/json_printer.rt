//! Writes events as JSON.

ghost use Rattle.std.specs.Prelude.{◌≡◌, ◌++◌, ℕ, List};
ghost use Rattle.pim_device.specs.Device.{AppendsAll, failures_after};
ghost use Rattle.pim_events.specs.Events.{happening_seen, event_seen};
ghost use Rattle.pim_event_lines.specs.JsonLine.{time_json, place_json, what_json, json_line};

use crate::files::{FileName, FileNames, files_of};
use crate::json_machines::{
    write_ending_json, write_fired_json, write_time_out_json, write_transition_json,
};
use crate::json_packets::{
    write_hello_json, write_ignored_json, write_judged_json, write_restart_json, write_skipped_json,
};
use crate::json_state::{write_record_json, write_want_json};
use crate::moments::Stamp;
use crate::words::name_of;
use itoa::Buffer;
use pim_addr::{Drain, Failed, Family, write_all};
use pim_events::{EventWriter, Filter, Happening, TraceEvent, is_shown};
use pim_lines::{Name, write_pieces};

/// Writes a moment, in milliseconds, and its time in milliseconds since 1970, if it has one.
fn write_time<W: Drain>(writer: &mut W, ms: u64, epoch: Option<u64>) -> Result<(), Failed>
    ensures bytes { AppendsAll (W.contents writer.old) (W.contents writer.new) result
        (time_json ms epoch) }
    ensures count { W.failures writer.new ≡ failures_after (W.failures writer.old) result }
{
    let mut digits = Buffer::new();
    let ms = digits.format(ms).as_bytes();
    match epoch {
        Some(epoch) => {
            let stamp = Stamp::seconds(epoch);
            let pieces = [b"{\"ms\":", ms, b",\"epoch\":\"", stamp.text(), b"\""];
            write_pieces(writer, &pieces)
        }
        None => {
            let pieces = [b"{\"ms\":", ms, b",\"epoch\":null"];
            write_pieces(writer, &pieces)
        }
    }
}

/// Writes the name of a port, if one is given, up to the name of the event.
fn write_place<W: Drain>(writer: &mut W, names: &[Name], port: Option<usize>) -> Result<(), Failed>
    ensures bytes { AppendsAll (W.contents writer.old) (W.contents writer.new) result
        (place_json names.now port) }
    ensures count { W.failures writer.new ≡ failures_after (W.failures writer.old) result }
{
    match port {
        Some(port) => {
            let pieces = [b",\"port\":\"", name_of(names, port), b"\",\"event\":\""];
            write_pieces(writer, &pieces)
        }
        None => write_all(writer, b",\"port\":null,\"event\":\""),
    }
}

/// Writes the leading members of an object: a moment and a port, up to the name of the event. `ms`
/// is the moment in milliseconds, and `epoch` its time in milliseconds since 1970, if it has one.
///
/// # Errors
/// The device failed: a prefix of them was written.
pub fn write_json_head<W: Drain>(
    writer: &mut W,
    names: &[Name],
    ms: u64,
    epoch: Option<u64>,
    port: Option<usize>,
) -> Result<(), Failed>
    ensures bytes { AppendsAll (W.contents writer.old) (W.contents writer.new) result
        (time_json ms epoch ++ place_json names.now port) }
    ensures count { W.failures writer.new ≡ failures_after (W.failures writer.old) result }
{
    write_time(writer, ms, epoch)?;
    write_place(writer, names, port)
}

/// Writes the name of an event, and its members after it.
fn write_what<F: Family, W: Drain>(
    writer: &mut W,
    files: &[FileName],
    what: &Happening<'_, F>,
) -> Result<(), Failed>
    ensures bytes { AppendsAll (W.contents writer.old) (W.contents writer.new) result
        (what_json F.family files.now (happening_seen F.bytes_of what.now)) }
    ensures count { W.failures writer.new ≡ failures_after (W.failures writer.old) result }
{
    match what {
        Happening::Hello(hello) => write_hello_json::<F, W>(writer, files, hello),
        Happening::Packet(packet) => write_judged_json::<F, W>(writer, files, packet),
        Happening::Transition(change) => write_transition_json::<F, W>(writer, files, change),
        Happening::Ignored(entry) => write_ignored_json::<F, W>(writer, files, entry),
        Happening::Restarted(restart) => write_restart_json(writer, files, *restart),
        Happening::Skipped(skipped) => write_skipped_json(writer, files, *skipped),
        Happening::TimedOut(over) => write_time_out_json::<F, W>(writer, files, over),
        Happening::Fired(firing) => write_fired_json::<F, W>(writer, files, firing),
        Happening::Held(held) => write_record_json::<F, W>(writer, files, held),
        Happening::Wanted(entry) => write_want_json::<F, W>(writer, entry),
        Happening::Ended(ending) => write_ending_json(writer, *ending),
    }
}

/// Writes the line of an event.
fn write_line<F: Family, W: Drain>(
    writer: &mut W,
    names: &[Name],
    files: &[FileNames],
    event: &TraceEvent<'_, F>,
) -> Result<(), Failed>
    ensures bytes { AppendsAll (W.contents writer.old) (W.contents writer.new) result
        (json_line F.family names.now files.now (event_seen F.bytes_of event.now)) }
    ensures count { W.failures writer.new ≡ failures_after (W.failures writer.old) result }
{
    write_json_head(writer, names, event.ms, event.epoch, event.port)?;
    let files = files_of(files, event.port);
    write_what::<F, W>(writer, files, &event.what)
}

/// Writes the line of each event that is shown, as JSON.
#[derive(Clone, Copy)]
pub struct JsonPrinter<'a, A> {
    /// The names of the ports, in the order of their numbers.
    pub names: &'a [Name],
    /// The names of their files as they stand in JSON strings; none for a port with one file.
    pub files: &'a [FileNames],
    /// Which events are shown.
    pub filter: Filter<'a, A>,
}

impl<'a, F: Family, W: Drain> EventWriter<F, W> for JsonPrinter<'a, F::Addr> {
    ghost use Rattle.pim_events.specs.Filter.{filter_seen, if_shown};
    ghost use Rattle.pim_event_lines.specs.JsonLine.{json_line};

    ghost line = { λ printer event. if_shown (filter_seen F.bytes_of printer.filter) event
        (json_line F.family printer.names.now printer.files.now event) };

    ghost contents = { W.contents };

    ghost failures = { W.failures };

    fn write_event(&self, device: &mut W, event: &TraceEvent<'_, F>) -> Result<(), Failed> {
        if !is_shown::<F>(&self.filter, event) {
            return Ok(());
        }
        write_line::<F, W>(device, self.names, self.files, event)
    }
}
