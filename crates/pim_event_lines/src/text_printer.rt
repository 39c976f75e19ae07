//! Writes events as text.

ghost use Rattle.std.specs.Prelude.{◌≡◌, ℕ, List};
ghost use Rattle.pim_device.specs.Device.{AppendsAll, failures_after};
ghost use Rattle.pim_events.specs.Events.{happening_seen, event_seen};
ghost use Rattle.pim_event_lines.specs.TextLine.{head_text, what_line, text_line};

use crate::files::{FileName, FileNames, files_of};
use crate::moments::Stamp;
use crate::text_machines::{
    write_ending_line, write_fired_line, write_time_out_line, write_transition_line,
};
use crate::text_packets::{
    write_hello_line, write_ignored_line, write_judged_line, write_restart_line, write_skipped_line,
};
use crate::text_state::{write_record_line, write_want_line};
use crate::words::name_of;
use pim_addr::{Drain, Failed, Family};
use pim_events::{EventWriter, Filter, Happening, TraceEvent, is_shown};
use pim_lines::{Name, write_pieces};
use pim_time::TimeForm;

/// Writes a moment and the name of a port, if one is given. `ms` is the moment in milliseconds,
/// and `epoch` its time in milliseconds since 1970, if it has one.
///
/// # Errors
/// The device failed: a prefix of them was written.
pub fn write_text_head<W: Drain>(
    writer: &mut W,
    names: &[Name],
    form: TimeForm,
    ms: u64,
    epoch: Option<u64>,
    port: Option<usize>,
) -> Result<(), Failed>
    ensures bytes { AppendsAll (W.contents writer.old) (W.contents writer.new) result
        (head_text names.now form ms epoch port) }
    ensures count { W.failures writer.new ≡ failures_after (W.failures writer.old) result }
{
    let stamp = Stamp::of(form, ms, epoch);
    match port {
        Some(port) => {
            let pieces = [stamp.text(), b" ", name_of(names, port), b" "];
            write_pieces(writer, &pieces)
        }
        None => {
            let pieces = [stamp.text(), b" "];
            write_pieces(writer, &pieces)
        }
    }
}

/// Writes what happened at this moment, in milliseconds.
fn write_what<F: Family, W: Drain>(
    writer: &mut W,
    files: &[FileName],
    ms: u64,
    what: &Happening<'_, F>,
) -> Result<(), Failed>
    ensures bytes { AppendsAll (W.contents writer.old) (W.contents writer.new) result
        (what_line F.family files.now ms (happening_seen F.bytes_of what.now)) }
    ensures count { W.failures writer.new ≡ failures_after (W.failures writer.old) result }
{
    match what {
        Happening::Hello(hello) => write_hello_line::<F, W>(writer, files, hello),
        Happening::Packet(packet) => write_judged_line::<F, W>(writer, files, packet),
        Happening::Transition(change) => write_transition_line::<F, W>(writer, files, change),
        Happening::Ignored(entry) => write_ignored_line::<F, W>(writer, files, entry),
        Happening::Restarted(restart) => write_restart_line(writer, files, *restart),
        Happening::Skipped(skipped) => write_skipped_line(writer, files, *skipped),
        Happening::TimedOut(over) => write_time_out_line::<F, W>(writer, files, ms, over),
        Happening::Fired(firing) => write_fired_line::<F, W>(writer, files, ms, firing),
        Happening::Held(held) => write_record_line::<F, W>(writer, files, ms, held),
        Happening::Wanted(entry) => write_want_line::<F, W>(writer, entry),
        Happening::Ended(ending) => write_ending_line(writer, *ending),
    }
}

/// Writes the line of an event.
fn write_line<F: Family, W: Drain>(
    writer: &mut W,
    names: &[Name],
    files: &[FileNames],
    form: TimeForm,
    event: &TraceEvent<'_, F>,
) -> Result<(), Failed>
    ensures bytes { AppendsAll (W.contents writer.old) (W.contents writer.new) result
        (text_line F.family names.now files.now form (event_seen F.bytes_of event.now)) }
    ensures count { W.failures writer.new ≡ failures_after (W.failures writer.old) result }
{
    write_text_head(writer, names, form, event.ms, event.epoch, event.port)?;
    let files = files_of(files, event.port);
    write_what::<F, W>(writer, files, event.ms, &event.what)
}

/// Writes the line of each event that is shown, as text.
#[derive(Clone, Copy)]
pub struct TextPrinter<'a, A> {
    /// The names of the ports, in the order of their numbers.
    pub names: &'a [Name],
    /// The names of their files; none for a port with one file.
    pub files: &'a [FileNames],
    /// How moments are written.
    pub form: TimeForm,
    /// Which events are shown.
    pub filter: Filter<'a, A>,
}

impl<'a, F: Family, W: Drain> EventWriter<F, W> for TextPrinter<'a, F::Addr> {
    ghost use Rattle.pim_events.specs.Filter.{filter_seen, if_shown};
    ghost use Rattle.pim_event_lines.specs.TextLine.{text_line};

    ghost line = { λ printer event. if_shown (filter_seen F.bytes_of printer.filter) event
        (text_line F.family printer.names.now printer.files.now printer.form event) };

    ghost contents = { W.contents };

    ghost failures = { W.failures };

    fn write_event(&self, device: &mut W, event: &TraceEvent<'_, F>) -> Result<(), Failed> {
        if !is_shown::<F>(&self.filter, event) {
            return Ok(());
        }
        write_line::<F, W>(device, self.names, self.files, self.form, event)
    }
}
