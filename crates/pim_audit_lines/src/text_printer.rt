//! Writes the lines of an audit as text.

ghost use Rattle.std.specs.Prelude.{◌≡◌, ℕ, List, option_map};
ghost use Rattle.pim_device.specs.Device.{AppendsAll, failures_after};
ghost use Rattle.pim_audit_events.specs.Seen.{line_seen, origin_seen, said_seen};
ghost use Rattle.pim_audit_lines.specs.AuditText.{said_text, audit_text};

use crate::text_lines::{
    write_dropped_line, write_full_line, write_late_line, write_lost_line, write_sent_line,
    write_totals_line,
};
use crate::words::port_of;
use pim_addr::{Drain, Failed, Family};
use pim_audit_events::{AuditEvent, AuditFilter, AuditLine, AuditWriter, is_shown};
use pim_event_lines::{FileName, FileNames, files_of, write_restart_line, write_text_head};
use pim_events::epoch_at;
use pim_lines::Name;
use pim_time::TimeForm;

/// Writes what a line says.
fn write_said<F: Family, W: Drain>(
    writer: &mut W,
    files: &[FileName],
    form: TimeForm,
    upstream: F::Addr,
    begin: Option<u64>,
    line: &AuditLine<F::Addr>,
) -> Result<(), Failed>
    ensures bytes { AppendsAll (W.contents writer.old) (W.contents writer.new) result
        (said_text F.family files.now form (F.bytes_of upstream) begin
        (option_map (origin_seen F.bytes_of) line.now.origin)
        (said_seen F.bytes_of line.now.said)) }
    ensures count { W.failures writer.new ≡ failures_after (W.failures writer.old) result }
{
    let origin = line.origin;
    match &line.said {
        AuditEvent::Due(_) => Ok(()),
        AuditEvent::Late { entry, since } => {
            write_late_line::<F, W>(writer, form, begin, entry, *since)
        }
        AuditEvent::Sent { entry, after } => {
            write_sent_line::<F, W>(writer, files, origin, entry, *after)
        }
        AuditEvent::Dropped { entry, after } => write_dropped_line::<F, W>(writer, entry, *after),
        AuditEvent::Lost(loss) => {
            write_lost_line::<F, W>(writer, files, upstream, origin, *loss)
        }
        AuditEvent::Full { needed } => write_full_line::<F, W>(writer, files, origin, *needed),
        AuditEvent::Restarted(restart) => write_restart_line(writer, files, *restart),
        AuditEvent::End(totals) => write_totals_line(writer, *totals),
    }
}

/// Writes a line as this printer has it. `begin` is the time of moment 0.
fn write_text<F: Family, W: Drain>(
    writer: &mut W,
    printer: &AuditTextPrinter<'_, F::Addr>,
    begin: Option<u64>,
    line: &AuditLine<F::Addr>,
) -> Result<(), Failed>
    ensures bytes { AppendsAll (W.contents writer.old) (W.contents writer.new) result
        (audit_text F.family printer.now.names.now printer.now.files.now printer.now.form
        (F.bytes_of printer.now.upstream) begin (line_seen F.bytes_of line.now)) }
    ensures count { W.failures writer.new ≡ failures_after (W.failures writer.old) result }
{
    let epoch = epoch_at(begin, line.moment);
    let port = port_of::<F>(line.origin);
    write_text_head(
        writer,
        printer.names,
        printer.form,
        line.moment,
        epoch,
        port,
    )?;
    let files = files_of(printer.files, port);
    write_said::<F, W>(writer, files, printer.form, printer.upstream, begin, line)
}

/// Writes each line that is shown, as text.
#[derive(Clone, Copy)]
pub struct AuditTextPrinter<'a, A> {
    /// The names of the ports, in the order of their numbers.
    pub names: &'a [Name],
    /// The names of their files; none for a port with one file.
    pub files: &'a [FileNames],
    /// How moments are written.
    pub form: TimeForm,
    /// Which lines are shown.
    pub filter: AuditFilter<'a, A>,
    /// The address of the upstream neighbour.
    pub upstream: A,
}

impl<'a, F: Family, W: Drain> AuditWriter<F, W> for AuditTextPrinter<'a, F::Addr> {
    ghost use Rattle.pim_audit_events.specs.Filter.{filter_seen, if_shown};
    ghost use Rattle.pim_audit_lines.specs.AuditText.{audit_text};

    ghost line = { λ printer begin it. if_shown (filter_seen F.bytes_of printer.filter) begin it
        (audit_text F.family printer.names.now printer.files.now printer.form (F.bytes_of printer.upstream) begin
        it) };

    ghost contents = { W.contents };

    ghost failures = { W.failures };

    fn write_line(
        &self,
        device: &mut W,
        begin: Option<u64>,
        statement: &AuditLine<F::Addr>,
    ) -> Result<(), Failed> {
        if !is_shown::<F>(&self.filter, begin, statement) {
            return Ok(());
        }
        write_text::<F, W>(device, self, begin, statement)
    }
}
