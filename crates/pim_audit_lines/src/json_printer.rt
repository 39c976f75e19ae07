//! Writes the lines of an audit as JSON.

ghost use Rattle.std.specs.Prelude.{◌≡◌, ℕ, List, option_map};
ghost use Rattle.pim_device.specs.Device.{AppendsAll, failures_after};
ghost use Rattle.pim_audit_events.specs.Seen.{line_seen, origin_seen, said_seen};
ghost use Rattle.pim_audit_lines.specs.AuditJson.{said_json, audit_json};

use crate::json_lines::{
    write_full_json, write_lost_json, write_sent_json, write_timed, write_totals_json,
};
use crate::words::port_of;
use pim_addr::{Drain, Failed, Family};
use pim_audit_events::{AuditEvent, AuditFilter, AuditLine, AuditWriter, MessageOrigin, is_shown};
use pim_event_lines::{FileName, FileNames, files_of, write_json_head, write_restart_json};
use pim_events::epoch_at;
use pim_lines::Name;

/// Writes the name of an event, and its members after it.
fn write_said<F: Family, W: Drain>(
    writer: &mut W,
    files: &[FileName],
    upstream: F::Addr,
    origin: Option<MessageOrigin<F::Addr>>,
    said: &AuditEvent<F::Addr>,
) -> Result<(), Failed>
    ensures bytes { AppendsAll (W.contents writer.old) (W.contents writer.new) result
        (said_json F.family files.now (F.bytes_of upstream) (option_map (origin_seen F.bytes_of) origin)
        (said_seen F.bytes_of said.now)) }
    ensures count { W.failures writer.new ≡ failures_after (W.failures writer.old) result }
{
    match said {
        AuditEvent::Due(_) => Ok(()),
        AuditEvent::Late { entry, since } => {
            write_timed::<F, W>(writer, b"late\",\"since\":", *since, entry)
        }
        AuditEvent::Sent { entry, after } => {
            write_sent_json::<F, W>(writer, files, origin, entry, *after)
        }
        AuditEvent::Dropped { entry, after } => {
            write_timed::<F, W>(writer, b"dropped\",\"after\":", *after, entry)
        }
        AuditEvent::Lost(loss) => write_lost_json::<F, W>(writer, files, upstream, origin, *loss),
        AuditEvent::Full { needed } => write_full_json::<F, W>(writer, files, origin, *needed),
        AuditEvent::Restarted(restart) => write_restart_json(writer, files, *restart),
        AuditEvent::End(totals) => write_totals_json(writer, *totals),
    }
}

/// Writes a line. `begin` is the time of moment 0.
fn write_json<F: Family, W: Drain>(
    writer: &mut W,
    names: &[Name],
    files: &[FileNames],
    upstream: F::Addr,
    begin: Option<u64>,
    line: &AuditLine<F::Addr>,
) -> Result<(), Failed>
    ensures bytes { AppendsAll (W.contents writer.old) (W.contents writer.new) result
        (audit_json F.family names.now files.now (F.bytes_of upstream) begin
        (line_seen F.bytes_of line.now)) }
    ensures count { W.failures writer.new ≡ failures_after (W.failures writer.old) result }
{
    let epoch = epoch_at(begin, line.moment);
    let port = port_of::<F>(line.origin);
    write_json_head(writer, names, line.moment, epoch, port)?;
    let files = files_of(files, port);
    write_said::<F, W>(writer, files, upstream, line.origin, &line.said)
}

/// Writes each line that is shown, as JSON.
#[derive(Clone, Copy)]
pub struct AuditJsonPrinter<'a, A> {
    /// The names of the ports, in the order of their numbers.
    pub names: &'a [Name],
    /// The names of their files as they stand in JSON strings; none for a port with one file.
    pub files: &'a [FileNames],
    /// Which lines are shown.
    pub filter: AuditFilter<'a, A>,
    /// The address of the upstream neighbour.
    pub upstream: A,
}

impl<'a, F: Family, W: Drain> AuditWriter<F, W> for AuditJsonPrinter<'a, F::Addr> {
    ghost use Rattle.pim_audit_events.specs.Filter.{filter_seen, if_shown};
    ghost use Rattle.pim_audit_lines.specs.AuditJson.{audit_json};

    ghost line = { λ printer begin it. if_shown (filter_seen F.bytes_of printer.filter) begin it
        (audit_json F.family printer.names.now printer.files.now (F.bytes_of printer.upstream) begin it) };

    ghost contents = { W.contents };

    ghost failures = { W.failures };

    fn write_line(
        &self,
        device: &mut W,
        begin: Option<u64>,
        statement: &AuditLine<F::Addr>,
    ) -> Result<(), Failed> {
        if !is_shown::<F>(&self.filter, begin, statement) {
            return Ok(());
        }
        write_json::<F, W>(
            device,
            self.names,
            self.files,
            self.upstream,
            begin,
            statement,
        )
    }
}
