//! What takes the lines of an audit.

ghost use Rattle.std.specs.Prelude.{◌≡◌, ℕ, List, Option};
ghost use Rattle.std.specs.List.{flat_map};
ghost use Rattle.pim_device.specs.Device.{AppendsAll, failures_after};
ghost use Rattle.pim_audit_events.specs.Lines.{Statement};
ghost use Rattle.pim_audit_events.specs.Seen.{line_seen, lines_seen};

use crate::line::AuditLine;
use pim_addr::{Failed, Family};

/// What takes the lines of an audit, one by one, and writes them to a device.
pub trait AuditWriter<F: Family, W> {
    // What it writes of a line, where moment 0 has this time in milliseconds since 1970, if it has
    // one.
    ghost line: { Self → Option ℕ → Statement → List ℕ };

    // The bytes that the device has taken, where they are known.
    ghost contents: { W → Option (List ℕ) };

    // The number of the device's failures; the count stops at 2^64 - 1.
    ghost failures: { W → ℕ };

    /// Takes a line. `begin` is the time of moment 0 in milliseconds since 1970, if it has one.
    ///
    /// # Errors
    /// The device failed: a prefix of what is written of the line was written.
    fn write_line(
        &self,
        device: &mut W,
        begin: Option<u64>,
        statement: &AuditLine<F::Addr>,
    ) -> Result<(), Failed>
        ensures bytes { AppendsAll (contents device.old) (contents device.new) result
            (line self.now begin (line_seen F.bytes_of statement.now)) }
        ensures count { failures device.new ≡ failures_after (failures device.old) result };
}

/// Writes lines, one after the other. `begin` is the time of moment 0 in milliseconds since 1970,
/// if it has one.
///
/// # Errors
/// The device failed: a prefix of what is written of the lines was written.
pub fn write_lines<F: Family, W, T: AuditWriter<F, W>>(
    writer: &T,
    device: &mut W,
    begin: Option<u64>,
    lines: &[AuditLine<F::Addr>],
) -> Result<(), Failed>
    ensures bytes { AppendsAll (T.contents device.old) (T.contents device.new) result
        (flat_map (T.line writer.now begin) (lines_seen F.bytes_of lines.now)) }
    ensures count { T.failures device.new ≡ failures_after (T.failures device.old) result }
{
    for line in lines {
        writer.write_line(device, begin, line)?;
    }
    Ok(())
}
