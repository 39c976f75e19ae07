//! The line of a Refresh.

ghost use Rattle.std.specs.Prelude.{◌≡◌};
ghost use Rattle.pim_device.specs.Device.{AppendsAll, failures_after};
ghost use Rattle.pim_report.specs.RefreshLine.{refresh_line};

use itoa::Buffer;
use pim_addr::{Drain, Failed};
use pim_lines::write_pieces;

/// Writes the line of a Refresh at this moment, in milliseconds (RFC 7761, 4.11).
///
/// # Errors
/// The device failed: a prefix of the line was written.
pub fn write_refresh_line<W: Drain>(writer: &mut W, moment: u64) -> Result<(), Failed>
    ensures bytes { AppendsAll (W.contents writer.old) (W.contents writer.new) result
        (refresh_line moment) }
    ensures count { W.failures writer.new ≡ failures_after (W.failures writer.old) result }
{
    let mut at = Buffer::new();
    let pieces = [at.format(moment).as_bytes(), b" refresh\n"];
    write_pieces(writer, &pieces)
}
