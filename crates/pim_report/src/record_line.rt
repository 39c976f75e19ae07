//! The line of a downstream record.
//!
//! No record is in a Tmp state between calls. These states still have names, so that each record
//! has a line.

ghost use Rattle.std.specs.Prelude.{◌≡◌, codes};
ghost use Rattle.pim_device.specs.Device.{AppendsAll, failures_after};
ghost use Rattle.pim_down.specs.Seen.{record_of_seen};
ghost use Rattle.pim_report.specs.RecordLine.{state_name, time_left, record_line};

use crate::echo_line::show_what;
use itoa::Buffer;
use pim_addr::{Drain, Failed, Family};
use pim_down::{Pending, Record, State};
use pim_lines::{Shown, number_or, write_pieces};

/// The name of a machine's state.
pub fn state_name(state: &State) -> &[u8]
    ensures { result.now ≡ state_name state.now }
{
    match state {
        State::Join => b"join",
        State::PrunePending => b"prune-pending",
        State::Prune => b"prune",
        State::PruneTmp => b"prune-tmp",
        State::PrunePendingTmp => b"prune-pending-tmp",
    }
}

/// The time left on a prune-pending timer, if it runs.
fn time_left(pending: Option<Pending>) -> Option<u64>
    ensures { result ≡ time_left pending }
{
    match pending {
        Some(timer) => Some(timer.ends_in),
        None => None,
    }
}

/// Writes the line of a record, with the time left on its timers in milliseconds.
///
/// # Errors
/// The device failed: a prefix of the line was written.
pub fn write_record_line<F: Family, W: Drain>(
    writer: &mut W,
    reported: Record<F::Addr>,
) -> Result<(), Failed>
    ensures bytes { AppendsAll (W.contents writer.old) (W.contents writer.new) result
        (record_line F.family (record_of_seen F.bytes_of reported)) }
    ensures count { W.failures writer.new ≡ failures_after (W.failures writer.old) result }
{
    let Record { key, machine } = reported;
    let what = show_what::<F>(key.what);
    let group = Shown::address::<F>(key.group);
    let state = machine.state;
    let mut on = Buffer::new();
    let mut expiry = Buffer::new();
    let mut pending = Buffer::new();
    let pieces = [
        b"port ",
        on.format(key.port).as_bytes(),
        b" ",
        what.kind(),
        what.source(),
        what.gap(),
        group.text(),
        b" ",
        state_name(&state),
        b" et ",
        number_or(&mut expiry, machine.expires_in, b"never"),
        b" ppt ",
        number_or(&mut pending, time_left(machine.pending), b"-"),
        b"\n",
    ];
    write_pieces(writer, &pieces)
}
