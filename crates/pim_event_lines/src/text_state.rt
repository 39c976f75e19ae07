//! The lines of what a router holds and wants as text, without their moments and ports.

ghost use Rattle.std.specs.Prelude.{◌≡◌, ◌++◌, codes, option_map};
ghost use Rattle.pim_device.specs.Device.{AppendsAll, failures_after};
ghost use Rattle.pim_down.specs.Seen.{what_seen};
ghost use Rattle.pim_events.specs.Events.{held_seen, wanted_what_seen, wanted_seen};
ghost use Rattle.pim_event_lines.specs.TextLine.{pending_part, tree_of, exception_in, record_text};
ghost use Rattle.pim_event_lines.specs.TextLine.{timer_line, record_line, address_part, want_line};

use crate::files::FileName;
use crate::text_machines::write_cause;
use crate::words::show_what;
use itoa::Buffer;
use pim_addr::{Drain, Failed, Family};
use pim_down::{Pending, Timer, What};
use pim_events::{HeldMachine, WantedEntry, WantedWhat};
use pim_lines::{ShortText, number_or, write_pieces};
use pim_report::state_name;

/// Writes a machine that is held, its state, the time since it was last in NoInfo, and the time
/// left on its Expiry Timer.
fn write_record<F: Family, W: Drain>(
    writer: &mut W,
    held: &HeldMachine<F::Addr>,
) -> Result<(), Failed>
    ensures bytes { AppendsAll (W.contents writer.old) (W.contents writer.new) result
        (record_text F.family (held_seen F.bytes_of held.now)) }
    ensures count { W.failures writer.new ≡ failures_after (W.failures writer.old) result }
{
    let state = held.machine.state;
    let what = show_what::<F>(held.what);
    let group = ShortText::of::<F>(held.group);
    let mut since = Buffer::new();
    let mut expiry = Buffer::new();
    let pieces = [
        b"holds ",
        what.kind(),
        what.source(),
        what.gap(),
        group.text(),
        b": ",
        state_name(&state),
        b" for ",
        since.format(held.held_for).as_bytes(),
        b" ms, et ",
        number_or(&mut expiry, held.machine.expires_in, b"never"),
    ];
    write_pieces(writer, &pieces)
}

/// Writes the time left on a Prune-Pending Timer, if it runs.
fn write_pending<W: Drain>(writer: &mut W, pending: Option<Pending>) -> Result<(), Failed>
    ensures bytes { AppendsAll (W.contents writer.old) (W.contents writer.new) result
        (pending_part pending) }
    ensures count { W.failures writer.new ≡ failures_after (W.failures writer.old) result }
{
    let Some(timer) = pending else {
        return Ok(());
    };
    let mut left = Buffer::new();
    let pieces = [b", ppt ", left.format(timer.ends_in).as_bytes()];
    write_pieces(writer, &pieces)
}

/// Writes the time left on the Prune-Pending Timer of a machine, and the packet that set its Expiry
/// Timer. `ms` is this moment, in milliseconds.
fn write_timer<F: Family, W: Drain>(
    writer: &mut W,
    files: &[FileName],
    ms: u64,
    held: &HeldMachine<F::Addr>,
) -> Result<(), Failed>
    ensures bytes { AppendsAll (W.contents writer.old) (W.contents writer.new) result
        (timer_line F.family files.now ms (held_seen F.bytes_of held.now)) }
    ensures count { W.failures writer.new ≡ failures_after (W.failures writer.old) result }
{
    write_pending(writer, held.machine.pending)?;
    write_cause::<F, W>(writer, files, ms, Timer::Expiry, held.cause)
}

/// Writes the line of a machine that is held at this moment, in milliseconds.
pub(crate) fn write_record_line<F: Family, W: Drain>(
    writer: &mut W,
    files: &[FileName],
    ms: u64,
    held: &HeldMachine<F::Addr>,
) -> Result<(), Failed>
    ensures bytes { AppendsAll (W.contents writer.old) (W.contents writer.new) result
        (record_line F.family files.now ms (held_seen F.bytes_of held.now)) }
    ensures count { W.failures writer.new ≡ failures_after (W.failures writer.old) result }
{
    write_record::<F, W>(writer, held)?;
    write_timer::<F, W>(writer, files, ms, held)
}

/// The tree that a router wants: that of the RP, with or without an exception, or that of a source.
fn tree_of<F: Family>(what: WantedWhat<F::Addr>) -> What<F::Addr>
    ensures { what_seen F.bytes_of result ≡ tree_of (wanted_what_seen F.bytes_of what) }
{
    match what {
        WantedWhat::Star | WantedWhat::Except(_) => What::Star,
        WantedWhat::Source(source) => What::Source(source),
    }
}

/// Words and an address, or nothing where there is no address.
#[derive(Drop)]
struct AddressPart {
    words: &'static [u8],
    address: ShortText,
}

impl AddressPart {
    /// An upstream neighbour, if there is one.
    fn via<F: Family>(neighbour: Option<F::Addr>) -> AddressPart
        ensures { result.words.now ++ result.address
            ≡ address_part F.family (codes " via ") (option_map F.bytes_of neighbour) }
    {
        match neighbour {
            Some(neighbour) => AddressPart {
                words: b" via ",
                address: ShortText::of::<F>(neighbour),
            },
            None => AddressPart {
                words: b"",
                address: ShortText::maybe::<F>(None),
            },
        }
    }

    /// The source that a router does not want from the RP, if there is one.
    fn exception<F: Family>(what: WantedWhat<F::Addr>) -> AddressPart
        ensures { result.words.now ++ result.address
            ≡ address_part F.family (codes " except ")
            (exception_in (wanted_what_seen F.bytes_of what)) }
    {
        match what {
            WantedWhat::Except(source) => AddressPart {
                words: b" except ",
                address: ShortText::of::<F>(source),
            },
            WantedWhat::Star | WantedWhat::Source(_) => AddressPart {
                words: b"",
                address: ShortText::maybe::<F>(None),
            },
        }
    }

    /// The words.
    fn words(&self) -> &[u8]
        ensures { result.now ≡ self.now.words.now }
    {
        self.words
    }

    /// The address.
    fn address(&self) -> &[u8]
        ensures { result.now ≡ self.now.address }
    {
        self.address.text()
    }
}

/// Writes the line of what the router wants.
pub(crate) fn write_want_line<F: Family, W: Drain>(
    writer: &mut W,
    entry: &WantedEntry<F::Addr>,
) -> Result<(), Failed>
    ensures bytes { AppendsAll (W.contents writer.old) (W.contents writer.new) result
        (want_line F.family (wanted_seen F.bytes_of entry.now)) }
    ensures count { W.failures writer.new ≡ failures_after (W.failures writer.old) result }
{
    let tree = show_what::<F>(tree_of::<F>(entry.what));
    let group = ShortText::of::<F>(entry.group);
    let via = AddressPart::via::<F>(entry.via);
    let except = AddressPart::exception::<F>(entry.what);
    let pieces = [
        b"wants ",
        tree.kind(),
        tree.source(),
        tree.gap(),
        group.text(),
        via.words(),
        via.address(),
        except.words(),
        except.address(),
        b"\n",
    ];
    write_pieces(writer, &pieces)
}
