//! The JSON of what a router holds and wants, from the name of the event on.

ghost use Rattle.std.specs.Prelude.{◌≡◌, ◌++◌, option_map};
ghost use Rattle.pim_device.specs.Device.{AppendsAll, failures_after};
ghost use Rattle.pim_down.specs.Seen.{what_seen};
ghost use Rattle.pim_events.specs.Events.{held_seen, wanted_what_seen, wanted_seen};
ghost use Rattle.pim_event_lines.specs.JsonLine.{address_json, source_in, held_machine_json};
ghost use Rattle.pim_event_lines.specs.JsonLine.{held_state_json, record_json, wanted_source};
ghost use Rattle.pim_event_lines.specs.JsonLine.{want_json, cause_json, held_times_json};
ghost use Rattle.pim_events.specs.Events.{cause_seen};
ghost use Rattle.pim_lines.specs.Pieces.{line};
ghost use Rattle.std.specs.Prelude.{codes};

use crate::files::{FileName, file_of, if_several};
use crate::words::{kind_word, pending_json, want_word};
use itoa::Buffer;
use pim_addr::{Drain, Failed, Family};
use pim_down::What;
use pim_events::{Cause, HeldMachine, WantedEntry, WantedWhat};
use pim_lines::{ShortText, number_or, write_pieces};
use pim_report::state_name;

/// An address in quotes, or `null` where there is none.
#[derive(Drop)]
struct JsonAddress {
    /// A quote, or `null`.
    front: &'static [u8],
    /// The address, or nothing.
    address: ShortText,
    /// A quote, or nothing.
    back: &'static [u8],
}

impl JsonAddress {
    /// This address.
    fn of<F: Family>(address: Option<F::Addr>) -> JsonAddress
        ensures { result.front.now ++ (result.address ++ result.back.now)
            ≡ address_json F.family (option_map F.bytes_of address) }
    {
        match address {
            Some(address) => JsonAddress {
                front: b"\"",
                address: ShortText::of::<F>(address),
                back: b"\"",
            },
            None => JsonAddress {
                front: b"null",
                address: ShortText::maybe::<F>(None),
                back: b"",
            },
        }
    }

    /// A quote, or `null`.
    fn front(&self) -> &[u8]
        ensures { result.now ≡ self.now.front.now }
    {
        self.front
    }

    /// The address, or nothing.
    fn address(&self) -> &[u8]
        ensures { result.now ≡ self.now.address }
    {
        self.address.text()
    }

    /// A quote, or nothing.
    fn back(&self) -> &[u8]
        ensures { result.now ≡ self.now.back.now }
    {
        self.back
    }
}

/// The source of a machine that has one.
fn source_in<F: Family>(what: What<F::Addr>) -> Option<F::Addr>
    ensures { option_map F.bytes_of result ≡ source_in (what_seen F.bytes_of what) }
{
    match what {
        What::Star => None,
        What::Source(source) | What::Rpt(source) => Some(source),
    }
}

/// Writes a machine that is held, up to its state.
fn write_machine<F: Family, W: Drain>(
    writer: &mut W,
    held: &HeldMachine<F::Addr>,
) -> Result<(), Failed>
    ensures bytes { AppendsAll (W.contents writer.old) (W.contents writer.new) result
        (held_machine_json F.family (held_seen F.bytes_of held.now)) }
    ensures count { W.failures writer.new ≡ failures_after (W.failures writer.old) result }
{
    let kind = kind_word::<F>(held.what);
    let group = ShortText::of::<F>(held.group);
    let source = JsonAddress::of::<F>(source_in::<F>(held.what));
    let pieces = [
        b"record\",\"what\":\"",
        kind.text(),
        b"\",\"group\":\"",
        group.text(),
        b"\",\"source\":",
        source.front(),
        source.address(),
        source.back(),
    ];
    write_pieces(writer, &pieces)
}

/// Writes the state of a machine that is held, and its times.
fn write_held_times<F: Family, W: Drain>(
    writer: &mut W,
    held: &HeldMachine<F::Addr>,
) -> Result<(), Failed>
    ensures bytes { AppendsAll (W.contents writer.old) (W.contents writer.new) result
        (held_times_json (held_seen F.bytes_of held.now)) }
    ensures count { W.failures writer.new ≡ failures_after (W.failures writer.old) result }
{
    let machine = held.machine;
    let state = machine.state;
    let mut since = Buffer::new();
    let mut expiry = Buffer::new();
    let mut pending = Buffer::new();
    let pieces = [
        b",\"state\":\"",
        state_name(&state),
        b"\",\"for\":",
        since.format(held.held_for).as_bytes(),
        b",\"et\":",
        number_or(&mut expiry, machine.expires_in, b"\"never\""),
        b",\"ppt\":",
        pending_json(&mut pending, Some(machine)),
    ];
    write_pieces(writer, &pieces)
}

/// Writes the packet that set a timer, and ends the object.
fn write_cause<F: Family, W: Drain>(
    writer: &mut W,
    files: &[FileName],
    cause: Cause<F::Addr>,
) -> Result<(), Failed>
    ensures bytes { AppendsAll (W.contents writer.old) (W.contents writer.new) result
        (line (cause_json F.family files.now (cause_seen F.bytes_of cause) ++ codes "}")) }
    ensures count { W.failures writer.new ≡ failures_after (W.failures writer.old) result }
{
    let from = ShortText::of::<F>(cause.from);
    let mut frame = Buffer::new();
    let mut moment = Buffer::new();
    let pieces = [
        b",\"cause\":{\"frame\":",
        frame.format(cause.frame.record).as_bytes(),
        if_several(files, b",\"file\":\""),
        file_of(files, cause.frame),
        if_several(files, b"\""),
        b",\"from\":\"",
        from.text(),
        b"\",\"ms\":",
        moment.format(cause.ms).as_bytes(),
        b"}}\n",
    ];
    write_pieces(writer, &pieces)
}

/// Writes the state of a machine that is held, its times, and the packet that set its Expiry Timer.
fn write_held_state<F: Family, W: Drain>(
    writer: &mut W,
    files: &[FileName],
    held: &HeldMachine<F::Addr>,
) -> Result<(), Failed>
    ensures bytes { AppendsAll (W.contents writer.old) (W.contents writer.new) result
        (held_state_json F.family files.now (held_seen F.bytes_of held.now)) }
    ensures count { W.failures writer.new ≡ failures_after (W.failures writer.old) result }
{
    write_held_times::<F, W>(writer, held)?;
    write_cause::<F, W>(writer, files, held.cause)
}

/// Writes the members of a machine that is held.
pub(crate) fn write_record_json<F: Family, W: Drain>(
    writer: &mut W,
    files: &[FileName],
    held: &HeldMachine<F::Addr>,
) -> Result<(), Failed>
    ensures bytes { AppendsAll (W.contents writer.old) (W.contents writer.new) result
        (record_json F.family files.now (held_seen F.bytes_of held.now)) }
    ensures count { W.failures writer.new ≡ failures_after (W.failures writer.old) result }
{
    write_machine::<F, W>(writer, held)?;
    write_held_state::<F, W>(writer, files, held)
}

/// The source that a router wants, or does not want.
fn wanted_source<F: Family>(what: WantedWhat<F::Addr>) -> Option<F::Addr>
    ensures { option_map F.bytes_of result ≡ wanted_source (wanted_what_seen F.bytes_of what) }
{
    match what {
        WantedWhat::Star => None,
        WantedWhat::Source(source) | WantedWhat::Except(source) => Some(source),
    }
}

/// Writes the members of what the router wants.
pub(crate) fn write_want_json<F: Family, W: Drain>(
    writer: &mut W,
    entry: &WantedEntry<F::Addr>,
) -> Result<(), Failed>
    ensures bytes { AppendsAll (W.contents writer.old) (W.contents writer.new) result
        (want_json F.family (wanted_seen F.bytes_of entry.now)) }
    ensures count { W.failures writer.new ≡ failures_after (W.failures writer.old) result }
{
    let word = want_word::<F>(entry.what);
    let group = ShortText::of::<F>(entry.group);
    let source = JsonAddress::of::<F>(wanted_source::<F>(entry.what));
    let via = JsonAddress::of::<F>(entry.via);
    let pieces = [
        b"want\",\"what\":\"",
        word.text(),
        b"\",\"group\":\"",
        group.text(),
        b"\",\"source\":",
        source.front(),
        source.address(),
        source.back(),
        b",\"via\":",
        via.front(),
        via.address(),
        via.back(),
        b"}\n",
    ];
    write_pieces(writer, &pieces)
}
