//! The readers of the words after each command.

ghost use Rattle.std.specs.Prelude.{◌∷◌, codes, IfOk, IfErr};
ghost use Rattle.pim_request.specs.Forms.{IsFault, most};
ghost use Rattle.pim_request.specs.Commands.{port_forms, row_forms, packet_forms, sender_forms};
ghost use Rattle.pim_request.specs.Commands.{kept_forms, comparison_forms, writing_forms};
ghost use Rattle.pim_request.specs.Commands.{number_forms};
ghost use Rattle.pim_request.specs.Commands.{IsRow, IsComparison, IsSender, AreCommand};
ghost use Rattle.pim_request.specs.Steps.{words_left};

use crate::command::{
    Command, Comparison, KeptWhat, Packet, PortRow, RouteRow, Sender, WordsFault,
};
use crate::slots::{
    MOST, line_end, next_address, next_digits, next_name, next_number, next_prefix,
};
use crate::tails::{
    last_address, last_delays, last_destination, last_number, last_writing, two_addresses,
};

/// Reads `ADDRESS [delays PROPAGATION OVERRIDE]` after `port`.
pub(crate) fn read_port<'a>(
    command: &'a [u8],
    left: Option<&'a [u8]>,
) -> Result<Command<'a>, WordsFault<'a>>
    ensures read { IfOk result (AreCommand (codes "port" ∷ words_left left.entry)) }
    ensures fault { IfErr result (IsFault port_forms command.now (words_left left.entry)) }
{
    let read = next_address(command, left)?;
    let delays = last_delays(command, read.left)?;
    Ok(Command::Port(PortRow {
        address: read.address,
        propagation: delays.propagation,
        override_ms: delays.override_ms,
    }))
}

/// Reads `ADDRESS/LENGTH ADDRESS`.
fn read_row<'a>(command: &'a [u8], left: Option<&'a [u8]>) -> Result<RouteRow, WordsFault<'a>>
    ensures read { IfOk result (λ row. IsRow row (words_left left.entry)) }
    ensures fault { IfErr result (IsFault row_forms command.now (words_left left.entry)) }
{
    let read = next_prefix(command, left)?;
    let to = last_address(command, read.left)?;
    Ok(RouteRow {
        prefix: read.address,
        length: read.length,
        to,
    })
}

/// Reads `ADDRESS/LENGTH ADDRESS` after `rp`.
pub(crate) fn read_rp<'a>(
    command: &'a [u8],
    left: Option<&'a [u8]>,
) -> Result<Command<'a>, WordsFault<'a>>
    ensures read { IfOk result (AreCommand (codes "rp" ∷ words_left left.entry)) }
    ensures fault { IfErr result (IsFault row_forms command.now (words_left left.entry)) }
{
    let row = read_row(command, left)?;
    Ok(Command::Rp(row))
}

/// Reads `ADDRESS/LENGTH ADDRESS` after `via`.
pub(crate) fn read_via<'a>(
    command: &'a [u8],
    left: Option<&'a [u8]>,
) -> Result<Command<'a>, WordsFault<'a>>
    ensures read { IfOk result (AreCommand (codes "via" ∷ words_left left.entry)) }
    ensures fault { IfErr result (IsFault row_forms command.now (words_left left.entry)) }
{
    let row = read_row(command, left)?;
    Ok(Command::Via(row))
}

/// Reads `N` after `limit`.
pub(crate) fn read_limit<'a>(
    command: &'a [u8],
    left: Option<&'a [u8]>,
) -> Result<Command<'a>, WordsFault<'a>>
    ensures read { IfOk result (AreCommand (codes "limit" ∷ words_left left.entry)) }
    ensures fault { IfErr result (IsFault (number_forms 1 100000)
        command.now (words_left left.entry)) }
{
    let limit = last_number(command, left, 1, 100_000)?;
    Ok(Command::Limit(limit as usize))
}

/// Reads `MS` after `run`.
pub(crate) fn read_run<'a>(
    command: &'a [u8],
    left: Option<&'a [u8]>,
) -> Result<Command<'a>, WordsFault<'a>>
    ensures read { IfOk result (AreCommand (codes "run" ∷ words_left left.entry)) }
    ensures fault { IfErr result (IsFault (number_forms 0 most)
        command.now (words_left left.entry)) }
{
    let moment = last_number(command, left, 0, MOST)?;
    Ok(Command::Run(moment))
}

/// Reads `P SRC DST HEX` after `packet`.
pub(crate) fn read_packet<'a>(
    command: &'a [u8],
    left: Option<&'a [u8]>,
) -> Result<Command<'a>, WordsFault<'a>>
    ensures read { IfOk result (AreCommand (codes "packet" ∷ words_left left.entry)) }
    ensures fault { IfErr result (IsFault packet_forms command.now (words_left left.entry)) }
{
    let port = next_number(command, left, 0, MOST)?;
    let ends = two_addresses(command, port.left)?;
    let hex = next_digits(command, ends.left)?;
    line_end(hex.left)?;
    Ok(Command::Packet(Packet {
        port: port.number,
        source: ends.first,
        destination: ends.second,
        hex: hex.word,
    }))
}

/// Reads `P SRC [to DST]` after `from`.
pub(crate) fn read_origin<'a>(
    command: &'a [u8],
    left: Option<&'a [u8]>,
) -> Result<Sender, WordsFault<'a>>
    ensures read { IfOk result (λ sender. IsSender sender (words_left left.entry)) }
    ensures fault { IfErr result (IsFault sender_forms command.now (words_left left.entry)) }
{
    let port = next_number(command, left, 0, MOST)?;
    let source = next_address(command, port.left)?;
    let destination = last_destination(command, source.left)?;
    Ok(Sender {
        port: port.number,
        source: source.address,
        destination,
    })
}

/// Reads `UPSTREAM OWN [holdtime S] [budget N]` after `messages`.
pub(crate) fn read_messages<'a>(
    command: &'a [u8],
    left: Option<&'a [u8]>,
) -> Result<Command<'a>, WordsFault<'a>>
    ensures read { IfOk result (AreCommand (codes "messages" ∷ words_left left.entry)) }
    ensures fault { IfErr result (IsFault writing_forms command.now (words_left left.entry)) }
{
    let writing = last_writing(command, left)?;
    Ok(Command::Messages(writing))
}

/// Reads `NAME UPSTREAM` after `keep`.
pub(crate) fn read_keep<'a>(
    command: &'a [u8],
    left: Option<&'a [u8]>,
) -> Result<Command<'a>, WordsFault<'a>>
    ensures read { IfOk result (AreCommand (codes "keep" ∷ words_left left.entry)) }
    ensures fault { IfErr result (IsFault kept_forms command.now (words_left left.entry)) }
{
    let cut = next_name(command, left)?;
    let upstream = last_address(command, cut.left)?;
    Ok(Command::Keep(KeptWhat {
        name: cut.word,
        upstream,
    }))
}

/// Reads `NAME UPSTREAM OWN [holdtime S] [budget N]`.
fn read_comparison<'a>(
    command: &'a [u8],
    left: Option<&'a [u8]>,
) -> Result<Comparison<'a>, WordsFault<'a>>
    ensures read { IfOk result (λ compared. IsComparison compared (words_left left.entry)) }
    ensures fault { IfErr result (IsFault comparison_forms command.now (words_left left.entry)) }
{
    let cut = next_name(command, left)?;
    let writing = last_writing(command, cut.left)?;
    Ok(Comparison {
        name: cut.word,
        writing,
    })
}

/// Reads `NAME UPSTREAM OWN [holdtime S] [budget N]` after `change`.
pub(crate) fn read_change<'a>(
    command: &'a [u8],
    left: Option<&'a [u8]>,
) -> Result<Command<'a>, WordsFault<'a>>
    ensures read { IfOk result (AreCommand (codes "change" ∷ words_left left.entry)) }
    ensures fault { IfErr result (IsFault comparison_forms command.now (words_left left.entry)) }
{
    let compared = read_comparison(command, left)?;
    Ok(Command::Change(compared))
}

/// Reads `NAME UPSTREAM OWN [holdtime S] [budget N]` after `same`.
pub(crate) fn read_same<'a>(
    command: &'a [u8],
    left: Option<&'a [u8]>,
) -> Result<Command<'a>, WordsFault<'a>>
    ensures read { IfOk result (AreCommand (codes "same" ∷ words_left left.entry)) }
    ensures fault { IfErr result (IsFault comparison_forms command.now (words_left left.entry)) }
{
    let compared = read_comparison(command, left)?;
    Ok(Command::Same(compared))
}
