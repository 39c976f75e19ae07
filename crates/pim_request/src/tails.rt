//! The readers of the last words of a line. Each is given the command of the line, which is the
//! wrong word where a word is missing.

ghost use Rattle.std.specs.Prelude.{◌≡◌, ◌∷◌, ℕ, List, [], codes, IfOk, IfErr};
ghost use Rattle.pim_lines.specs.AnyAddress.{Names};
ghost use Rattle.pim_request.specs.Forms.{IsFault};
ghost use Rattle.pim_request.specs.Forms.Slot.{address};
ghost use Rattle.pim_request.specs.Commands.{delays_forms, destination_forms, budget_forms};
ghost use Rattle.pim_request.specs.Commands.{option_forms, writing_forms, number_forms};
ghost use Rattle.pim_request.specs.Commands.{address_forms, AreDelays, IsDestination, IsOption};
ghost use Rattle.pim_request.specs.Commands.{AreOptions, IsNumber, IsWriting};
ghost use Rattle.pim_request.specs.Steps.{words_left, IsFrontFault, IsHoldtime, IsHoldtimeFault};

use crate::command::{AnyWriting, WordsFault};
use crate::slots::{NumberRange, line_end, next_address, next_number};
use crate::words::{is_word, next_word};
use pim_lines::AnyAddress;

/// The propagation delay of a port in milliseconds, where none is given.
const PROPAGATION: u16 = 500;

/// The override interval of a port in milliseconds, where none is given.
const OVERRIDE: u16 = 2500;

/// The holdtime of a message in seconds, where none is given.
const HOLDTIME: u64 = 210;

/// The most bytes of a message, where no number is given.
const BUDGET: u64 = 1460;

/// The delays of a port.
#[derive(Clone, Copy)]
pub(crate) struct Delays {
    pub(crate) propagation: u16,
    pub(crate) override_ms: u16,
}

/// The numbers of `holdtime S` and `budget N`.
#[derive(Clone, Copy)]
pub(crate) struct Options {
    pub(crate) holdtime: u16,
    pub(crate) budget: usize,
}

/// Two addresses, and what is left of the line after them.
#[derive(Clone, Copy)]
pub(crate) struct TailEnds<'a> {
    pub(crate) first: AnyAddress,
    pub(crate) second: AnyAddress,
    pub(crate) left: Option<&'a [u8]>,
}

/// Reads a number of this range, the last word of a line.
pub(crate) fn last_number<'a>(
    command: &'a [u8],
    left: Option<&'a [u8]>,
    low: u64,
    high: u64,
) -> Result<u64, WordsFault<'a>>
    ensures read { IfOk result (λ number. IsNumber low high number (words_left left.entry)) }
    ensures fault { IfErr result (IsFault (number_forms low high)
        command.now (words_left left.entry)) }
{
    let read = next_number(command, left, low, high)?;
    line_end(read.left)?;
    Ok(read.number)
}

/// Reads an address, the last word of a line.
pub(crate) fn last_address<'a>(
    command: &'a [u8],
    left: Option<&'a [u8]>,
) -> Result<AnyAddress, WordsFault<'a>>
    ensures read { IfOk result (λ address. (text : List ℕ) × Names text address
        × (words_left left.entry ≡ text ∷ [])) }
    ensures fault { IfErr result (IsFault address_forms command.now (words_left left.entry)) }
{
    let read = next_address(command, left)?;
    line_end(read.left)?;
    Ok(read.address)
}

/// Reads two addresses.
pub(crate) fn two_addresses<'a>(
    command: &'a [u8],
    left: Option<&'a [u8]>,
) -> Result<TailEnds<'a>, WordsFault<'a>>
    ensures read { IfOk result (λ ends. (first : List ℕ) × (second : List ℕ)
        × Names first ends.first × Names second ends.second
        × (words_left left.entry ≡ first ∷ second ∷ words_left ends.left)) }
    ensures fault { IfErr result (IsFrontFault (address ∷ address ∷ [])
        command.now (words_left left.entry)) }
{
    let first = next_address(command, left)?;
    let second = next_address(command, first.left)?;
    Ok(TailEnds {
        first: first.address,
        second: second.address,
        left: second.left,
    })
}

/// Reads `[delays PROPAGATION OVERRIDE]`.
pub(crate) fn last_delays<'a>(
    command: &'a [u8],
    left: Option<&'a [u8]>,
) -> Result<Delays, WordsFault<'a>>
    ensures read { IfOk result (λ delays. AreDelays delays.propagation delays.override_ms
        (words_left left.entry)) }
    ensures fault { IfErr result (IsFault delays_forms command.now (words_left left.entry)) }
{
    let Some(cut) = next_word(left) else {
        return Ok(Delays {
            propagation: PROPAGATION,
            override_ms: OVERRIDE,
        });
    };
    if !is_word(cut.word, b"delays") {
        return Err(WordsFault::Word(cut.word));
    }
    let propagation = next_number(command, cut.left, 0, 32_767)?;
    let override_ms = last_number(command, propagation.left, 0, 65_535)?;
    Ok(Delays {
        propagation: propagation.number as u16,
        override_ms: override_ms as u16,
    })
}

/// Reads `[to DST]`.
pub(crate) fn last_destination<'a>(
    command: &'a [u8],
    left: Option<&'a [u8]>,
) -> Result<Option<AnyAddress>, WordsFault<'a>>
    ensures read { IfOk result (λ destination. IsDestination destination (words_left left.entry)) }
    ensures fault { IfErr result (IsFault destination_forms command.now (words_left left.entry)) }
{
    let Some(cut) = next_word(left) else {
        return Ok(None);
    };
    if !is_word(cut.word, b"to") {
        return Err(WordsFault::Word(cut.word));
    }
    let address = last_address(command, cut.left)?;
    Ok(Some(address))
}

/// Reads `[holdtime S]`. Where another word comes, or none, the holdtime is 210, and all is left.
fn next_holdtime<'a>(
    command: &'a [u8],
    left: Option<&'a [u8]>,
) -> Result<NumberRange<'a>, WordsFault<'a>>
    ensures read { IfOk result (λ read. IsHoldtime read.number (words_left left.entry)
        (words_left read.left)) }
    ensures fault { IfErr result (IsHoldtimeFault command.now (words_left left.entry)) }
{
    let Some(cut) = next_word(left) else {
        return Ok(NumberRange {
            number: HOLDTIME,
            left,
        });
    };
    if !is_word(cut.word, b"holdtime") {
        return Ok(NumberRange {
            number: HOLDTIME,
            left,
        });
    }
    next_number(command, cut.left, 99, 65_535)
}

/// Reads `[budget N]`.
fn last_budget<'a>(command: &'a [u8], left: Option<&'a [u8]>) -> Result<u64, WordsFault<'a>>
    ensures read { IfOk result (λ number. IsOption (codes "budget") 70 65000 1460 number
        (words_left left.entry)) }
    ensures fault { IfErr result (IsFault budget_forms command.now (words_left left.entry)) }
{
    let Some(cut) = next_word(left) else {
        return Ok(BUDGET);
    };
    if !is_word(cut.word, b"budget") {
        return Err(WordsFault::Word(cut.word));
    }
    last_number(command, cut.left, 70, 65_000)
}

/// Reads `[holdtime S] [budget N]`.
fn last_options<'a>(command: &'a [u8], left: Option<&'a [u8]>) -> Result<Options, WordsFault<'a>>
    ensures read { IfOk result (λ options. AreOptions options.holdtime options.budget
        (words_left left.entry)) }
    ensures fault { IfErr result (IsFault option_forms command.now (words_left left.entry)) }
{
    let holdtime = next_holdtime(command, left)?;
    let budget = last_budget(command, holdtime.left)?;
    Ok(Options {
        holdtime: holdtime.number as u16,
        budget: budget as usize,
    })
}

/// Reads `UPSTREAM OWN [holdtime S] [budget N]`.
pub(crate) fn last_writing<'a>(
    command: &'a [u8],
    left: Option<&'a [u8]>,
) -> Result<AnyWriting, WordsFault<'a>>
    ensures read { IfOk result (λ writing. IsWriting writing (words_left left.entry)) }
    ensures fault { IfErr result (IsFault writing_forms command.now (words_left left.entry)) }
{
    let ends = two_addresses(command, left)?;
    let options = last_options(command, ends.left)?;
    Ok(AnyWriting {
        upstream: ends.first,
        own: ends.second,
        holdtime: options.holdtime,
        budget: options.budget,
    })
}
