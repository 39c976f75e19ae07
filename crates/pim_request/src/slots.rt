//! The readers of one word each. Each is given the command of the line, which is the wrong word
//! where a word is missing.

ghost use Rattle.std.specs.Prelude.{◌≡◌, ◌≤◌, ◌∷◌, ℕ, List, [], decimal, IfOk, IfErr};
ghost use Rattle.pim_lines.specs.AnyAddress.{Names};
ghost use Rattle.pim_request.specs.Forms.{IsHex, IsPrefix, IsFault};
ghost use Rattle.pim_request.specs.Forms.Slot.{address, number, prefix, name, digits};
ghost use Rattle.pim_request.specs.Commands.{no_words};
ghost use Rattle.pim_request.specs.Steps.{words_left, IsSlotFault};

use crate::command::WordsFault;
use crate::hex::is_hex;
use crate::words::{WordCut, cut_at, next_word};
use pim_lines::AnyAddress;
use pim_text::{read_address, read_decimal};

/// The greatest moment, number of a port, and length of a prefix: 10^15.
pub(crate) const MOST: u64 = 1_000_000_000_000_000;

/// A number, and what is left of the line after it.
#[derive(Clone, Copy)]
pub(crate) struct NumberRange<'a> {
    pub(crate) number: u64,
    pub(crate) left: Option<&'a [u8]>,
}

/// An address, and what is left of the line after it.
#[derive(Clone, Copy)]
pub(crate) struct Addressed<'a> {
    pub(crate) address: AnyAddress,
    pub(crate) left: Option<&'a [u8]>,
}

/// A prefix with its length, and what is left of the line after it.
#[derive(Clone, Copy)]
pub(crate) struct Prefixed<'a> {
    pub(crate) address: AnyAddress,
    pub(crate) length: u64,
    pub(crate) left: Option<&'a [u8]>,
}

/// Reads a number of this range.
pub(crate) fn next_number<'a>(
    command: &'a [u8],
    left: Option<&'a [u8]>,
    low: u64,
    high: u64,
) -> Result<NumberRange<'a>, WordsFault<'a>>
    ensures low { IfOk result (λ read. low ≤ read.number) }
    ensures high { IfOk result (λ read. read.number ≤ high) }
    ensures read { IfOk result (λ read. words_left left.entry
        ≡ decimal read.number ∷ words_left read.left) }
    ensures fault { IfErr result (IsSlotFault (number low high)
        command.now (words_left left.entry)) }
{
    let Some(cut) = next_word(left) else {
        return Err(WordsFault::Word(command));
    };
    let Some(number) = read_decimal(cut.word, high) else {
        return Err(WordsFault::Word(cut.word));
    };
    if number < low {
        return Err(WordsFault::Word(cut.word));
    }
    Ok(NumberRange {
        number,
        left: cut.left,
    })
}

/// Reads a word that isn't empty.
pub(crate) fn next_name<'a>(
    command: &'a [u8],
    left: Option<&'a [u8]>,
) -> Result<WordCut<'a>, WordsFault<'a>>
    ensures some { IfOk result (λ cut. cut.word.now ≡ [] → ⊥) }
    ensures read { IfOk result (λ cut. words_left left.entry ≡ cut.word.now ∷ words_left cut.left) }
    ensures fault { IfErr result (IsSlotFault name command.now (words_left left.entry)) }
{
    let Some(cut) = next_word(left) else {
        return Err(WordsFault::Word(command));
    };
    if cut.word.is_empty() {
        return Err(WordsFault::Word(cut.word));
    }
    Ok(cut)
}

/// Reads an address.
pub(crate) fn next_address<'a>(
    command: &'a [u8],
    left: Option<&'a [u8]>,
) -> Result<Addressed<'a>, WordsFault<'a>>
    ensures read { IfOk result (λ read. (text : List ℕ) × Names text read.address
        × (words_left left.entry ≡ text ∷ words_left read.left)) }
    ensures fault { IfErr result (IsSlotFault address command.now (words_left left.entry)) }
{
    let Some(cut) = next_word(left) else {
        return Err(WordsFault::Word(command));
    };
    if let Some(address) = read_address(cut.word) {
        return Ok(Addressed {
            address,
            left: cut.left,
        });
    }
    if cut.word.is_empty() {
        return Err(WordsFault::Word(cut.word));
    }
    Err(WordsFault::Address(cut.word))
}

/// Reads `ADDRESS/LENGTH`.
pub(crate) fn next_prefix<'a>(
    command: &'a [u8],
    left: Option<&'a [u8]>,
) -> Result<Prefixed<'a>, WordsFault<'a>>
    ensures read { IfOk result (λ read. (text : List ℕ) × (word : List ℕ) × Names text read.address
        × IsPrefix text read.length word × (words_left left.entry ≡ word ∷ words_left read.left)) }
    ensures fault { IfErr result (IsSlotFault prefix command.now (words_left left.entry)) }
{
    let Some(cut) = next_word(left) else {
        return Err(WordsFault::Word(command));
    };
    let parts = cut_at(cut.word, b'/');
    let Some(digits) = parts.left else {
        return Err(WordsFault::Word(cut.word));
    };
    let Some(length) = read_decimal(digits, MOST) else {
        return Err(WordsFault::Word(cut.word));
    };
    match read_address(parts.word) {
        Some(address) => Ok(Prefixed {
            address,
            length,
            left: cut.left,
        }),
        None => Err(WordsFault::Address(cut.word)),
    }
}

/// Reads the hexadecimal digits of a message, possibly none.
pub(crate) fn next_digits<'a>(
    command: &'a [u8],
    left: Option<&'a [u8]>,
) -> Result<WordCut<'a>, WordsFault<'a>>
    ensures hex { IfOk result (λ cut. IsHex cut.word.now) }
    ensures read { IfOk result (λ cut. words_left left.entry ≡ cut.word.now ∷ words_left cut.left) }
    ensures fault { IfErr result (IsSlotFault digits command.now (words_left left.entry)) }
{
    let Some(text) = left else {
        return Err(WordsFault::Word(command));
    };
    // Most lines end with their digits: then the line isn't searched for a space.
    if is_hex(text) {
        return Ok(WordCut {
            word: text,
            left: None,
        });
    }
    let cut = cut_at(text, b' ');
    if is_hex(cut.word) {
        Ok(cut)
    } else {
        Err(WordsFault::Hex)
    }
}

/// Reads the end of a line.
pub(crate) fn line_end(left: Option<&[u8]>) -> Result<(), WordsFault<'_>>
    ensures read { IfOk result (λ end. words_left left.entry ≡ []) }
    ensures fault { IfErr result (λ fault. (command : List ℕ)
        → IsFault no_words command (words_left left.entry) fault) }
{
    match next_word(left) {
        Some(cut) => Err(WordsFault::Word(cut.word)),
        None => Ok(()),
    }
}
