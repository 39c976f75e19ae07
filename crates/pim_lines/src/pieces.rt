//! The pieces that lines are made of.
//!
//! A line is written piece by piece and needs no memory. A device that buffers makes blocks of
//! them.

ghost use Rattle.std.specs.Prelude.{◌≡◌, decimal, option_map};
ghost use Rattle.std.specs.List.{flat_map};
ghost use Rattle.pim_addr.specs.Text.{address_text};
ghost use Rattle.pim_device.specs.Device.{AppendsAll, failures_after};
ghost use Rattle.pim_lines.specs.Pieces.{number_or, maybe_address};

use itoa::Buffer;
use pim_addr::{Drain, Failed, Family, write_all, write_text};
use std::marker::Model;

/// An address as text, or nothing. Contracts see the text.
#[derive(Drop)]
pub struct Shown {
    text: [u8; 39],
    length: usize,
}

impl Model for Shown {
    ghost use Rattle.std.specs.Prelude.{ℕ, List, ◌≤◌, take};

    ghost Value = { List ℕ };

    ghost view = { λ shown. take shown.length shown.text };

    ghost invariant = { λ shown. shown.length ≤ 39 };
}

impl Shown {
    /// The text of an address.
    pub fn address<F: Family>(address: F::Addr) -> Self
        ensures { result ≡ address_text F.family (F.bytes_of address) }
    {
        let mut text = [0; 39];
        let length = write_text::<F>(address, &mut text);
        Shown { text, length }
    }

    /// The text of an address, or nothing where there is none.
    pub fn maybe<F: Family>(address: Option<F::Addr>) -> Self
        ensures { result ≡ maybe_address F.family (option_map F.bytes_of address) }
    {
        match address {
            Some(address) => Shown::address::<F>(address),
            None => Shown {
                text: [0; 39],
                length: 0,
            },
        }
    }

    /// The text.
    pub fn text(&self) -> &[u8]
        ensures { result.now ≡ self.now }
    {
        &self.text[..self.length]
    }
}

/// The number in decimal, or the given words if there is none.
pub fn number_or<'a>(buffer: &'a mut Buffer, number: Option<u64>, words: &'a [u8]) -> &'a [u8]
    ensures { result.now ≡ number_or words.now number }
{
    match number {
        Some(number) => buffer.format(number).as_bytes(),
        None => words,
    }
}

/// Writes the pieces one after the other.
///
/// # Errors
/// The device failed: a prefix of the text was written.
pub fn write_pieces<W: Drain>(writer: &mut W, pieces: &[&[u8]]) -> Result<(), Failed>
    ensures bytes { AppendsAll (W.contents writer.old) (W.contents writer.new) result
        (flat_map (λ piece. piece.now) pieces.now) }
    ensures count { W.failures writer.new ≡ failures_after (W.failures writer.old) result }
{
    for piece in pieces {
        write_all(writer, piece)?;
    }
    Ok(())
}
