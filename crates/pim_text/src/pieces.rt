//! Pieces of a line, and the text of a message whose body isn't read.

ghost use Rattle.std.specs.Prelude.{◌≡◌, ◌++◌, decimal, OnOk, IfOk};
ghost use Rattle.pim_addr.specs.Text.{address_text};
ghost use Rattle.pim_text.specs.Text.{type_text};

use itoa::Buffer;
use pim_addr::{Family, write_text};
use std::alloc::{AllocError, Global};

/// Adds the words and an address.
pub(crate) fn push_address<F: Family>(
    text: &mut Vec<u8>,
    words: &[u8],
    address: F::Addr,
) -> Result<(), AllocError>
    ensures { OnOk result (text.new.items
        ≡ text.old.items ++ (words.now ++ address_text F.family (F.bytes_of address))) }
{
    let mut shown = [0; 39];
    let length = write_text::<F>(address, &mut shown);
    text.extend_from_slice(words)?;
    text.extend_from_slice(&shown[..length])
}

/// Adds the words and a number.
pub(crate) fn push_number(text: &mut Vec<u8>, words: &[u8], number: usize) -> Result<(), AllocError>
    ensures { OnOk result (text.new.items ≡ text.old.items ++ (words.now ++ decimal number)) }
{
    text.extend_from_slice(words)?;
    text.extend_from_slice(Buffer::new().format(number).as_bytes())
}

/// The line of a message of another type.
pub fn type_text(alloc: Global, kind: u8) -> Result<Vec<u8>, AllocError>
    ensures { IfOk result (λ text. text.items ≡ type_text kind) }
{
    let mut text = Vec::new(alloc);
    push_number(&mut text, b"type ", usize::from(kind))?;
    text.extend_from_slice(b"\n")?;
    Ok(text)
}
