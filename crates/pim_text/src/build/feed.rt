//! Reading the text of a message to its end.

ghost use Rattle.std.specs.Prelude.{◌≡◌, ◌≤◌, ◌<◌, [], length, OnOk, IfOk, IfErr, IfSome, vec_len};
ghost use Rattle.pim_device.specs.Device.{ConsumesAtMost};
ghost use Rattle.pim_text.specs.ReadingText.{text_limit, piece_length, AddsPiece, GivesText};
ghost use Rattle.pim_text.specs.ReadingText.{IsPieceFault, IsReadFault};
ghost use Rattle.pim_text.specs.ReadingText.{failures_after_reading};

use crate::build::fault::BuildFault;
use pim_addr::{Feed, read_up_to};
use std::alloc::Global;

/// The most bytes of a text.
const TEXT_LIMIT: usize = 8_388_608;

/// The bytes that are read at a time.
const PIECE: usize = 65_536;

/// Returns a buffer of `length` zero bytes.
fn blank(alloc: Global, length: usize) -> Result<Vec<u8>, BuildFault>
    ensures length { IfOk result (λ buffer. vec_len buffer ≡ length) }
    ensures memory { IfErr result (λ fault. fault ≡ BuildFault.Memory) }
{
    vec![in alloc; 0u8; length].map_err(|_| BuildFault::Memory)
}

/// Adds the next piece of what the reader gives. Returns whether the reader is at its end.
fn add_piece<R: Feed>(
    reader: &mut R,
    piece: &mut [u8],
    text: &mut Vec<u8>,
) -> Result<bool, BuildFault>
    ensures adds { IfOk result (AddsPiece (R.remaining reader.old) (R.remaining reader.new)
        (length piece.old) text.old.items text.new.items) }
    ensures piece { length piece.new ≡ length piece.old }
    ensures causes { IfErr result IsPieceFault }
    ensures failed { R.failures reader.new ≡ failures_after_reading (R.failures reader.old) result }
    ensures taken { ConsumesAtMost (length piece.old) (R.remaining reader.old)
        (R.remaining reader.new) }
{
    let Ok(length) = read_up_to(reader, piece) else {
        return Err(BuildFault::Read);
    };
    let (got, _) = piece.split_at(length);
    if text.extend_from_slice(got).is_err() {
        return Err(BuildFault::Memory);
    }
    Ok(length < piece.len())
}

/// Adds what the reader gives, piece by piece, up to its end or above the limit of a text.
fn add_pieces<R: Feed>(
    reader: &mut R,
    piece: &mut [u8],
    text: &mut Vec<u8>,
) -> Result<(), BuildFault>
    requires piece { length piece.old ≡ piece_length }
    requires empty { text.old.items ≡ [] }
    ensures text { IfSome (R.remaining reader.old)
        (λ all. GivesText (λ done. text.new.items) all result) }
    ensures causes { IfErr result IsReadFault }
    ensures failed { R.failures reader.new ≡ failures_after_reading (R.failures reader.old) result }
    ensures taken { ConsumesAtMost 8454144 (R.remaining reader.old) (R.remaining reader.new) }
    ensures small { OnOk result (length text.new.items ≤ text_limit) }
{
    while text.len() <= TEXT_LIMIT {
        let is_end = add_piece(reader, piece, text)?;
        if is_end && text.len() <= TEXT_LIMIT {
            return Ok(());
        }
    }
    Err(BuildFault::TooLong)
}

/// Reads a text to its end. It reads pieces of 65,536 bytes, at most 8,454,144 bytes in all: more
/// than the limit shows that the text is too long.
///
/// # Errors
/// - `Read`: the reader failed.
/// - `TooLong`: the text has more than 8,388,608 bytes.
/// - `Memory`: memory ran out.
///
/// The count of failures of the reader rises only with `Read`.
pub fn read_text<R: Feed>(alloc: Global, reader: &mut R) -> Result<Vec<u8>, BuildFault>
    ensures text { IfSome (R.remaining reader.old) (λ all. GivesText (λ v. v.items) all result) }
    ensures causes { IfErr result IsReadFault }
    ensures failed { R.failures reader.new ≡ failures_after_reading (R.failures reader.old) result }
    ensures taken { ConsumesAtMost 8454144 (R.remaining reader.old) (R.remaining reader.new) }
    ensures small { IfOk result (λ text. length text.items ≤ text_limit) }
{
    let mut piece = blank(alloc, PIECE)?;
    let mut text = Vec::new(alloc);
    add_pieces(reader, &mut piece, &mut text)?;
    Ok(text)
}
