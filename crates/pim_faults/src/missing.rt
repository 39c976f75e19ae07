//! The warnings on whom the messages of a capture name.

ghost use Rattle.std.specs.Prelude.{◌≡◌, ◌≤◌, ◌++◌, codes, take};
ghost use Rattle.pim_device.specs.Device.{AppendsAll, failures_after};
ghost use Rattle.pim_addr.specs.Text.{address_text};
ghost use Rattle.pim_lines.specs.Pieces.{line};
ghost use Rattle.pim_faults.specs.Missing.{slot_text, others_text, listed_text, missed_text};
ghost use Rattle.pim_faults.specs.Missing.{unserved_text, more_text, neighbours_text};
ghost use Rattle.pim_merge.specs.Missing.{address_in};

use crate::fault::write_plain;
use pim_addr::{Drain, Failed, Family, write_all, write_text};
use pim_merge::Census;

/// Writes the text of an address at the start of a buffer, and returns its length.
fn text_at_front<F: Family>(address: F::Addr, text: &mut [u8; 39]) -> usize
    ensures short { result ≤ 39 }
    ensures text { take result text.new ≡ address_text F.family (F.bytes_of address) }
{
    write_text::<F>(address, text)
}

/// Writes words and an address.
fn put_address<F: Family, W: Drain>(
    writer: &mut W,
    words: &[u8],
    address: F::Addr,
) -> Result<(), Failed>
    ensures bytes { AppendsAll (W.contents writer.old) (W.contents writer.new) result
        (words.now ++ address_text F.family (F.bytes_of address)) }
    ensures count { W.failures writer.new ≡ failures_after (W.failures writer.old) result }
{
    let mut text = [0; 39];
    let length = text_at_front::<F>(address, &mut text);
    write_all(writer, words)?;
    write_all(writer, &text[..length])
}

/// Writes words and the address in a slot, if it has one.
fn put_slot<F: Family, W: Drain>(
    writer: &mut W,
    words: &[u8],
    slot: Option<[u8; 16]>,
) -> Result<(), Failed>
    ensures bytes { AppendsAll (W.contents writer.old) (W.contents writer.new) result
        (slot_text F.family words.now slot) }
    ensures count { W.failures writer.new ≡ failures_after (W.failures writer.old) result }
{
    match slot {
        Some(field) => put_address::<F, W>(writer, words, F::take(&field)),
        None => Ok(()),
    }
}

/// Writes the addresses in these slots, each after a comma.
#[tactic(auto, unfolding(crate::specs::Missing::others_text))]
fn put_others<F: Family, W: Drain>(writer: &mut W, slots: &[Option<[u8; 16]>]) -> Result<(), Failed>
    ensures bytes { AppendsAll (W.contents writer.old) (W.contents writer.new) result
        (others_text F.family slots.now) }
    ensures count { W.failures writer.new ≡ failures_after (W.failures writer.old) result }
{
    match slots.split_first() {
        Some((slot, others)) => {
            put_slot::<F, W>(writer, b", ", *slot)?;
            put_others::<F, W>(writer, others)
        }
        None => Ok(()),
    }
}

/// Writes the addresses in these slots, with commas between them.
#[tactic(auto, unfolding(crate::specs::Missing::listed_text))]
fn put_listed<F: Family, W: Drain>(writer: &mut W, slots: &[Option<[u8; 16]>]) -> Result<(), Failed>
    ensures bytes { AppendsAll (W.contents writer.old) (W.contents writer.new) result
        (listed_text F.family slots.now) }
    ensures count { W.failures writer.new ≡ failures_after (W.failures writer.old) result }
{
    match slots.split_first() {
        Some((slot, others)) => {
            put_slot::<F, W>(writer, b", but for ", *slot)?;
            put_others::<F, W>(writer, others)
        }
        None => Ok(()),
    }
}

/// Writes that there are more.
fn put_more<W: Drain>(writer: &mut W, has_more: bool) -> Result<(), Failed>
    ensures bytes { AppendsAll (W.contents writer.old) (W.contents writer.new) result
        (more_text has_more) }
    ensures count { W.failures writer.new ≡ failures_after (W.failures writer.old) result }
{
    if has_more {
        return write_all(writer, b", and more");
    }
    Ok(())
}

/// Writes that there are more, and ends the line.
pub(crate) fn write_more<W: Drain>(writer: &mut W, has_more: bool) -> Result<(), Failed>
    ensures bytes { AppendsAll (W.contents writer.old) (W.contents writer.new) result
        (line (more_text has_more)) }
    ensures count { W.failures writer.new ≡ failures_after (W.failures writer.old) result }
{
    put_more(writer, has_more)?;
    write_all(writer, b"\n")
}

/// Writes the upstream neighbours of a census, and ends the line.
#[tactic(auto, unfolding(crate::specs::Missing::neighbours_text))]
fn write_neighbours<F: Family, W: Drain>(writer: &mut W, census: &Census) -> Result<(), Failed>
    ensures bytes { AppendsAll (W.contents writer.old) (W.contents writer.new) result
        (line (neighbours_text F.family census.now)) }
    ensures count { W.failures writer.new ≡ failures_after (W.failures writer.old) result }
{
    put_listed::<F, W>(writer, &census.upstreams)?;
    put_more(writer, census.has_more)?;
    write_all(writer, b"\n")
}

/// Writes words, the name of a file, more words and an address.
fn put_about<F: Family, W: Drain>(
    writer: &mut W,
    words: &[u8],
    file: &str,
    more: &[u8],
    address: F::Addr,
) -> Result<(), Failed>
    ensures bytes { AppendsAll (W.contents writer.old) (W.contents writer.new) result
        (words.now ++ file.now ++ more.now ++ address_text F.family (F.bytes_of address)) }
    ensures count { W.failures writer.new ≡ failures_after (W.failures writer.old) result }
{
    write_all(writer, words)?;
    write_all(writer, file.as_bytes())?;
    put_address::<F, W>(writer, more, address)
}

/// Writes words, the name of a file, more words and the own address of a census.
fn put_own<F: Family, W: Drain>(
    writer: &mut W,
    words: &[u8],
    file: &str,
    more: &[u8],
    census: &Census,
) -> Result<(), Failed>
    ensures bytes { AppendsAll (W.contents writer.old) (W.contents writer.new) result
        (words.now ++ file.now ++ more.now
        ++ address_text F.family (address_in F.family census.now.own)) }
    ensures count { W.failures writer.new ≡ failures_after (W.failures writer.old) result }
{
    put_about::<F, W>(writer, words, file, more, F::take(&census.own))
}

/// Writes words, the name of a file, more words, and the own address and the upstream neighbours of
/// a census, and ends the line.
fn write_missed<F: Family, W: Drain>(
    writer: &mut W,
    words: &[u8],
    file: &str,
    more: &[u8],
    census: &Census,
) -> Result<(), Failed>
    ensures bytes { AppendsAll (W.contents writer.old) (W.contents writer.new) result
        (line (words.now ++ file.now ++ more.now
        ++ address_text F.family (address_in F.family census.now.own)
        ++ neighbours_text F.family census.now)) }
    ensures count { W.failures writer.new ≡ failures_after (W.failures writer.old) result }
{
    put_own::<F, W>(writer, words, file, more, census)?;
    write_neighbours::<F, W>(writer, census)
}

/// Writes words, the name of a file, more words, an address and the last words, and ends the line.
fn write_unserved<F: Family, W: Drain>(
    writer: &mut W,
    words: &[u8],
    file: &str,
    more: &[u8],
    group: F::Addr,
    last: &[u8],
) -> Result<(), Failed>
    ensures bytes { AppendsAll (W.contents writer.old) (W.contents writer.new) result
        (line (words.now ++ file.now ++ more.now ++ address_text F.family (F.bytes_of group)
        ++ last.now)) }
    ensures count { W.failures writer.new ≡ failures_after (W.failures writer.old) result }
{
    put_about::<F, W>(writer, words, file, more, group)?;
    write_plain(writer, last)
}

/// Writes the line of the warning that no message of the capture in this file is for the own address
/// of this census, but for the upstream neighbours that it has.
///
/// # Errors
/// The writer failed: a prefix of the line was written.
pub fn missed_line<F: Family, W: Drain>(
    writer: &mut W,
    file: &str,
    census: &Census,
) -> Result<(), Failed>
    ensures bytes { AppendsAll (W.contents writer.old) (W.contents writer.new) result
        (missed_text F.family file.now census.now) }
    ensures count { W.failures writer.new ≡ failures_after (W.failures writer.old) result }
{
    write_missed::<F, W>(
        writer,
        b"pimtree: warning: ",
        file,
        b" has no Join/Prune for ",
        census,
    )
}

/// Writes the line of the warning that the capture in this file has a Join(\*,G) of this group,
/// which has no RP.
///
/// # Errors
/// The writer failed: a prefix of the line was written.
pub fn unserved_line<F: Family, W: Drain>(
    writer: &mut W,
    file: &str,
    group: F::Addr,
) -> Result<(), Failed>
    ensures bytes { AppendsAll (W.contents writer.old) (W.contents writer.new) result
        (unserved_text F.family file.now (F.bytes_of group)) }
    ensures count { W.failures writer.new ≡ failures_after (W.failures writer.old) result }
{
    write_unserved::<F, W>(
        writer,
        b"pimtree: warning: ",
        file,
        b" has a Join(*,G) of ",
        group,
        b", which has no RP",
    )
}
