//! The warnings of the program, and the line of each.

ghost use Rattle.std.specs.Prelude.{◌≡◌, ◌++◌, codes, decimal};
ghost use Rattle.pim_device.specs.Device.{AppendsAll, failures_after};
ghost use Rattle.pim_lines.specs.Pieces.{line};
ghost use Rattle.pim_faults.specs.Words.{warning_text, warning_words};

use crate::fault::{put_about, put_number, write_about, write_plain};
use pim_addr::{Drain, Failed, write_all};

/// What a warning says of the capture in a file. Each has a number.
#[derive(Clone, Copy, Debug, PartialEq, Eq)]
pub enum Warning {
    /// The file ends inside the record with this number.
    CutShort,
    /// The capture goes on in this number of more files that end inside a record.
    MoreCutShort,
    /// This number of packets are fragments.
    Fragments,
    /// Of this number of packets the fragments are incomplete. The record with the number of the
    /// warning has the first of them.
    Incomplete(u64),
    /// Of this number of frames, fewer bytes were captured than they have.
    CutFrames,
    /// The time of the record with this number is before that of an earlier one.
    RunsBack,
    /// The time of the record with this number is long after that of the one before it.
    Jumps,
}

/// Writes the name of a file and how many of something it has, and ends the line.
fn write_count<W: Drain>(
    writer: &mut W,
    file: &str,
    number: u64,
    words: &[u8],
) -> Result<(), Failed>
    ensures bytes { AppendsAll (W.contents writer.old) (W.contents writer.new) result
        (line (file.now ++ codes " has " ++ decimal number ++ words.now)) }
    ensures count { W.failures writer.new ≡ failures_after (W.failures writer.old) result }
{
    put_about(writer, b"", file, b" has ", number)?;
    write_plain(writer, words)
}

/// Writes the name of a file, words and a count, more words and a number.
fn put_counts<W: Drain>(
    writer: &mut W,
    file: &str,
    words: &[u8],
    count: u64,
    more: &[u8],
    number: u64,
) -> Result<(), Failed>
    ensures bytes { AppendsAll (W.contents writer.old) (W.contents writer.new) result
        (file.now ++ words.now ++ decimal count ++ more.now ++ decimal number) }
    ensures count { W.failures writer.new ≡ failures_after (W.failures writer.old) result }
{
    put_about(writer, b"", file, words, count)?;
    put_number(writer, more, number)
}

/// Writes the name of a file, how many of something it has, and a number, and ends the line.
fn write_counts<W: Drain>(
    writer: &mut W,
    file: &str,
    count: u64,
    words: &[u8],
    number: u64,
) -> Result<(), Failed>
    ensures bytes { AppendsAll (W.contents writer.old) (W.contents writer.new) result
        (line (file.now ++ codes " has " ++ decimal count ++ words.now ++ decimal number)) }
    ensures count { W.failures writer.new ≡ failures_after (W.failures writer.old) result }
{
    put_counts(writer, file, b" has ", count, words, number)?;
    write_all(writer, b"\n")
}

/// Writes the words of a warning, and ends the line.
fn write_warning<W: Drain>(
    writer: &mut W,
    warning: Warning,
    file: &str,
    number: u64,
) -> Result<(), Failed>
    ensures bytes { AppendsAll (W.contents writer.old) (W.contents writer.new) result
        (line (warning_words warning file.now number)) }
    ensures count { W.failures writer.new ≡ failures_after (W.failures writer.old) result }
{
    match warning {
        Warning::CutShort => write_about(writer, b"", file, b" ends inside record ", number),
        Warning::MoreCutShort => write_count(
            writer,
            file,
            number,
            b" more files that end inside a record",
        ),
        Warning::Fragments => write_count(writer, file, number, b" fragments, which are skipped"),
        Warning::Incomplete(packets) => write_counts(
            writer,
            file,
            packets,
            b" packets whose fragments are incomplete, first in record ",
            number,
        ),
        Warning::CutFrames => write_count(
            writer,
            file,
            number,
            b" frames that are cut by the snapshot length",
        ),
        Warning::RunsBack => write_about(
            writer,
            b"time runs back in ",
            file,
            b" at record ",
            number,
        ),
        Warning::Jumps => write_about(writer, b"time jumps in ", file, b" at record ", number),
    }
}

/// Writes words and those of a warning, and ends the line.
fn write_after<W: Drain>(
    writer: &mut W,
    words: &[u8],
    warning: Warning,
    file: &str,
    number: u64,
) -> Result<(), Failed>
    ensures bytes { AppendsAll (W.contents writer.old) (W.contents writer.new) result
        (line (words.now ++ warning_words warning file.now number)) }
    ensures count { W.failures writer.new ≡ failures_after (W.failures writer.old) result }
{
    write_all(writer, words)?;
    write_warning(writer, warning, file, number)
}

/// Writes the line of a warning on the capture in this file: `pimtree: warning: `, its words and a
/// line feed.
///
/// # Errors
/// The writer failed: a prefix of the line was written.
pub fn warning_line<W: Drain>(
    writer: &mut W,
    warning: Warning,
    file: &str,
    number: u64,
) -> Result<(), Failed>
    ensures bytes { AppendsAll (W.contents writer.old) (W.contents writer.new) result
        (warning_text warning file.now number) }
    ensures count { W.failures writer.new ≡ failures_after (W.failures writer.old) result }
{
    write_after(writer, b"pimtree: warning: ", warning, file, number)
}
