//! The lines of messages.

ghost use Rattle.std.specs.Prelude.{◌≡◌, slice_get};
ghost use Rattle.std.specs.List.{flat_map};
ghost use Rattle.pim_device.specs.Device.{AppendsAll, failures_after};
ghost use Rattle.pim_lines.specs.Hex.{hex_of};
ghost use Rattle.pim_report.specs.MessageText.{length_words, message_line};
ghost use Rattle.pim_report.specs.MessageText.{message_line_of};
ghost use Rattle.pim_report.specs.MessageText.{count_line, messages_text};
ghost use Rattle.pim_lines.specs.Pieces.{line};

use itoa::Buffer;
use pim_addr::{Drain, Failed, write_all};
use pim_form::Messages;
use pim_lines::{write_hex, write_pieces};

/// Writes bytes in hexadecimal, then a line feed.
fn write_hex_line<W: Drain>(writer: &mut W, bytes: &[u8]) -> Result<(), Failed>
    ensures bytes { AppendsAll (W.contents writer.old) (W.contents writer.new) result
        (line (flat_map hex_of bytes.now)) }
    ensures count { W.failures writer.new ≡ failures_after (W.failures writer.old) result }
{
    write_hex(writer, bytes)?;
    write_all(writer, b"\n")
}

/// Writes what precedes the digits of a message of this length in bytes.
fn write_length<W: Drain>(writer: &mut W, length: usize) -> Result<(), Failed>
    ensures bytes { AppendsAll (W.contents writer.old) (W.contents writer.new) result
        (length_words length) }
    ensures count { W.failures writer.new ≡ failures_after (W.failures writer.old) result }
{
    let mut digits = Buffer::new();
    let pieces = [b"message ", digits.format(length).as_bytes(), b" "];
    write_pieces(writer, &pieces)
}

/// Writes the line of a message.
fn write_message<W: Drain>(writer: &mut W, message: &[u8]) -> Result<(), Failed>
    ensures bytes { AppendsAll (W.contents writer.old) (W.contents writer.new) result
        (message_line message.now) }
    ensures count { W.failures writer.new ≡ failures_after (W.failures writer.old) result }
{
    write_length(writer, message.len())?;
    write_hex_line(writer, message)
}

/// Writes the line of the message with this index, if there is one.
fn write_message_at<W: Drain>(
    writer: &mut W,
    messages: &Messages,
    index: usize,
) -> Result<(), Failed>
    ensures bytes { AppendsAll (W.contents writer.old) (W.contents writer.new) result
        (message_line_of (slice_get messages.now index)) }
    ensures count { W.failures writer.new ≡ failures_after (W.failures writer.old) result }
{
    match messages.get(index) {
        Some(message) => write_message(writer, message),
        None => Ok(()),
    }
}

/// Writes the lines of the messages.
fn write_each<W: Drain>(writer: &mut W, messages: &Messages) -> Result<(), Failed>
    ensures bytes { AppendsAll (W.contents writer.old) (W.contents writer.new) result
        (flat_map message_line messages.now) }
    ensures count { W.failures writer.new ≡ failures_after (W.failures writer.old) result }
{
    for index in 0..messages.count() {
        write_message_at(writer, messages, index)?;
    }
    Ok(())
}

/// Writes the line with the number of messages.
fn write_count<W: Drain>(writer: &mut W, count: usize) -> Result<(), Failed>
    ensures bytes { AppendsAll (W.contents writer.old) (W.contents writer.new) result
        (count_line count) }
    ensures count { W.failures writer.new ≡ failures_after (W.failures writer.old) result }
{
    let mut digits = Buffer::new();
    let pieces = [b"messages ", digits.format(count).as_bytes(), b"\n"];
    write_pieces(writer, &pieces)
}

/// Writes a line for each message, with its length in bytes and its bytes in hexadecimal, then the
/// line with their number.
///
/// # Errors
/// The device failed: a prefix of the lines was written.
pub fn write_messages<W: Drain>(writer: &mut W, messages: &Messages) -> Result<(), Failed>
    ensures bytes { AppendsAll (W.contents writer.old) (W.contents writer.new) result
        (messages_text messages.now) }
    ensures count { W.failures writer.new ≡ failures_after (W.failures writer.old) result }
{
    write_each(writer, messages)?;
    write_count(writer, messages.count())
}
