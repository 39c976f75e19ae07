//! Bytes as hexadecimal digits.

ghost use Rattle.std.specs.Prelude.{◌≡◌, ◌<◌};
ghost use Rattle.std.specs.List.{flat_map};
ghost use Rattle.pim_device.specs.Device.{AppendsAll, failures_after};
ghost use Rattle.pim_lines.specs.Hex.{hex_digit, hex_of};

use pim_addr::{Drain, Failed, write_all};

/// A hexadecimal digit, in lower case.
fn hex_digit(value: u8) -> u8
    requires { value < 16 }
    ensures { result ≡ hex_digit value }
{
    if value < 10 { value + 48 } else { value + 87 }
}

/// The two hexadecimal digits of a byte.
fn hex_of(byte: u8) -> [u8; 2]
    ensures { result ≡ hex_of byte }
{
    [hex_digit(byte / 16), hex_digit(byte % 16)]
}

/// Writes bytes as hexadecimal digits, in lower case.
///
/// # Errors
/// The device failed: a prefix of the digits was written.
pub fn write_hex<W: Drain>(writer: &mut W, bytes: &[u8]) -> Result<(), Failed>
    ensures bytes { AppendsAll (W.contents writer.old) (W.contents writer.new) result
        (flat_map hex_of bytes.now) }
    ensures count { W.failures writer.new ≡ failures_after (W.failures writer.old) result }
{
    for &byte in bytes {
        write_all(writer, &hex_of(byte))?;
    }
    Ok(())
}
