//! The text in which an address is written. Each private writer returns the place after what it
//! wrote.

ghost use Rattle.std.specs.Prelude.{◌≡◌, ◌+◌, ◌*◌, ◌<◌, ◌≤◌, List, [], ◌∷◌, ◌++◌, length, take};
ghost use Rattle.std.specs.Prelude.{drop, map, decimal};
ghost use Rattle.std.specs.List.{join_with_byte};
ghost use Rattle.std.specs.Char.{digit_char};
ghost use Rattle.pim_addr.specs.Text.{address_text, hex_pair, hex_groups, separator, Wrote};

use crate::family::{AddressFamily, Family};

/// Writes one byte.
fn write_byte(text: &mut [u8], place: usize, byte: u8) -> usize
    requires { place < length text.old }
    ensures { Wrote (byte ∷ []) place text.old result text.new }
{
    text[place] = byte;
    place + 1
}

/// Writes the separator, but not before the first piece.
fn write_separator(text: &mut [u8], place: usize, byte: u8, index: usize) -> usize
    requires { place < length text.old }
    ensures { Wrote (separator byte index) place text.old result text.new }
{
    if index == 0 {
        place
    } else {
        write_byte(text, place, byte)
    }
}

/// Writes a byte in decimal, without leading zeros.
fn write_decimal(text: &mut [u8], place: usize, byte: u8) -> usize
    requires { place + 3 ≤ length text.old }
    ensures piece { Wrote (decimal byte) place text.old result text.new }
    ensures short { result ≤ place + 3 }
{
    let ones = b'0' + byte % 10;
    if byte < 10 {
        return write_byte(text, place, ones);
    }
    let tens = b'0' + byte / 10 % 10;
    if byte < 100 {
        let end = write_byte(text, place, tens);
        return write_byte(text, end, ones);
    }
    let end = write_byte(text, place, b'0' + byte / 100);
    let end = write_byte(text, end, tens);
    write_byte(text, end, ones)
}

/// Returns the lower-case hexadecimal digit of a number below 16.
fn hex_digit(number: u8) -> u8
    requires { number < 16 }
    ensures { result ≡ digit_char number }
{
    if number < 10 {
        b'0' + number
    } else {
        b'a' + (number - 10)
    }
}

/// Writes a byte in two hexadecimal digits.
fn write_hex_pair(text: &mut [u8], place: usize, byte: u8) -> usize
    requires { place + 2 ≤ length text.old }
    ensures { Wrote (hex_pair byte) place text.old result text.new }
{
    let end = write_byte(text, place, hex_digit(byte / 16));
    write_byte(text, end, hex_digit(byte % 16))
}

/// Writes the bytes in decimal, joined by dots.
fn write_dotted(text: &mut [u8], bytes: &[u8]) -> usize
    requires { 4 * length bytes.now ≤ length text.old }
    ensures { Wrote (join_with_byte 46 (map decimal bytes.now)) 0 text.old result text.new }
{
    let mut end = 0;
    for (index, byte) in bytes.iter().enumerate() {
        end = write_separator(text, end, b'.', index);
        end = write_decimal(text, end, *byte);
    }
    end
}

/// Writes the bytes as groups of four hexadecimal digits, joined by colons.
fn write_groups(text: &mut [u8], bytes: &[u8; 16]) -> usize
    requires { 39 ≤ length text.old }
    ensures { Wrote (join_with_byte 58 (hex_groups bytes.now)) 0 text.old result text.new }
{
    let mut end = 0;
    for index in 0..8 {
        end = write_separator(text, end, b':', index);
        end = write_hex_pair(text, end, bytes[2 * index]);
        end = write_hex_pair(text, end, bytes[2 * index + 1]);
    }
    end
}

/// Writes the one text of an address at the front of the buffer, and returns its length in bytes.
/// IPv4: decimals joined by dots. IPv6: eight groups of four lower-case hexadecimal digits, joined
/// by colons. The rest of the buffer is unchanged.
pub fn write_text<F: Family>(address: F::Addr, text: &mut [u8; 39]) -> usize
    ensures short { result ≤ 39 }
    ensures length { result ≡ length (address_text F.family (F.bytes_of address)) }
    ensures text { text.new ≡ address_text F.family (F.bytes_of address) ++ drop result text.old }
{
    match F::family() {
        AddressFamily::Ipv4 => {
            let mut bytes = [0; 4];
            F::put(address, &mut bytes);
            write_dotted(text, &bytes)
        }
        AddressFamily::Ipv6 => {
            let mut bytes = [0; 16];
            F::put(address, &mut bytes);
            write_groups(text, &bytes)
        }
    }
}
