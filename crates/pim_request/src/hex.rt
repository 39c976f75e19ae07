//! Hexadecimal digits.

ghost use Rattle.std.specs.Prelude.{◌≡◌, ◌<◌, ◌≤◌, ◌∷◌, [], length, true, IfSome, IfNone};
ghost use Rattle.std.specs.Prelude.{vec_capacity};
ghost use Rattle.std.specs.List.{list_all};
ghost use Rattle.std.specs.Char.{digit_value, is_digit};
ghost use Rattle.pim_request.specs.Forms.{IsHex, hex_bytes};

/// The byte of the first two digits of a text, and the text after them.
#[derive(Clone, Copy)]
struct Decoded<'a> {
    byte: u8,
    left: &'a [u8],
}

/// Returns the value of a hexadecimal digit, in either case. No branch depends on the digit.
#[tactic(auto, using(crate::proofs::Pairs::value_is))]
fn hex_value(digit: u8) -> u8
    requires { digit_value digit < 16 }
    ensures { result ≡ digit_value digit }
{
    digit % 16 + digit / 64 * 9
}

/// Returns whether a byte is a hexadecimal digit, in either case. It has no branch.
fn is_digit(byte: u8) -> bool
    ensures { result ≡ is_digit byte 16 }
{
    let is_decimal = (byte >= b'0') & (byte <= b'9');
    let is_upper = (byte >= b'A') & (byte <= b'F');
    let is_lower = (byte >= b'a') & (byte <= b'f');
    is_decimal | is_upper | is_lower
}

/// Returns whether each byte is a hexadecimal digit. It looks at all bytes, so that the loop has no
/// branch on them and the compiler can take many at once.
fn are_digits(text: &[u8]) -> bool
    ensures { result ≡ list_all (λ byte. is_digit byte 16) text.now }
{
    let mut are_all = true;
    for byte in text {
        are_all &= is_digit(*byte);
    }
    are_all
}

/// Returns whether a text is pairs of hexadecimal digits.
pub(crate) fn is_hex(text: &[u8]) -> bool
    ensures yes { result ≡ true → IsHex text.now }
    ensures no { IsHex text.now → result ≡ true }
{
    text.len() % 2 == 0 && are_digits(text)
}

/// Returns the byte of the first two digits, if there are any.
fn next_byte(digits: &[u8]) -> Option<Decoded<'_>>
    requires { IsHex digits.now }
    ensures some { IfSome result (λ decoded. hex_bytes digits.now
        ≡ decoded.byte ∷ hex_bytes decoded.left.now) }
    ensures digits { IfSome result (λ decoded. IsHex decoded.left.now) }
    ensures less { IfSome result (λ decoded. length decoded.left.now < length digits.now) }
    ensures none { IfNone result (digits.now ≡ []) }
{
    match digits {
        [high, low, left @ ..] => Some(Decoded {
            byte: hex_value(*high) * 16 + hex_value(*low),
            left,
        }),
        _ => None,
    }
}

/// Replaces `bytes` by the bytes that pairs of hexadecimal digits state. It has room for them.
pub fn decode_hex(hex: &[u8], bytes: &mut Vec<u8>)
    requires hex { IsHex hex.now }
    requires room { length (hex_bytes hex.now) ≤ vec_capacity bytes.old }
    ensures decoded { bytes.new.items ≡ hex_bytes hex.now }
    ensures room { vec_capacity bytes.old ≤ vec_capacity bytes.new }
{
    bytes.clear();
    let mut left = hex;
    while let Some(decoded) = next_byte(left) {
        let Ok(()) = bytes.push(decoded.byte) else {
            unreachable!();
        };
        left = decoded.left;
    }
}
