//! The names of ports.

ghost use Rattle.std.specs.Prelude.{◌≡◌, ◌≤◌, true, false, length, decimal, IfSome, IfNone};
ghost use Rattle.std.specs.List.{list_all};
ghost use Rattle.pim_lines.specs.PortNames.{is_port_name, is_port_name_byte};

use crate::buffers::put_front;
use itoa::Buffer;
use std::marker::Model;

/// The name of a port: at most 32 letters, digits, `.`, `_` and `-`. Contracts see the text, which
/// needs no escape in a JSON string.
#[derive(Drop)]
pub struct Name {
    text: [u8; 32],
    length: usize,
}

impl Model for Name {
    ghost use Rattle.std.specs.Prelude.{ℕ, List, ◌≤◌, ◌≡◌, true, take};
    ghost use Rattle.std.specs.List.{list_all};
    ghost use Rattle.pim_lines.specs.PortNames.{is_port_name_byte};

    ghost Value = { List ℕ };

    ghost view = { λ name. take name.length name.text };

    ghost invariant = { λ name. (name.length ≤ 32)
        × (list_all is_port_name_byte (take name.length name.text) ≡ true) };
}

/// Whether a byte may occur in a name.
fn is_port_name_byte(byte: u8) -> bool
    ensures { result ≡ is_port_name_byte byte }
{
    byte.is_ascii_alphanumeric() || byte == b'.' || byte == b'_' || byte == b'-'
}

/// Whether all bytes may occur in a name.
fn are_name_bytes(bytes: &[u8]) -> bool
    ensures { result ≡ list_all is_port_name_byte bytes.now }
{
    for &byte in bytes {
        if !is_port_name_byte(byte) {
            return false;
        }
    }
    true
}

/// Returns whether a text is a name that a user may give to a port: a letter, then up to 31
/// letters, digits, `.`, `_` or `-`.
pub fn is_port_name(text: &[u8]) -> bool
    ensures { result ≡ is_port_name text.now }
{
    let Some((&first, others)) = text.split_first() else {
        return false;
    };
    first.is_ascii_alphabetic() && are_name_bytes(others) && others.len() <= 31
}

impl Name {
    /// A text of at most 32 bytes that may occur in a name.
    fn copied(bytes: &[u8]) -> Name
        requires short { length bytes.now ≤ 32 }
        requires named { list_all is_port_name_byte bytes.now ≡ true }
        ensures { result ≡ bytes.now }
    {
        let mut text = [0; 32];
        let length = bytes.len();
        put_front(&mut text, bytes);
        Name { text, length }
    }

    /// The name that a text is: a letter, then up to 31 letters, digits, `.`, `_` or `-`. `None`
    /// for any other text.
    pub fn read(text: &str) -> Option<Name>
        ensures named { IfSome result (λ name. (name ≡ text.now) × (is_port_name text.now ≡ true)) }
        ensures no_name { IfNone result (is_port_name text.now ≡ false) }
    {
        let bytes = text.as_bytes();
        if !is_port_name(bytes) {
            return None;
        }
        Some(Name::copied(bytes))
    }

    /// The number of a port as its name.
    #[tactic(auto, using(crate::proofs::Decimals::decimal_is_name))]
    pub fn number(port: usize) -> Name
        ensures { result ≡ decimal port }
    {
        let mut digits = Buffer::new();
        Name::copied(digits.format(port).as_bytes())
    }

    /// The text.
    pub fn text(&self) -> &[u8]
        ensures text { result.now ≡ self.now }
        ensures short { length self.now ≤ 32 }
        ensures named { list_all is_port_name_byte self.now ≡ true }
    {
        &self.text[..self.length]
    }
}
