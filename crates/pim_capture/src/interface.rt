//! The interfaces of captures, by their names.

ghost use Rattle.std.specs.Prelude.{◌≡◌};
ghost use Rattle.std.specs.List.{list_all};
ghost use Rattle.std.specs.Char.{is_ascii_digit};
ghost use Rattle.pim_capture.specs.Names.{is_name_byte, is_name, name_of, text_of, is_same_name};

/// The name of an interface: 1 to 16 printable characters of ASCII, of which not all are digits,
/// and none is a space, `+`, `,` or `=`.
#[derive(Clone, Copy, Debug, PartialEq, Eq)]
pub struct InterfaceName {
    /// Its bytes, and zeros after them.
    bytes: [u8; 16],
    /// The number of its bytes.
    length: u8,
}

/// The interface whose packets are taken.
#[derive(Clone, Copy, Debug, PartialEq, Eq)]
pub enum InterfaceChoice {
    /// The one with this number: its index in a cooked header of version 2, or for packets without
    /// one its number in a section of a pcapng file.
    Number(u32),
    /// Those with this name in a pcapng file.
    Name(InterfaceName),
}

/// Whether a byte may occur in a name.
fn is_name_byte(byte: u8) -> bool
    ensures { result ≡ is_name_byte byte }
{
    33 <= byte && byte <= 126 && byte != b'+' && byte != b',' && byte != b'='
}

/// Whether all bytes may occur in a name.
fn are_name_bytes(text: &[u8]) -> bool
    ensures { result ≡ list_all is_name_byte text.now }
{
    for &byte in text {
        if !is_name_byte(byte) {
            return false;
        }
    }
    true
}

/// Whether all bytes are digits.
fn are_digits(text: &[u8]) -> bool
    ensures { result ≡ list_all is_ascii_digit text.now }
{
    for &byte in text {
        if !byte.is_ascii_digit() {
            return false;
        }
    }
    true
}

/// Whether a text is a name.
fn is_name(text: &[u8]) -> bool
    ensures { result ≡ is_name text.now }
{
    are_name_bytes(text) && !are_digits(text) && text.len() <= 16
}

impl InterfaceName {
    /// The name with this text. `None` if it is none.
    #[tactic(auto, unfolding(crate::specs::Names::name_of))]
    pub fn of(text: &[u8]) -> Option<InterfaceName>
        ensures { result ≡ name_of text.now }
    {
        if !is_name(text) {
            return None;
        }
        let mut bytes = [0; 16];
        let (front, _) = bytes.split_at_mut(text.len());
        front.copy_from_slice(text);
        Some(InterfaceName {
            bytes,
            length: text.len() as u8,
        })
    }

    /// Its text.
    pub fn text(&self) -> &[u8]
        ensures { result.now ≡ text_of self.now }
    {
        let (text, _) = self.bytes.split_at(usize::from(self.length).min(16));
        text
    }

    /// Whether another name has the same text.
    pub fn is_same(&self, other: &InterfaceName) -> bool
        ensures { result ≡ is_same_name self.now other.now }
    {
        self.text() == other.text()
    }
}
