//! A text that is held until it is answered.
//!
//! Room for the longest `from` line and the longest text is made in advance, so that no text needs
//! memory.

ghost use Rattle.std.specs.Prelude.{◌≡◌, ◌≤◌, ◌+◌, ◌++◌, ◌∷◌, [], List, ℕ, false, length};
ghost use Rattle.std.specs.Prelude.{vec_capacity};
ghost use Rattle.pim_request.specs.Items.{line_limit, text_limit, Text, text_after, with_line};
ghost use Rattle.pim_request.specs.Held.{HoldsText, IsKnown, KeepsLine};

use std::alloc::{AllocError, Global};
use std::marker::Model;

/// The most bytes of a line that is held.
const LINE_LIMIT: usize = 1_048_576;

/// The most bytes of a text that is held.
const TEXT_LIMIT: usize = 8_388_608;

/// A `from` line and the text after it.
#[derive(Drop)]
pub struct HeldText {
    from_line: Vec<u8>,
    bytes: Vec<u8>,
    has_long_line: bool,
    is_too_long: bool,
}

impl Model for HeldText {
    ghost use Rattle.std.specs.Prelude.{vec_capacity};
    ghost use Rattle.pim_request.specs.Held.{Held, HasRoom};

    ghost Value = { Held };

    ghost view = { λ text. record {
      from_line = text.from_line.items;
      bytes = text.bytes.items;
      has_long_line = text.has_long_line;
      is_too_long = text.is_too_long;
    } };

    ghost invariant = { λ text. HasRoom text.from_line.items (vec_capacity text.from_line)
        text.bytes.items (vec_capacity text.bytes) };
}

/// Adds a line and its line feed, for which there is room.
fn push_line(text: &mut Vec<u8>, line: &[u8])
    requires { length text.old.items + length line.now + 1 ≤ vec_capacity text.old }
    ensures pushed { text.new.items ≡ text.old.items ++ (line.now ++ 10 ∷ []) }
    ensures room { vec_capacity text.old ≤ vec_capacity text.new }
{
    let Ok(()) = text.extend_from_slice(line) else {
        unreachable!();
    };
    let Ok(()) = text.push(b'\n') else {
        unreachable!();
    };
}

/// Adds a line and its line feed to a text, or returns that the text is too long for it.
fn keep_line(text: &mut Vec<u8>, line: &[u8]) -> bool
    requires short { length text.old.items ≤ text_limit }
    requires room { text_limit ≤ vec_capacity text.old }
    ensures kept { KeepsLine text.old.items line.now text.new.items result }
    ensures short { length text.new.items ≤ text_limit }
    ensures room { text_limit ≤ vec_capacity text.new }
{
    if line.len() >= TEXT_LIMIT - text.len() {
        return true;
    }
    push_line(text, line);
    false
}

/// Makes this line the only one that is held.
fn hold_line(held: &mut Vec<u8>, line: &[u8])
    requires short { length line.now ≤ line_limit }
    requires room { line_limit ≤ vec_capacity held.old }
    ensures held { held.new.items ≡ line.now }
    ensures room { line_limit ≤ vec_capacity held.new }
{
    held.clear();
    let Ok(()) = held.extend_from_slice(line) else {
        unreachable!();
    };
}

impl HeldText {
    /// Returns an empty text.
    ///
    /// # Errors
    /// If memory for the room is refused.
    pub fn new(alloc: Global) -> Result<Self, AllocError> {
        Ok(HeldText {
            from_line: Vec::with_capacity(alloc, LINE_LIMIT)?,
            bytes: Vec::with_capacity(alloc, TEXT_LIMIT)?,
            has_long_line: false,
            is_too_long: false,
        })
    }

    /// Begins an empty text, after this `from` line.
    pub fn begin(&mut self, line: &[u8], too_long: bool)
        requires { length line.now ≤ line_limit }
        ensures { (head : List ℕ) → IsKnown line.now too_long head →
            HoldsText (text_after head) self.new }
    {
        self.bytes.clear();
        self.has_long_line = too_long;
        self.is_too_long = false;
        hold_line(&mut self.from_line, line);
    }

    /// Adds a line to the text, with its line feed.
    pub fn add(&mut self, line: &[u8], too_long: bool)
        ensures { (text : Text) (whole : List ℕ) → IsKnown line.now too_long whole →
            HoldsText text self.old → HoldsText (with_line whole text) self.new }
    {
        self.has_long_line |= too_long;
        if self.has_long_line || self.is_too_long {
            return;
        }
        self.is_too_long = keep_line(&mut self.bytes, line);
    }

    /// Returns the `from` line, if it is held.
    pub fn from_line(&self) -> &[u8]
        ensures line { result.now ≡ self.now.from_line }
        ensures short { length result.now ≤ line_limit }
    {
        self.from_line.as_slice()
    }

    /// Returns the text, if it is held.
    pub fn bytes(&self) -> &[u8]
        ensures bytes { result.now ≡ self.now.bytes }
        ensures short { length result.now ≤ text_limit }
    {
        self.bytes.as_slice()
    }

    /// Returns whether one of the lines is too long.
    pub fn has_long_line(&self) -> bool
        ensures { result ≡ self.now.has_long_line }
    {
        self.has_long_line
    }

    /// Returns whether the text is too long.
    pub fn is_too_long(&self) -> bool
        ensures { result ≡ self.now.is_too_long }
    {
        self.is_too_long
    }
}
