//! A short text that is put together without memory: words, a name, more words, and a number.

ghost use Rattle.std.specs.Prelude.{◌≡◌, ◌++◌, [], decimal};
ghost use Rattle.pim_lines.specs.Pieces.{number_or};
ghost use Rattle.pim_device.specs.Device.{AppendsAll, failures_after};
ghost use Rattle.pim_report.specs.Said.{said_text};

use itoa::Buffer;
use pim_addr::{Drain, Failed};
use pim_lines::{number_or, write_pieces};

/// Words, a name, more words, and a number. Each of them may be missing.
#[derive(Clone, Copy, Debug)]
pub(crate) struct Said {
    /// The first words.
    words: &'static [u8],
    /// A name.
    name: &'static [u8],
    /// The words after the name.
    more: &'static [u8],
    /// The number at the end.
    number: Option<u64>,
}

impl Said {
    /// A text of words alone.
    pub(crate) fn plain(words: &'static [u8]) -> Self
        ensures { said_text result ≡ words.now }
    {
        Said {
            words,
            name: b"",
            more: b"",
            number: None,
        }
    }

    /// A text of words and a number.
    pub(crate) fn numbered(words: &'static [u8], number: u64) -> Self
        ensures { said_text result ≡ words.now ++ decimal number }
    {
        Said {
            words,
            name: b"",
            more: b"",
            number: Some(number),
        }
    }

    /// A text of words, a name, more words and a number.
    pub(crate) fn of_name(
        words: &'static [u8],
        name: &'static [u8],
        more: &'static [u8],
        number: u64,
    ) -> Self
        ensures { said_text result ≡ words.now ++ name.now ++ more.now ++ decimal number }
    {
        Said {
            words,
            name,
            more,
            number: Some(number),
        }
    }

    /// The first words.
    pub(crate) fn words(&self) -> &[u8]
        ensures { result.now ≡ self.now.words.now }
    {
        self.words
    }

    /// The name.
    pub(crate) fn name(&self) -> &[u8]
        ensures { result.now ≡ self.now.name.now }
    {
        self.name
    }

    /// The words after the name.
    pub(crate) fn more(&self) -> &[u8]
        ensures { result.now ≡ self.now.more.now }
    {
        self.more
    }

    /// The number at the end in decimal, if there is one.
    pub(crate) fn digits<'a>(&self, buffer: &'a mut Buffer) -> &'a [u8]
        ensures { result.now ≡ number_or [] self.now.number }
    {
        number_or(buffer, self.number, b"")
    }
}

/// Writes the text.
pub(crate) fn write_said<W: Drain>(writer: &mut W, said: &Said) -> Result<(), Failed>
    ensures bytes { AppendsAll (W.contents writer.old) (W.contents writer.new) result
        (said_text said.now) }
    ensures count { W.failures writer.new ≡ failures_after (W.failures writer.old) result }
{
    let mut digits = Buffer::new();
    let pieces = [
        said.words(),
        said.name(),
        said.more(),
        said.digits(&mut digits),
    ];
    write_pieces(writer, &pieces)
}
