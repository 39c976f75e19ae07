//! The last line of an answer: `ok`, or `fault` and the words of the fault.

ghost use Rattle.std.specs.Prelude.{◌≡◌, ◌++◌, [], codes, decimal};
ghost use Rattle.pim_lines.specs.Pieces.{number_or};
ghost use Rattle.pim_device.specs.Device.{AppendsAll, failures_after};
ghost use Rattle.pim_answers.specs.Fault.{fault_words, done_text};
ghost use Rattle.pim_answers.specs.Families.{family_words};
ghost use Rattle.pim_answers.specs.Lines.{ok_line, fault_line};

use itoa::Buffer;
use pim_addr::{Drain, Failed, write_all};
use pim_lines::{number_or, write_pieces};

/// Why a command is refused: words, and the bytes or the number that they name.
#[derive(Clone, Copy, Debug)]
pub struct AnswerFault<'a> {
    words: &'static [u8],
    name: &'a [u8],
    number: Option<u64>,
}

impl<'a> AnswerFault<'a> {
    /// A fault of words alone.
    pub fn plain(words: &'static [u8]) -> Self
        ensures { fault_words result ≡ words.now }
    {
        AnswerFault {
            words,
            name: b"",
            number: None,
        }
    }

    /// A fault of words that end with a space, and these bytes.
    pub fn with_name(words: &'static [u8], name: &'a [u8]) -> Self
        ensures { fault_words result ≡ words.now ++ name.now }
    {
        AnswerFault {
            words,
            name,
            number: None,
        }
    }

    /// A fault of words that end with a space, and this number.
    pub fn numbered(words: &'static [u8], number: u64) -> Self
        ensures { fault_words result ≡ words.now ++ decimal number }
    {
        AnswerFault {
            words,
            name: b"",
            number: Some(number),
        }
    }

    /// The words.
    fn words(&self) -> &[u8]
        ensures { result.now ≡ self.now.words.now }
    {
        self.words
    }

    /// The bytes that they name.
    fn name_bytes(&self) -> &[u8]
        ensures { result.now ≡ self.now.name.now }
    {
        self.name
    }

    /// The number that they name, in decimal, if there is one.
    fn digits<'b>(&self, buffer: &'b mut Buffer) -> &'b [u8]
        ensures { result.now ≡ number_or [] self.now.number }
    {
        number_or(buffer, self.number, b"")
    }

    /// Memory was refused.
    pub fn memory() -> Self
        ensures { fault_words result ≡ codes "memory" }
    {
        AnswerFault::plain(b"memory")
    }

    /// An address has another family than the session.
    pub fn family() -> Self
        ensures { fault_words result ≡ family_words }
    {
        AnswerFault::plain(b"family")
    }
}

/// Writes the line of a fault.
pub fn write_fault<W: Drain>(answers: &mut W, fault: &AnswerFault<'_>) -> Result<(), Failed>
    ensures bytes { AppendsAll (W.contents answers.old) (W.contents answers.new) result
        (fault_line (fault_words fault.now)) }
    ensures count { W.failures answers.new ≡ failures_after (W.failures answers.old) result }
{
    let mut digits = Buffer::new();
    let pieces = [
        b"fault ",
        fault.words(),
        fault.name_bytes(),
        fault.digits(&mut digits),
        b"\n",
    ];
    write_pieces(answers, &pieces)
}

/// Writes the line `ok`.
pub fn write_ok<W: Drain>(answers: &mut W) -> Result<(), Failed>
    ensures bytes { AppendsAll (W.contents answers.old) (W.contents answers.new) result ok_line }
    ensures count { W.failures answers.new ≡ failures_after (W.failures answers.old) result }
{
    write_all(answers, b"ok\n")
}

/// Writes `ok`, or the line of the fault.
pub fn write_done<W: Drain>(
    answers: &mut W,
    done: Result<(), AnswerFault<'_>>,
) -> Result<(), Failed>
    ensures bytes { AppendsAll (W.contents answers.old) (W.contents answers.new) result
        (done_text done.entry) }
    ensures count { W.failures answers.new ≡ failures_after (W.failures answers.old) result }
{
    match done {
        Ok(()) => write_ok(answers),
        Err(fault) => write_fault(answers, &fault),
    }
}
