//! What an item of the input asks for, before any state is looked at.

ghost use Rattle.std.specs.Prelude.{◌≡◌, ◌≤◌, ◌<◌, ◌^◌, ◌==◌, count_by, true, false, length, IfOk};
ghost use Rattle.std.specs.Prelude.{IfErr};
ghost use Rattle.pim_text.specs.Read.{IsRead};
ghost use Rattle.pim_request.specs.Items.{Item as SomeItem, Text as SomeText, has_long_line};
ghost use Rattle.pim_request.specs.Items.{line_limit, text_limit};
ghost use Rattle.pim_request.specs.Reading.{IsItem, IsText};
ghost use Rattle.pim_answers.specs.Fault.{fault_words};
ghost use Rattle.pim_session.specs.Request.{wrong_words, IsWrongIn, RequestsLine, RequestsText};
ghost use Rattle.pim_session.specs.Request.{Requests};
ghost use Rattle.pim_session.specs.Seen.{request_seen, IsFitIfAny, RequestsFrom};

use pim_addr::Feed;
use pim_answers::{AnswerFault, FromText};
use pim_request::{
    Command, InputItems, Item, Sender, TextItem, WordsFault, read_command, read_sender,
};
use pim_text::{Stated, read_message_text};

/// What an item asks for.
#[derive(Clone, Copy, Debug)]
pub(crate) enum Request<'a> {
    /// A command in one line.
    Command(Command<'a>),
    /// A packet whose message is given as a text.
    From(FromText<'a>),
}

/// The fault of the words of a line.
fn words_fault<'a>(fault: WordsFault<'a>) -> AnswerFault<'a>
    ensures { fault_words result ≡ wrong_words fault.entry }
{
    match fault {
        WordsFault::Word(word) => AnswerFault::with_name(b"word ", word),
        WordsFault::Address(word) => AnswerFault::with_name(b"address ", word),
        WordsFault::Hex => AnswerFault::plain(b"hex"),
    }
}

/// The number of line feeds in a text.
fn count_feeds(text: &[u8]) -> usize
    ensures count { result ≡ count_by (λ byte. byte == 10) text.now }
    ensures bound { result ≤ length text.now }
{
    text.iter().filter(|byte| **byte == b'\n').count()
}

/// What a text states, or its first wrong line. Where `send` is missing, the line after the last
/// one is wrong.
fn stated_by(text: &[u8], is_sent: bool) -> Result<Stated, usize>
    requires { length text.now < 2 ^ 32 }
    ensures read { IfOk result (λ stated. IsRead text.now stated × (is_sent ≡ true)) }
    ensures wrong { IfErr result (λ number. IsWrongIn text.now number is_sent) }
{
    let stated = read_message_text(text)?;
    if is_sent {
        Ok(stated)
    } else {
        Err(count_feeds(text) + 1)
    }
}

/// What a held text asks for, after a `from` line with this sender.
fn request_of_held<'a>(
    sender: Sender,
    text: &'a [u8],
    is_sent: bool,
) -> Result<Request<'a>, AnswerFault<'a>>
    requires { length text.now ≤ text_limit }
    ensures requests { RequestsFrom sender text.now is_sent (request_seen result) }
    ensures fit { IsFitIfAny result }
{
    match stated_by(text, is_sent) {
        Ok(stated) => Ok(Request::From(FromText {
            sender,
            stated,
            text,
        })),
        Err(number) => Err(AnswerFault::numbered(b"text line ", number as u64)),
    }
}

/// What a text asks for whose lines are short enough.
fn request_of_text<'a, R: Feed>(
    items: &'a InputItems<R>,
    item: TextItem,
) -> Result<Request<'a>, AnswerFault<'a>>
    ensures requests { (text : SomeText) → IsText text item items.now → has_long_line text ≡ false →
        RequestsText text (request_seen result) }
    ensures fit { IsFitIfAny result }
{
    let sender = match read_sender(items.from_line()) {
        Ok(sender) => sender,
        Err(fault) => return Err(words_fault(fault)),
    };
    if item.is_too_long {
        return Err(AnswerFault::plain(b"text too-long"));
    }
    request_of_held(sender, items.text(), item.is_sent)
}

/// The command that a line states, or the fault of its words.
fn request_of_line<'a>(line: &'a [u8]) -> Result<Request<'a>, AnswerFault<'a>>
    requires { length line.now ≤ line_limit }
    ensures requests { RequestsLine line.now (request_seen result) }
    ensures fit { IsFitIfAny result }
{
    match read_command(line) {
        Ok(command) => Ok(Request::Command(command)),
        Err(fault) => Err(words_fault(fault)),
    }
}

/// What the last item asks for, or the first of the faults that depend on no state: a line that is
/// too long, the words of the line, a text that is too long or states no message.
pub(crate) fn request_of<'a, R: Feed>(
    items: &'a InputItems<R>,
    item: Item,
) -> Result<Request<'a>, AnswerFault<'a>>
    ensures requests { (some : SomeItem) → IsItem some item items.now →
        Requests some (request_seen result) }
    ensures fit { IsFitIfAny result }
{
    match item {
        Item::Line => request_of_line(items.line()),
        Item::LongLine => Err(AnswerFault::plain(b"line too-long")),
        Item::Text(text) => {
            if text.has_long_line {
                return Err(AnswerFault::plain(b"line too-long"));
            }
            request_of_text(items, text)
        }
    }
}
