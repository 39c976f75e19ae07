//! The items of a session: lines, and texts that a `from` line begins.

ghost use Rattle.std.specs.Prelude.{◌≡◌, ◌≤◌, List, ℕ, true, false, [], length, IfOk};
ghost use Rattle.std.specs.Prelude.{OnErr, IsErr, IsOk};
ghost use Rattle.std.specs.Option.{IfSome};
ghost use Rattle.std.specs.Io.KnownBytes.{Keeps};
ghost use Rattle.pim_request.specs.Items.{line_limit, text_limit, is_send, Text, has_item};
ghost use Rattle.pim_request.specs.Items.{IsAfterFirst};
ghost use Rattle.pim_request.specs.Reading.{GivesItem, LeavesLess, CountsReads};
ghost use Rattle.pim_request.specs.Reading.{flush_failures_after};
ghost use Rattle.pim_request.specs.Reading.{MayPassOn, PassesOn, GivesOne, IsAtOnce, EndsEarly};
ghost use Rattle.pim_request.specs.Reading.{Stops, Pends};
ghost use Rattle.pim_request.specs.Input.{coming_lines, bytes_left, HasPassedOn, HasRead, Lacks};
ghost use Rattle.pim_request.specs.Held.{HoldsText, IsKnown, GivesText, GivesTextItem, GivesSome};
ghost use Rattle.pim_request.specs.Held.{reading_seen, has_send, TakesSome};

use crate::answers::Answers;
use crate::held_text::HeldText;
use crate::input::{Found, Input, Stopped};
use crate::sort::{is_blank, is_from};
use pim_addr::Feed;
use std::alloc::{AllocError, Global};
use std::marker::Model;

/// A text that was read.
#[derive(Clone, Copy, Debug, PartialEq, Eq)]
pub struct TextItem {
    /// Whether its end, `send`, came before the end of the input.
    pub is_sent: bool,
    /// Whether its `from` line or one of its own lines has more than 1,048,576 bytes. Then nothing
    /// is held of it.
    pub has_long_line: bool,
    /// Whether it has more than 8,388,608 bytes. Then only its `from` line is held.
    pub is_too_long: bool,
}

/// An item of the input.
#[derive(Clone, Copy, Debug, PartialEq, Eq)]
pub enum Item {
    /// A line of at most 1,048,576 bytes.
    Line,
    /// A longer line.
    LongLine,
    /// A `from` line with the text after it.
    Text(TextItem),
}

/// The items of a device.
#[derive(Drop)]
pub struct InputItems<R: Feed> {
    input: Input<R>,
    held: HeldText,
    /// Whether a call has ended early. Nothing is pending then.
    has_stopped: bool,
}

impl<R: Feed> Model for InputItems<R> {
    ghost use Rattle.std.specs.Prelude.{◌≡◌, true, []};
    ghost use Rattle.pim_request.specs.Reading.{Reading};
    ghost use Rattle.pim_request.specs.Held.{reading_seen};

    ghost Value = { Reading };

    ghost view = { λ items. reading_seen items.input items.held items.has_stopped };

    ghost invariant = { λ items. items.has_stopped ≡ true → items.input.pending ≡ [] };
}

/// Returns whether a line ends a text. Of a line that is too long, its bytes don't matter.
fn ends_text(line: &[u8], too_long: bool) -> bool
    ensures { (whole : List ℕ) → IsKnown line.now too_long whole → result ≡ is_send whole }
{
    !too_long && line == b"send".as_slice()
}

/// Reads the lines of a text, and returns whether `send` ended it or the end of the input did.
fn read_text<R: Feed, W: Answers>(
    input: &mut Input<R>,
    held: &mut HeldText,
    answers: &mut W,
) -> Result<bool, Stopped>
    ensures text { IfSome (coming_lines input.old) (λ bytes.
        (begun : Text) → begun.is_sent ≡ false → HoldsText begun held.old →
        GivesText begun bytes result input.new held.new) }
    ensures at_once { has_send input.old.pending ≡ true → IsOk result
        × IsAfterFirst has_send input.old.pending input.new.pending
        × (answers.new ≡ answers.old) × (input.new.unread ≡ input.old.unread) }
    ensures early { OnErr result (IfSome (coming_lines input.old)
        (λ bytes. HasRead bytes (Lacks has_send) input.new)) }
    ensures left { bytes_left input.new ≤ bytes_left input.old }
    ensures reads { CountsReads result input.new.unread input.old.failures input.new.failures }
    ensures output { W.failures answers.new ≡ flush_failures_after (W.failures answers.old) result }
    ensures contents { Keeps (W.contents answers.old) (W.contents answers.new) }
    ensures passed { MayPassOn result
        ((answers.new ≡ answers.old) × (input.new.unread ≡ input.old.unread))
        (W.passed_on answers.new ≡ W.contents answers.new) }
{
    loop {
        let found = input.next_line(answers)?;
        let Some(found) = found else {
            return Ok(false);
        };
        if ends_text(input.line(), found.is_long) {
            return Ok(true);
        }
        held.add(input.line(), found.is_long);
    }
}

/// Reads the text after a `from` line that was found last.
fn take_text<R: Feed, W: Answers>(
    input: &mut Input<R>,
    held: &mut HeldText,
    answers: &mut W,
    too_long: bool,
) -> Result<Item, Stopped>
    ensures item { IfSome (coming_lines input.old) (λ bytes.
        (head : List ℕ) → IsKnown input.old.line too_long head →
        GivesTextItem head bytes result (reading_seen input.new held.new false)) }
    ensures at_once { has_send input.old.pending ≡ true → IsOk result
        × IsAfterFirst has_send input.old.pending input.new.pending
        × (answers.new ≡ answers.old) × (input.new.unread ≡ input.old.unread) }
    ensures early { OnErr result (IfSome (coming_lines input.old)
        (λ bytes. HasRead bytes (Lacks has_send) input.new)) }
    ensures left { bytes_left input.new ≤ bytes_left input.old }
    ensures reads { CountsReads result input.new.unread input.old.failures input.new.failures }
    ensures output { W.failures answers.new ≡ flush_failures_after (W.failures answers.old) result }
    ensures contents { Keeps (W.contents answers.old) (W.contents answers.new) }
    ensures passed { MayPassOn result
        ((answers.new ≡ answers.old) × (input.new.unread ≡ input.old.unread))
        (W.passed_on answers.new ≡ W.contents answers.new) }
{
    held.begin(input.line(), too_long);
    let is_sent = read_text(input, held, answers)?;
    Ok(Item::Text(TextItem {
        is_sent,
        has_long_line: held.has_long_line(),
        is_too_long: held.is_too_long(),
    }))
}

/// Reads the next line that isn't blank.
fn next_line<R: Feed, W: Answers>(
    input: &mut Input<R>,
    answers: &mut W,
) -> Result<Option<Found>, Stopped>
    ensures line { IfSome (coming_lines input.old) (λ bytes. GivesSome bytes result input.new) }
    ensures at_once { has_item input.old.pending ≡ true →
        TakesSome input.old.pending result input.new
        × (answers.new ≡ answers.old) × (input.new.unread ≡ input.old.unread) }
    ensures early { OnErr result (IfSome (coming_lines input.old)
        (λ bytes. HasRead bytes (Lacks has_item) input.new)) }
    ensures left { LeavesLess result (bytes_left input.old) (bytes_left input.new) }
    ensures reads { CountsReads result input.new.unread input.old.failures input.new.failures }
    ensures output { W.failures answers.new ≡ flush_failures_after (W.failures answers.old) result }
    ensures contents { Keeps (W.contents answers.old) (W.contents answers.new) }
    ensures passed { PassesOn result
        ((answers.new ≡ answers.old) × (input.new.unread ≡ input.old.unread))
        (W.passed_on answers.new ≡ W.contents answers.new) }
{
    loop {
        let found = input.next_line(answers)?;
        let Some(found) = found else {
            return Ok(None);
        };
        if !is_blank(found.sort) {
            return Ok(Some(found));
        }
    }
}

/// Reads the next item.
fn next_item<R: Feed, W: Answers>(
    input: &mut Input<R>,
    held: &mut HeldText,
    answers: &mut W,
) -> Result<Option<Item>, Stopped>
    ensures item { IfSome (coming_lines input.old)
        (λ bytes. GivesItem bytes result (reading_seen input.new held.new false)) }
    ensures at_once { has_item input.old.pending ≡ true → GivesOne result
        × IsAfterFirst has_item input.old.pending input.new.pending
        × (answers.new ≡ answers.old) × (input.new.unread ≡ input.old.unread) }
    ensures early { OnErr result (IfSome (coming_lines input.old)
        (λ bytes. HasRead bytes (Lacks has_item) input.new)) }
    ensures left { LeavesLess result (bytes_left input.old) (bytes_left input.new) }
    ensures reads { CountsReads result input.new.unread input.old.failures input.new.failures }
    ensures output { W.failures answers.new ≡ flush_failures_after (W.failures answers.old) result }
    ensures contents { Keeps (W.contents answers.old) (W.contents answers.new) }
    ensures passed { PassesOn result
        ((answers.new ≡ answers.old) × (input.new.unread ≡ input.old.unread))
        (W.passed_on answers.new ≡ W.contents answers.new) }
{
    let found = next_line(input, answers)?;
    let Some(found) = found else {
        return Ok(None);
    };
    if is_from(found.sort) {
        let item = take_text(input, held, answers, found.is_long)?;
        return Ok(Some(item));
    }
    if found.is_long {
        return Ok(Some(Item::LongLine));
    }
    Ok(Some(Item::Line))
}

/// Ends early again, and lets no byte be read any more. The answers are passed on.
fn end_again<R: Feed, W: Answers>(
    input: &mut Input<R>,
    answers: &mut W,
) -> Result<Option<Item>, Stopped>
    ensures ends { IsErr result }
    ensures input { input.new ≡ record input.old { unread = 0 } }
    ensures output { W.failures answers.new ≡ flush_failures_after (W.failures answers.old) result }
    ensures contents { Keeps (W.contents answers.old) (W.contents answers.new) }
    ensures passed { HasPassedOn result (W.passed_on answers.new ≡ W.contents answers.new) }
{
    input.close();
    let Ok(()) = answers.flush() else {
        return Err(Stopped::Output);
    };
    Err(Stopped::Input)
}

impl<R: Feed> InputItems<R> {
    /// Returns the items of a device, of which nothing was read.
    ///
    /// # Errors
    /// If memory for a line, or for the longest text, is refused.
    pub fn new(alloc: Global, reader: R) -> Result<Self, AllocError>
    where
        R: Drop,
        ensures coming { IfOk result (λ items. items.coming ≡ R.remaining reader) }
        ensures pending { IfOk result (λ items. items.pending ≡ []) }
        ensures unread { IfOk result (λ items. items.unread ≡ usize.MAX) }
        ensures left { IfOk result (λ items. items.left ≡ usize.MAX) }
        ensures failures { IfOk result (λ items. items.failures ≡ R.failures reader) }
        ensures has_stopped { IfOk result (λ items. items.has_stopped ≡ false) }
    {
        Ok(InputItems {
            input: Input::new(alloc, reader)?,
            held: HeldText::new(alloc)?,
            has_stopped: false,
        })
    }

    /// Returns the line of the last item, if that is a line.
    pub fn line(&self) -> &[u8]
        ensures line { result.now ≡ self.now.line }
        ensures short { length result.now ≤ line_limit }
    {
        self.input.line()
    }

    /// Returns the `from` line of the last item, if that is a text whose `from` line is held.
    pub fn from_line(&self) -> &[u8]
        ensures line { result.now ≡ self.now.from_line }
        ensures short { length result.now ≤ line_limit }
    {
        self.held.from_line()
    }

    /// Returns the text of the last item, if that is a text that is held. Each of its lines has a
    /// line feed.
    pub fn text(&self) -> &[u8]
        ensures text { result.now ≡ self.now.text }
        ensures short { length result.now ≤ text_limit }
    {
        self.held.bytes()
    }

    /// Reads the next item, or returns `None` at the end of the input. It reads only while no item
    /// lies whole in what it has, and before each read of the device the answers are passed on.
    ///
    /// # Errors
    /// - `Input`: a read failed, or 2^64 - 1 bytes were read.
    /// - `Output`: the answers could not be passed on.
    ///
    /// After an error what was read is lost. Each later call fails too, and reads nothing.
    pub fn next<W: Answers>(&mut self, answers: &mut W) -> Result<Option<Item>, Stopped>
        // Where the bytes of the input are known, the items are those of its lines, in order.
        ensures item { IfSome self.old.coming (λ bytes. GivesItem bytes result self.new) }
        // An item that lies whole in what was read is given at once: nothing is read, and no answer
        // is passed on.
        ensures at_once { has_item self.old.pending ≡ true →
            IsAtOnce result self.old self.new × (answers.new ≡ answers.old) }
        // What fails, a read or the passing on, came while no item lay whole in what was read.
        ensures early { OnErr result (IfSome self.old.coming (λ bytes. EndsEarly bytes self.new)) }
        ensures stops { Stops result self.old self.new }
        ensures stays { self.old.has_stopped ≡ true → (self.new.coming ≡ self.old.coming)
            × (self.new.failures ≡ self.old.failures) }
        ensures pends { Pends self.new }
        ensures left { LeavesLess result self.old.left self.new.left }
        ensures reads { CountsReads result self.new.unread self.old.failures self.new.failures }
        ensures output { W.failures answers.new
            ≡ flush_failures_after (W.failures answers.old) result }
        ensures contents { Keeps (W.contents answers.old) (W.contents answers.new) }
        ensures passed { PassesOn result
            ((answers.new ≡ answers.old) × (self.new.unread ≡ self.old.unread))
            (W.passed_on answers.new ≡ W.contents answers.new) }
    {
        if self.has_stopped {
            return end_again(&mut self.input, answers);
        }
        match next_item(&mut self.input, &mut self.held, answers) {
            Ok(item) => Ok(item),
            Err(stopped) => {
                self.has_stopped = true;
                self.input.drop_pending();
                Err(stopped)
            }
        }
    }
}
