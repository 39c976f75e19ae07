//! The lines of a device, one by one, in a buffer of one size.
//!
//! The buffer has room for the longest line with its line feed. Each byte is searched once, and
//! each line is moved at most once, however few bytes the device gives in a read.

ghost use Rattle.std.specs.Prelude.{◌≡◌, ◌<◌, ◌≤◌, ◌+◌, ◌-◌, ◌⊎◌, ℕ, List, [], length, take, drop};
ghost use Rattle.std.specs.Prelude.{IfOk, OnOk, OnErr, IfSome, vec_len};
ghost use Rattle.std.specs.Prelude.{MatchOption, ◌==◌};
ghost use Rattle.std.specs.List.{position};
ghost use Rattle.std.specs.Io.KnownBytes.{Keeps, Consumes, IsAtEnd};
ghost use Rattle.pim_device.specs.Device.{failures_after};
ghost use Rattle.pim_request.specs.Items.{line_limit, is_long};
ghost use Rattle.pim_request.specs.Reading.{CountsReads, flush_failures_after, LeavesLess};
ghost use Rattle.pim_request.specs.Reading.{MayPassOn};
ghost use Rattle.pim_request.specs.Reading.{PassesOn};
ghost use Rattle.pim_request.specs.Input.{room, coming_lines, bytes_left, sort_seen, IsFeedAt};
ghost use Rattle.pim_request.specs.Input.{NoFeed, GivesMore, IsReached};
ghost use Rattle.pim_request.specs.Input.{HasPassedOn, StillCome, IsPassed, GivesLine};
ghost use Rattle.pim_request.specs.Input.{HasRead, GivesPlace, TakesLine};

use crate::answers::Answers;
use crate::sort::{Sort, sort_of};
use pim_addr::{Failed, Feed};
use std::alloc::{AllocError, Global};
use std::marker::Model;

/// The length of the buffer: the longest line, 1,048,576 bytes, and its line feed.
const ROOM: usize = 1_048_577;

/// Why the lines end early.
#[derive(Clone, Copy, Debug, PartialEq, Eq)]
pub enum Stopped {
    /// A read failed, or 2^64 - 1 bytes were read.
    Input,
    /// The answers could not be passed on.
    Output,
}

/// A line that was found.
#[derive(Clone, Copy, Debug, PartialEq, Eq)]
pub struct Found {
    /// What it is by its front.
    pub sort: Sort,
    /// Whether it has more than 1,048,576 bytes.
    pub is_long: bool,
}

/// The lines of a device.
#[derive(Drop)]
pub struct Input<R: Feed> {
    reader: R,
    buffer: Vec<u8>,
    /// The place of the line that was found last.
    line_start: usize,
    /// Its length.
    line_length: usize,
    /// The place of the bytes that were read and belong to no line so far.
    start: usize,
    /// The place after them.
    end: usize,
    /// How many of them, from the first on, are known not to be a line feed.
    searched: usize,
    /// The number of bytes that may still be read.
    unread: usize,
}

impl<R: Feed> Model for Input<R> {
    ghost use Rattle.std.specs.Prelude.{take, drop, ◌-◌};
    ghost use Rattle.pim_request.specs.Input.{Lines, IsSound};

    ghost Value = { Lines };

    ghost view = { λ input. record {
      line = take input.line_length (drop input.line_start input.buffer.items);
      pending = take (input.end - input.start) (drop input.start input.buffer.items);
      remaining = R.remaining input.reader;
      unread = input.unread;
      failures = R.failures input.reader;
    } };

    ghost invariant = { λ input. IsSound input.buffer.items input.line_start input.line_length
        input.start input.end input.searched };
}

/// Returns a buffer of `length` zero bytes.
fn blank(alloc: Global, length: usize) -> Result<Vec<u8>, AllocError>
    ensures { IfOk result (λ buffer. vec_len buffer ≡ length) }
{
    vec![in alloc; 0u8; length]
}

/// Returns the place of the first line feed, if any.
fn first_feed(bytes: &[u8]) -> Option<usize>
    ensures { result ≡ position (λ byte. byte == 10) bytes.now }
{
    bytes.iter().position(|byte| *byte == b'\n')
}

/// Returns the bytes from a place on, of this number.
fn part(bytes: &[u8], start: usize, count: usize) -> &[u8]
    requires { start + count ≤ length bytes.now }
    ensures { result.now ≡ take count (drop start bytes.now) }
{
    let (_, from) = bytes.split_at(start);
    let (part, _) = from.split_at(count);
    part
}

/// Moves the bytes between two places to the front, unless they are some and there is room after
/// them. Returns the place where they begin then.
fn make_room(buffer: &mut Vec<u8>, start: usize, end: usize) -> usize
    requires order { start ≤ end }
    requires within { end ≤ length buffer.old.items }
    requires less { end - start < length buffer.old.items }
    ensures bytes { take (end - start) (drop result buffer.new.items)
        ≡ take (end - start) (drop start buffer.old.items) }
    ensures room { result + (end - start) < length buffer.new.items }
    ensures length { length buffer.new.items ≡ length buffer.old.items }
{
    if start < end && end < buffer.len() {
        return start;
    }
    buffer.as_mut_slice().copy_within(start..end, 0);
    0
}

/// Reads at most `most` bytes to the front of the buffer, and returns their number.
fn read_front<R: Feed>(reader: &mut R, buffer: &mut [u8], most: usize) -> Result<usize, Failed>
    ensures bound { IfOk result (λ count. (count ≤ length buffer.new) × (count ≤ most)) }
    ensures bytes { IfOk result (λ count.
        Consumes (R.remaining reader.old) (R.remaining reader.new) (take count buffer.new)) }
    ensures at_end { IfOk result (λ count.
        count ≡ 0 → 0 < most → 0 < length buffer.new → IsAtEnd (R.remaining reader.new)) }
    ensures kept { OnErr result (Keeps (R.remaining reader.old) (R.remaining reader.new)) }
    ensures count { R.failures reader.new ≡ failures_after (R.failures reader.old) result }
{
    let room = buffer.len().min(most);
    let (room, _) = buffer.split_at_mut(room);
    reader.read(room)
}

/// Reads at most `most` bytes to this place of the buffer, and returns their number.
fn read_at<R: Feed>(
    reader: &mut R,
    buffer: &mut Vec<u8>,
    at: usize,
    most: usize,
) -> Result<usize, Failed>
    requires within { at < length buffer.old.items }
    ensures bound { IfOk result (λ count. (at + count ≤ length buffer.new.items) × (count ≤ most)) }
    ensures kept { take at buffer.new.items ≡ take at buffer.old.items }
    ensures length { length buffer.new.items ≡ length buffer.old.items }
    ensures bytes { IfOk result (λ count.
        Consumes (R.remaining reader.old) (R.remaining reader.new)
        (take count (drop at buffer.new.items))) }
    ensures at_end { IfOk result (λ count.
        count ≡ 0 → 0 < most → IsAtEnd (R.remaining reader.new)) }
    ensures same { OnErr result (Keeps (R.remaining reader.old) (R.remaining reader.new)) }
    ensures count { R.failures reader.new ≡ failures_after (R.failures reader.old) result }
{
    let (_, free) = buffer.as_mut_slice().split_at_mut(at);
    read_front(reader, free, most)
}

impl<R: Feed> Input<R> {
    /// Returns the lines of a device, of which nothing was read.
    pub fn new(alloc: Global, reader: R) -> Result<Self, AllocError>
    where
        R: Drop,
        ensures pending { IfOk result (λ lines. lines.pending ≡ []) }
        ensures remaining { IfOk result (λ lines. lines.remaining ≡ R.remaining reader) }
        ensures unread { IfOk result (λ lines. lines.unread ≡ usize.MAX) }
        ensures failures { IfOk result (λ lines. lines.failures ≡ R.failures reader) }
    {
        Ok(Input {
            reader,
            buffer: blank(alloc, ROOM)?,
            line_start: 0,
            line_length: 0,
            start: 0,
            end: 0,
            searched: 0,
            unread: usize::MAX,
        })
    }

    /// Returns the line that was found last, if it isn't too long.
    pub fn line(&self) -> &[u8]
        ensures line { result.now ≡ self.now.line }
        ensures short { length result.now ≤ line_limit }
    {
        part(&self.buffer, self.line_start, self.line_length)
    }

    /// Returns the bytes that belong to no line so far.
    fn pending(&self) -> &[u8]
        ensures bytes { result.now ≡ self.now.pending }
        ensures within { length result.now ≤ room }
    {
        part(&self.buffer, self.start, self.end - self.start)
    }

    /// Passes over this many bytes.
    fn pass(&mut self, count: usize)
        requires { count ≤ length self.old.pending }
        ensures { self.new ≡ record self.old { pending = drop count self.old.pending } }
    {
        self.start += count;
        self.searched = 0;
    }

    /// Makes the next bytes, of this number, the line that was found last.
    fn name_line(&mut self, count: usize)
        requires within { count ≤ length self.old.pending }
        requires short { count ≤ line_limit }
        ensures { self.new ≡ record self.old { line = take count self.old.pending } }
    {
        self.line_start = self.start;
        self.line_length = count;
    }

    /// Returns the number of bytes before the first line feed, if there is one.
    fn find_feed(&mut self) -> Option<usize>
        ensures same { self.new ≡ self.old }
        ensures found { MatchOption result (NoFeed self.old.pending)
            (λ place. IsFeedAt place self.old.pending) }
    {
        let count = self.end - self.start;
        let begin = self.start + self.searched;
        let new = part(&self.buffer, begin, self.end - begin);
        let Some(place) = first_feed(new) else {
            self.searched = count;
            return None;
        };
        Some(self.searched + place)
    }

    /// Reads some bytes more, after the answers are passed on. Returns their number, 0 at the end
    /// of the device.
    fn fill<W: Answers>(&mut self, answers: &mut W) -> Result<usize, Stopped>
        requires { length self.old.pending ≤ line_limit }
        ensures more { IfOk result (λ count. GivesMore count self.old self.new) }
        ensures early { OnErr result ((self.new.pending ≡ self.old.pending)
            × Keeps self.old.remaining self.new.remaining) }
        ensures left { bytes_left self.new ≡ bytes_left self.old }
        ensures reads { CountsReads result self.new.unread self.old.failures self.new.failures }
        ensures output { W.failures answers.new
            ≡ flush_failures_after (W.failures answers.old) result }
        ensures contents { Keeps (W.contents answers.old) (W.contents answers.new) }
        ensures passed { HasPassedOn result (W.passed_on answers.new ≡ W.contents answers.new) }
    {
        let Ok(()) = answers.flush() else {
            return Err(Stopped::Output);
        };
        if self.unread == 0 {
            return Err(Stopped::Input);
        }
        let count = self.end - self.start;
        self.start = make_room(&mut self.buffer, self.start, self.end);
        self.end = self.start + count;
        let read = read_at(&mut self.reader, &mut self.buffer, self.end, self.unread);
        let Ok(more) = read else {
            return Err(Stopped::Input);
        };
        self.end += more;
        self.unread -= more;
        Ok(more)
    }

    /// Reads until there is a line feed, and returns the number of bytes before it. `None`: there
    /// is none, and the buffer is full or the device is at its end.
    fn reach_feed<W: Answers>(&mut self, answers: &mut W) -> Result<Option<usize>, Stopped>
        ensures reached { IfOk result (λ place.
            IsReached place self.new (W.passed_on answers.new ≡ W.contents answers.new)) }
        ensures coming { OnOk result (StillCome self.old self.new) }
        ensures at_once { ¬ NoFeed self.old.pending →
            GivesPlace result × (self.new ≡ self.old) × (answers.new ≡ answers.old) }
        ensures early { OnErr result (IfSome (coming_lines self.old)
            (λ bytes. HasRead bytes NoFeed self.new)) }
        ensures left { bytes_left self.new ≡ bytes_left self.old }
        ensures reads { CountsReads result self.new.unread self.old.failures self.new.failures }
        ensures output { W.failures answers.new
            ≡ flush_failures_after (W.failures answers.old) result }
        ensures contents { Keeps (W.contents answers.old) (W.contents answers.new) }
        ensures passed { MayPassOn result
            ((answers.new ≡ answers.old) × (self.new.unread ≡ self.old.unread))
            (W.passed_on answers.new ≡ W.contents answers.new) }
    {
        'reads: loop {
            if let Some(place) = self.find_feed() {
                return Ok(Some(place));
            }
            if self.pending().len() == ROOM {
                return Ok(None);
            }
            if self.fill(answers)? == 0 {
                return Ok(None);
            }
        }
    }

    /// Passes over a line that has no line feed so far, and over its line feed.
    fn pass_line<W: Answers>(&mut self, answers: &mut W) -> Result<(), Stopped>
        ensures passed_over { OnOk result (IfSome self.old.remaining
            (λ bytes. IsPassed bytes self.new)) }
        ensures early { OnErr result (IfSome self.old.remaining
            (λ bytes. HasRead bytes NoFeed self.new)) }
        ensures left { bytes_left self.new ≤ self.old.unread }
        ensures reads { CountsReads result self.new.unread self.old.failures self.new.failures }
        ensures output { W.failures answers.new
            ≡ flush_failures_after (W.failures answers.old) result }
        ensures contents { Keeps (W.contents answers.old) (W.contents answers.new) }
        ensures passed { HasPassedOn result (W.passed_on answers.new ≡ W.contents answers.new) }
    {
        loop {
            self.pass(self.pending().len());
            if self.fill(answers)? == 0 {
                return Ok(());
            }
            if let Some(place) = self.find_feed() {
                self.pass(place + 1);
                return Ok(());
            }
        }
    }

    /// Passes over all bytes that were read.
    pub fn drop_pending(&mut self)
        ensures { self.new ≡ record self.old { pending = [] } }
    {
        self.pass(self.pending().len());
    }

    /// Lets no byte be read any more.
    pub fn close(&mut self)
        ensures { self.new ≡ record self.old { unread = 0 } }
    {
        self.unread = 0;
    }

    /// Finds the next line, or `None` at the end of the device. A line that is too long is passed
    /// over.
    pub fn next_line<W: Answers>(&mut self, answers: &mut W) -> Result<Option<Found>, Stopped>
        ensures line { IfSome (coming_lines self.old) (λ bytes. GivesLine bytes result self.new) }
        ensures at_once { ¬ NoFeed self.old.pending → TakesLine self.old.pending result self.new
            × (answers.new ≡ answers.old) × (self.new.unread ≡ self.old.unread) }
        ensures early { OnErr result (IfSome (coming_lines self.old)
            (λ bytes. HasRead bytes NoFeed self.new)) }
        ensures left { LeavesLess result (bytes_left self.old) (bytes_left self.new) }
        ensures reads { CountsReads result self.new.unread self.old.failures self.new.failures }
        ensures output { W.failures answers.new
            ≡ flush_failures_after (W.failures answers.old) result }
        ensures contents { Keeps (W.contents answers.old) (W.contents answers.new) }
        ensures passed { PassesOn result
            ((answers.new ≡ answers.old) × (self.new.unread ≡ self.old.unread))
            (W.passed_on answers.new ≡ W.contents answers.new) }
    {
        let reached = self.reach_feed(answers)?;
        let count = self.pending().len();
        if let Some(place) = reached {
            self.name_line(place);
            self.pass(place + 1);
            return Ok(Some(self.found()));
        }
        if count == 0 {
            return Ok(None);
        }
        if count < ROOM {
            self.name_line(count);
            self.pass(count);
            return Ok(Some(self.found()));
        }
        let sort = sort_of(self.pending());
        self.pass_line(answers)?;
        Ok(Some(Found {
            sort,
            is_long: true,
        }))
    }

    /// Returns the line that was found last, as one that isn't too long.
    fn found(&self) -> Found
        ensures sort { result.sort ≡ sort_seen self.now.line }
        ensures is_long { result.is_long ≡ is_long self.now.line }
    {
        Found {
            sort: sort_of(self.line()),
            is_long: false,
        }
    }
}
