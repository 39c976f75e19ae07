//! A capture of a merge, with its head.

ghost use Rattle.std.specs.Prelude.{◌≡◌, ◌≤◌, ◌⊎◌, ℕ, List, length, None, Some, Err, IfOk, IfErr};
ghost use Rattle.std.specs.Prelude.{true, false, [], ◌∷◌};
ghost use Rattle.std.specs.Prelude.{IsSome};
ghost use Rattle.std.specs.Option.{option_map, IfSome};
ghost use Rattle.pim_capture.specs.Capture.{answers, most_captured, most_records, Answer};
ghost use Rattle.pim_capture.specs.Next.{event_seen, PayloadLiesIn, IsBy, latest_moment, IsRefusal};
ghost use Rattle.pim_capture.specs.Next.{CountsReads};
ghost use Rattle.pim_capture.specs.Next.{OnMemory, length_in};
ghost use Rattle.pim_capture.specs.declared.capture.CaptureState.TheVariants.{Unbegun};
ghost use Rattle.pim_merge.specs.Lane.{coming_on, without_head, IsLooked, head_time, lane_left};
ghost use Rattle.pim_merge.specs.Lane.{LacksHeadRoom, KeepsRoom, HadAll, HasFailed};
ghost use Rattle.pim_merge.specs.Lane.{IsFailedHead, head_rank, with_census};
ghost use Rattle.pim_merge.specs.Source.{begun_store, first_held};
ghost use Rattle.pim_container.specs.Room.{needs_in};
ghost use Rattle.pim_container.specs.declared.reader.ReaderState.TheVariants as any;
ghost use Rattle.pim_merge.specs.Merge.{event_time, time_by, unchosen_rank, skipped_rank};
ghost use Rattle.pim_merge.specs.Merge.{past_at};
ghost use Rattle.pim_merge.specs.Chosen.{answers_by, answers_of_files, all_known, all_failures};
ghost use Rattle.pim_merge.specs.Looks.{StillComes, IsReadOrRefused};
ghost use Rattle.pim_merge.specs.Tally.{no_tally, next_place};

use crate::chosen::Chosen;
use crate::clock::Clock;
use crate::source::Source;
use crate::tally::{Tally, count_head};
use pim_addr::{Family, Feed};
use pim_capture::{Capture, CaptureFault, Event, RecordPlace, Why};
use pim_container::Choice;
use pim_time::Time;
use std::alloc::Global;
use std::marker::Model;

/// A capture with its head, the record that is taken next. Contracts see what it has still to
/// return.
#[derive(Drop)]
pub(crate) struct Lane<R: Feed + Drop> {
    source: Source<R>,
    /// The head, if it was read.
    head: Option<Event>,
    /// The bytes of the record that was read last.
    buffer: Vec<u8>,
    /// What was taken.
    tally: Tally,
}

impl<R: Feed + Drop> Model for Lane<R> {
    ghost use Rattle.pim_merge.specs.Lane.{LaneState, lane_seen};

    ghost Value = { LaneState };

    ghost use Rattle.std.specs.Prelude.{vec_capacity};

    ghost view = { λ lane. lane_seen R.remaining R.failures lane.source lane.head lane.buffer.items
        (vec_capacity lane.buffer) lane.tally };

    ghost use Rattle.std.specs.Prelude.{◌≤◌, vec_len};
    ghost use Rattle.std.specs.Option.{IfSome};
    ghost use Rattle.pim_capture.specs.Capture.{most_captured};
    ghost use Rattle.pim_capture.specs.Next.{PayloadLiesIn, IsBy, latest_moment};

    ghost invariant = { λ lane. (vec_len lane.buffer ≤ most_captured)
        × IfSome lane.head (PayloadLiesIn lane.buffer.items)
        × IfSome lane.head (IsBy latest_moment) };
}

/// The time of a record that is skipped for this reason. One that isn't chosen has none, so that a
/// run over chosen records begins and ends with these.
fn time_by(why: Why, millis: u64) -> Option<u64>
    ensures { result ≡ time_by why millis }
{
    match why {
        Why::NoTime | Why::NotChosen(_) | Why::Copy | Why::CutShort => None,
        Why::NextFile | Why::OfLink(_) | Why::Incomplete(_) => None,
        _ => Some(millis),
    }
}

/// The rank of a record that isn't chosen, in a merge with this clock that ends at the time `last`.
fn unchosen_rank(millis: u64, last: Option<Time>, clock: Option<Clock>) -> Option<u64>
    ensures { result ≡ unchosen_rank (past_at last clock) millis }
{
    if Clock::by(clock, millis).is_past(last) {
        return None;
    }
    Some(0)
}

/// The rank of a record that is skipped for this reason.
fn skipped_rank(why: Why, millis: u64, last: Option<Time>, clock: Option<Clock>) -> Option<u64>
    requires { millis ≤ latest_moment }
    ensures { result ≡ skipped_rank (past_at last clock) why millis }
{
    match why {
        Why::NotChosen(_) | Why::Copy => unchosen_rank(millis, last, clock),
        _ => Some(millis + 1),
    }
}

/// The time of a record in milliseconds since 1970. The end, and a record without a time, have
/// none.
pub(crate) fn time_of(event: &Event) -> Option<u64>
    ensures { (bytes : List ℕ) → result ≡ event_time (event_seen bytes event.now) }
{
    match event {
        Event::Packet { millis, .. } => Some(*millis),
        Event::Skipped { millis, why } => time_by(*why, *millis),
        Event::End => None,
    }
}

impl<R: Feed + Drop> Lane<R> {
    /// The capture of a reader, of which nothing was read.
    pub(crate) fn new(alloc: Global, reader: R) -> Self
        ensures head { result.head ≡ None }
        ensures coming { result.behind ≡ option_map answers (R.remaining reader) }
        ensures failures { result.failures ≡ R.failures reader }
        ensures left { result.left ≡ most_records }
        ensures passes { result.passes ≡ false }
        ensures room { result.room ≡ 0 }
        ensures size { result.size ≡ option_map (length_in Unbegun) (R.remaining reader) }
        ensures store { result.store ≡ begun_store (Some []) (Some false) }
        ensures tally { result.tally ≡ no_tally }
    {
        Lane {
            source: Source::Classic(Capture::new(reader)),
            head: None,
            buffer: Vec::new(alloc),
            tally: Tally::new(),
        }
    }

    /// Any container of a reader, of which nothing was read, with a choice of its packets.
    pub(crate) fn of_any(alloc: Global, reader: R, choice: Choice) -> Self
        ensures head { result.head ≡ None }
        ensures coming { result.behind ≡ option_map (answers_by choice) (R.remaining reader) }
        ensures failures { result.failures ≡ R.failures reader }
        ensures passes { result.passes ≡ true }
        ensures room { result.room ≡ 0 }
        ensures size { result.size ≡ None }
        ensures store { result.store
            ≡ begun_store (option_map (needs_in any.Unbegun 0 []) (R.remaining reader))
            (first_held choice (R.remaining reader)) }
        ensures tally { result.tally ≡ no_tally }
    {
        Lane::of_files(alloc, reader, Vec::new(alloc), choice)
    }

    /// Any container of a reader and of those after it, of which nothing was read, with a choice of
    /// its packets.
    pub(crate) fn of_files(alloc: Global, reader: R, others: Vec<R>, choice: Choice) -> Self
        ensures head { result.head ≡ None }
        ensures coming { result.behind ≡ option_map (answers_of_files choice)
            (all_known R.remaining (reader ∷ others.items)) }
        ensures failures { result.failures ≡ all_failures R.failures (reader ∷ others.items) }
        ensures passes { result.passes ≡ true }
        ensures room { result.room ≡ 0 }
        ensures size { result.size ≡ None }
        ensures store { result.store
            ≡ begun_store (option_map (needs_in any.Unbegun 0 []) (R.remaining reader))
            (first_held choice (R.remaining reader)) }
        ensures tally { result.tally ≡ no_tally }
    {
        Lane {
            source: Source::Any(Chosen::new(alloc, reader, others, choice)),
            head: None,
            buffer: Vec::new(alloc),
            tally: Tally::new(),
        }
    }

    /// Reads the head, if it wasn't read.
    ///
    /// # Errors
    /// The fault that the capture returns in its place. Then there is no head, and later calls
    /// return `Failed`.
    pub(crate) fn look(&mut self) -> Result<(), CaptureFault>
        ensures coming { IfOk result (λ _. StillComes self.old self.new) }
        ensures looked { IfOk result (λ _. IsLooked self.new) }
        ensures fault { IfErr result (IsReadOrRefused self.old self.new) }
        ensures left { lane_left self.new ≤ lane_left self.old }
        ensures reads { CountsReads (HadAll self.old) self.old.failures self.new.failures result }
        ensures memory { OnMemory result (LacksHeadRoom self.old) }
        ensures room { KeepsRoom self.old self.new }
        ensures over { IfErr result (λ _. HasFailed self.new) }
        ensures repeated { HasFailed self.old → IsFailedHead result }
        ensures unlooked { IfErr result (λ _. self.old.head ≡ None) }
        ensures tally { self.new.tally ≡ self.old.tally }
    {
        if self.head.is_some() {
            return Ok(());
        }
        let event = self.source.next(&mut self.buffer)?;
        self.head = Some(event);
        Ok(())
    }

    /// The rank by which the head is taken, in a merge with this clock that ends at the time
    /// `last`, if there is one; `None` if it isn't taken, at the end, and if no head was read.
    pub(crate) fn rank(&self, last: Option<Time>, clock: Option<Clock>) -> Option<u64>
        ensures { result ≡ head_rank (past_at last clock) self.now }
    {
        match &self.head {
            Some(Event::Packet { millis, .. }) => Some(*millis + 1),
            Some(Event::Skipped { millis, why }) => skipped_rank(*why, *millis, last, clock),
            _ => None,
        }
    }

    /// The time of the head, in milliseconds since 1970; `None` if it has none, at the end, and if
    /// no head was read.
    pub(crate) fn time(&self) -> Option<u64>
        ensures { result ≡ head_time self.now }
    {
        match &self.head {
            Some(event) => time_of(event),
            None => None,
        }
    }

    /// Begins a census of messages of the family, for a router with this address.
    pub(crate) fn begin_census<F: Family>(&mut self, own: F::Addr)
        ensures { self.new ≡ with_census F.family (F.bytes_of own) self.old }
    {
        self.tally.begin_census::<F>(own);
    }

    /// What was taken of the capture.
    pub(crate) fn tally(&self) -> Tally
        ensures { result ≡ self.now.tally }
    {
        self.tally
    }

    /// The place of the record that is taken next.
    pub(crate) fn next_place(&self) -> RecordPlace
        ensures { result ≡ next_place self.now.tally }
    {
        self.tally.next_place()
    }

    /// Takes the head, if it was read. The reader can then count a record.
    pub(crate) fn take(&mut self) -> Option<Event>
        ensures head { option_map (event_seen self.new.bytes) result ≡ self.old.head }
        ensures rest { self.new ≡ without_head self.old }
        ensures payload { IfSome result (PayloadLiesIn self.new.bytes) }
        ensures moment { IfSome result (IsBy latest_moment) }
    {
        count_head(&mut self.tally, &self.head, &self.buffer);
        let event = self.head.take();
        if event.is_some() {
            self.source.pass_record();
        }
        event
    }

    /// The bytes of the record that was read last.
    pub(crate) fn bytes(&self) -> &[u8]
        ensures bytes { result.now ≡ self.now.bytes }
        ensures length { length result.now ≤ most_captured }
    {
        self.buffer.as_slice()
    }
}
