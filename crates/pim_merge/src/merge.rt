//! The merge of captures.

ghost use Rattle.std.specs.Prelude.{◌≡◌, ◌<◌, ◌≤◌, ℕ, [], ◌∷◌, ◌++◌, List, length, map, None};
ghost use Rattle.std.specs.Prelude.{Some};
ghost use Rattle.std.specs.Prelude.{IfOk, IfErr, OnErr};
ghost use Rattle.std.specs.Prelude.{false};
ghost use Rattle.std.specs.Prelude.{slice_set, vec_len};
ghost use Rattle.std.specs.Option.{option_map, IfSome};
ghost use Rattle.std.specs.List.{AllByRecursion};
ghost use Rattle.pim_capture.specs.Capture.{answers, most_captured, most_records, Answer};
ghost use Rattle.pim_capture.specs.Next.{latest_moment, event_seen, PayloadLiesIn, IsBy, length_in};
ghost use Rattle.pim_capture.specs.declared.capture.CaptureState.TheVariants.{Unbegun};
ghost use Rattle.pim_time.specs.Text.{millis_of};
ghost use Rattle.pim_merge.specs.Merge.{turn, fails, earliest_from, clock_after, is_past};
ghost use Rattle.pim_merge.specs.Merge.{moment_of, moment_at, event_time};
ghost use Rattle.pim_merge.specs.Lane.{IsComing, IsLooked, coming_on, failures_of, records_to_come};
ghost use Rattle.pim_merge.specs.Lane.{head_time, head_rank, lane_at};
ghost use Rattle.pim_merge.specs.Lane.{without_head, rooms_of, sizes_of, KeepRooms, FailsAt};
ghost use Rattle.pim_merge.specs.Next.{GivesTurn, IsCause, CountsFailures, KeepsTime, IfTaken};
ghost use Rattle.pim_merge.specs.Next.{HoldsRecord, turns_left};
ghost use Rattle.pim_merge.specs.Next.{GivesTurnBy, IsFailed};
ghost use Rattle.pim_merge.specs.Next.{bytes_at, with_fault, LacksMemory};
ghost use Rattle.pim_merge.specs.Next.{KeepsTallies, IsNumbered};
ghost use Rattle.pim_merge.specs.Chosen.{answers_by, answers_of_files, all_known, all_failures};
ghost use Rattle.pim_merge.specs.Lane.{tallies_of, stores_of, census_at};
ghost use Rattle.pim_merge.specs.Source.{begun_store, first_held};
ghost use Rattle.pim_container.specs.Room.{needs_in};
ghost use Rattle.pim_container.specs.declared.reader.ReaderState.TheVariants as any;
ghost use Rattle.pim_merge.specs.Tally.{no_tally, tally_at};
ghost use Rattle.pim_merge.specs.Merge.{past_at};

use crate::clock::{Clock, moment_at, moment_of};
use crate::lane::{Lane, time_of};
use crate::search::{earliest, look_at_all};
use crate::tally::Tally;
use pim_addr::{Family, Feed};
use pim_capture::{CaptureFault, Event};
use pim_container::Choice;
use pim_time::Time;
use std::alloc::{AllocError, Global};
use std::marker::Model;
use thiserror::Error;

/// The fault that ends a merge.
#[derive(Clone, Copy, Debug, PartialEq, Eq, Error)]
#[error("{fault} in capture {capture}")]
pub struct MergeFault {
    /// The number of the capture, counted from 0.
    pub capture: usize,
    /// The number of the file in which it failed, counted from 0.
    pub file: u64,
    /// The number of the record of this file at which it failed, counted from 1.
    pub record: u64,
    /// The fault that the capture has in place of its head.
    pub fault: CaptureFault,
}

/// A record that is taken.
#[derive(Clone, Debug, PartialEq, Eq, Drop)]
pub struct Turn {
    /// The number of its capture, counted from 0.
    pub capture: usize,
    /// Its moment, in milliseconds since the first record that was taken.
    pub moment: u64,
    /// What it holds; never `End`. `Merge::bytes` returns its bytes until the next turn.
    pub event: Event,
}

impl Turn {
    /// The time of its record, in milliseconds since 1970; `None` if it has none.
    pub fn time(&self) -> Option<u64>
        ensures { (bytes : List ℕ) → result ≡ event_time (event_seen bytes self.now.event) }
    {
        time_of(&self.event)
    }
}

/// Captures that are merged by the times of their records. Contracts see what each has still to
/// return, and the clock.
#[derive(Drop)]
pub struct Merge<R: Feed + Drop> {
    lanes: Vec<Lane<R>>,
    /// The clock of the records that were taken; `None` before the first.
    clock: Option<Clock>,
}

impl<R: Feed + Drop> Model for Merge<R> {
    ghost use Rattle.pim_merge.specs.Next.{MergeState};

    ghost Value = { MergeState };

    ghost view = { λ merge. record { lanes = merge.lanes.items; clock = merge.clock } };

    ghost use Rattle.std.specs.Prelude.{◌≤◌};
    ghost use Rattle.pim_capture.specs.Next.{latest_moment};
    ghost use Rattle.pim_merge.specs.Merge.{moment_of};

    ghost invariant = { λ merge. moment_of merge.clock ≤ latest_moment };
}

impl<R: Feed + Drop> Merge<R> {
    /// The merge of no captures.
    pub fn new(alloc: Global) -> Self
        ensures lanes { result.lanes ≡ [] }
        ensures clock { result.clock ≡ None }
    {
        Merge {
            lanes: Vec::new(alloc),
            clock: None,
        }
    }

    /// Appends the capture of a reader. Nothing of it is read.
    ///
    /// # Errors
    /// If memory is refused. Then nothing changes.
    pub fn add(&mut self, alloc: Global, reader: R) -> Result<(), AllocError>
        ensures coming { IfOk result (λ _. map coming_on self.new.lanes ≡
            map coming_on self.old.lanes ++ option_map answers (R.remaining reader) ∷ []) }
        ensures failures { IfOk result (λ _. failures_of self.new.lanes ≡
            failures_of self.old.lanes ++ R.failures reader ∷ []) }
        ensures rooms { IfOk result (λ _. rooms_of self.new.lanes ≡
            rooms_of self.old.lanes ++ 0 ∷ []) }
        ensures sizes { IfOk result (λ _. sizes_of self.new.lanes ≡
            sizes_of self.old.lanes ++ option_map (length_in Unbegun) (R.remaining reader) ∷ []) }
        ensures stores { IfOk result (λ _. stores_of self.new.lanes ≡
            stores_of self.old.lanes ++ begun_store (Some []) (Some false) ∷ []) }
        ensures tallies { IfOk result (λ _. tallies_of self.new.lanes ≡
            tallies_of self.old.lanes ++ no_tally ∷ []) }
        ensures clock { self.new.clock ≡ self.old.clock }
        ensures unchanged { OnErr result (self.new ≡ self.old) }
    {
        self.lanes.push(Lane::new(alloc, reader))?;
        Ok(())
    }

    /// Appends any container of a reader, with a choice of its packets. Nothing of it is read.
    ///
    /// # Errors
    /// If memory is refused. Then nothing changes.
    pub fn add_any(&mut self, alloc: Global, reader: R, choice: Choice) -> Result<(), AllocError>
        ensures coming { IfOk result (λ _. map coming_on self.new.lanes ≡
            map coming_on self.old.lanes
            ++ option_map (answers_by choice) (R.remaining reader) ∷ []) }
        ensures failures { IfOk result (λ _. failures_of self.new.lanes ≡
            failures_of self.old.lanes ++ R.failures reader ∷ []) }
        ensures rooms { IfOk result (λ _. rooms_of self.new.lanes ≡
            rooms_of self.old.lanes ++ 0 ∷ []) }
        ensures sizes { IfOk result (λ _. sizes_of self.new.lanes ≡
            sizes_of self.old.lanes ++ None ∷ []) }
        ensures stores { IfOk result (λ _. stores_of self.new.lanes ≡
            stores_of self.old.lanes ++ begun_store
            (option_map (needs_in any.Unbegun 0 []) (R.remaining reader))
            (first_held choice (R.remaining reader)) ∷ []) }
        ensures tallies { IfOk result (λ _. tallies_of self.new.lanes ≡
            tallies_of self.old.lanes ++ no_tally ∷ []) }
        ensures clock { self.new.clock ≡ self.old.clock }
        ensures unchanged { OnErr result (self.new ≡ self.old) }
    {
        self.lanes.push(Lane::of_any(alloc, reader, choice))?;
        Ok(())
    }

    /// Appends any container in several files, of which each goes on where the one before it ended,
    /// with a choice of its packets. Nothing of it is read.
    ///
    /// # Errors
    /// If memory is refused. Then nothing changes.
    pub fn add_files(
        &mut self,
        alloc: Global,
        readers: Vec<R>,
        choice: Choice,
    ) -> Result<(), AllocError>
        requires { 0 < vec_len readers }
        ensures coming { IfOk result (λ _. map coming_on self.new.lanes ≡
            map coming_on self.old.lanes
            ++ option_map (answers_of_files choice) (all_known R.remaining readers.items) ∷ []) }
        ensures failures { IfOk result (λ _. failures_of self.new.lanes ≡
            failures_of self.old.lanes ++ all_failures R.failures readers.items ∷ []) }
        ensures rooms { IfOk result (λ _. rooms_of self.new.lanes ≡
            rooms_of self.old.lanes ++ 0 ∷ []) }
        ensures sizes { IfOk result (λ _. sizes_of self.new.lanes ≡
            sizes_of self.old.lanes ++ None ∷ []) }
        ensures tallies { IfOk result (λ _. tallies_of self.new.lanes ≡
            tallies_of self.old.lanes ++ no_tally ∷ []) }
        ensures clock { self.new.clock ≡ self.old.clock }
        ensures unchanged { OnErr result (self.new ≡ self.old) }
    {
        let mut others = readers;
        let reader = others.remove(0);
        let lane = Lane::of_files(alloc, reader, others, choice);
        self.lanes.push(lane)?;
        Ok(())
    }

    /// Begins a census of messages of the family in this capture, for a router with this address: the
    /// capture's tally then says whom those name that are taken from now on.
    pub fn begin_census<F: Family>(&mut self, capture: usize, own: F::Addr)
        requires { capture < length self.old.lanes }
        ensures lanes { self.new.lanes
            ≡ census_at F.family (F.bytes_of own) capture self.old.lanes }
        ensures clock { self.new.clock ≡ self.old.clock }
    {
        self.lanes[capture].begin_census::<F>(own);
    }

    /// The number of captures.
    pub fn count(&self) -> usize
        ensures { result ≡ length self.now.lanes }
    {
        self.lanes.len()
    }

    /// Reads the heads that weren't read, in the order of the captures, up to the first fault.
    fn look(&mut self) -> Result<(), MergeFault>
        ensures coming { IfOk result (λ _. (captures : List (List Answer)) →
            IsComing self.old.lanes captures → IsComing self.new.lanes captures) }
        ensures looked { IfOk result (λ _. AllByRecursion IsLooked self.new.lanes) }
        ensures fault { IfErr result (λ reported. (captures : List (List Answer))
            → IsComing self.old.lanes captures →
            turn (with_fault reported captures) ≡ fails reported.capture reported.fault) }
        ensures cause { IfErr result (IsCause self.old.lanes self.new.lanes) }
        ensures left { records_to_come self.new.lanes ≤ records_to_come self.old.lanes }
        ensures reads { CountsFailures self.old.lanes result self.new.lanes }
        ensures memory { IfErr result (LacksMemory self.old.lanes) }
        ensures rooms { KeepRooms self.old.lanes self.new.lanes }
        ensures length { length self.new.lanes ≡ length self.old.lanes }
        ensures clock { self.new.clock ≡ self.old.clock }
        ensures over { IfErr result (λ reported. FailsAt reported.capture self.new.lanes) }
        ensures repeated { (number : ℕ) → FailsAt number self.old.lanes → IsFailed number result }
        ensures tallies { tallies_of self.new.lanes ≡ tallies_of self.old.lanes }
        ensures record { IfErr result (IsNumbered (tallies_of self.old.lanes)) }
    {
        look_at_all(&mut self.lanes)
    }

    /// The number of the first capture whose head has the least rank, with that rank, in a merge
    /// that ends at the time `last`.
    fn earliest(&self, last: Option<Time>) -> Option<(usize, u64)>
        ensures { result
            ≡ earliest_from 0 (map (head_rank (past_at last self.now.clock)) self.now.lanes) }
    {
        earliest(&self.lanes, last, self.clock)
    }

    /// Takes the head of a capture, if it was read.
    fn take(&mut self, capture: usize) -> Option<Event>
        requires { capture < length self.old.lanes }
        ensures head { option_map (event_seen (lane_at capture self.old.lanes).bytes) result ≡
            (lane_at capture self.old.lanes).head }
        ensures lanes { self.new.lanes ≡
            slice_set self.old.lanes capture (without_head (lane_at capture self.old.lanes)) }
        ensures clock { self.new.clock ≡ self.old.clock }
        ensures payload { IfSome result (PayloadLiesIn (bytes_at capture self.old)) }
        ensures moment { IfSome result (IsBy latest_moment) }
        ensures bytes { length (bytes_at capture self.old) ≤ most_captured }
    {
        let _bytes = self.lanes[capture].bytes();
        self.lanes[capture].take()
    }

    /// Whether the moment of the head of a capture is later than `last`, if there is a last time.
    fn is_past(&self, capture: usize, last: Option<Time>) -> bool
        requires { capture < length self.now.lanes }
        ensures { result ≡ is_past last
            (clock_after self.now.clock (head_time (lane_at capture self.now.lanes))) }
    {
        let time = self.lanes[capture].time();
        match Clock::after(self.clock, time) {
            Some(clock) => clock.is_past(last),
            None => false,
        }
    }

    /// Moves the clock on by a record of this time, and returns its moment.
    fn tick(&mut self, time: Option<u64>) -> u64
        requires { IfSome time (λ it. it ≤ latest_moment) }
        ensures clock { self.new.clock ≡ clock_after self.old.clock time }
        ensures lanes { self.new.lanes ≡ self.old.lanes }
        ensures moment { result ≡ moment_of (clock_after self.old.clock time) }
        ensures bound { result ≤ latest_moment }
    {
        let clock = Clock::after(self.clock, time);
        self.clock = clock;
        moment_of(clock)
    }

    /// Takes the next turn: the first of the records that have the least time among the heads of
    /// the captures. A record without a time comes before these, and has the moment of the record
    /// before it. One that isn't chosen comes first of all. `None` means that all captures are at
    /// their ends. Each head that wasn't read is read, so after the first call one record a call.
    ///
    /// # Errors
    /// The fault at the head of a capture, before any record is taken; of several faults the one of
    /// the first capture. Each later call returns `Failed` of this capture.
    pub fn next(&mut self) -> Result<Option<Turn>, MergeFault>
        ensures turn { (captures : List (List Answer)) → IsComing self.old.lanes captures →
            GivesTurn captures result self.new }
        ensures cause { IfErr result (IsCause self.old.lanes self.new.lanes) }
        ensures reads { CountsFailures self.old.lanes result self.new.lanes }
        // Memory is refused only if a head wasn't read and its buffer had less room than it needs.
        // Of any container, if a piece up to the next record needs more room, or describes an
        // interface for which the list has none, or if room is asked for to hold that record as a fragment.
        ensures memory { IfErr result (LacksMemory self.old.lanes) }
        ensures rooms { KeepRooms self.old.lanes self.new.lanes }
        ensures clock { KeepsTime self.old.clock result self.new }
        ensures moment { IfTaken result (λ next. next.moment ≤ latest_moment) }
        ensures bytes { IfTaken result (HoldsRecord self.new) }
        ensures capture { IfTaken result (λ next. next.capture < length self.new.lanes) }
        ensures lanes { length self.new.lanes ≡ length self.old.lanes }
        ensures nearer { IfTaken result (λ _. turns_left self.new < turns_left self.old) }
        ensures left { turns_left self.new ≤ turns_left self.old }
        // After a fault each call returns `Failed` of the same capture.
        ensures over { IfErr result (λ reported. FailsAt reported.capture self.new.lanes) }
        ensures repeated { (number : ℕ) → FailsAt number self.old.lanes → IsFailed number result }
        // A turn moves on the tally of its capture by its record, and all else leaves them.
        ensures tallies { KeepsTallies (tallies_of self.old.lanes) result self.new }
        ensures record { IfErr result (IsNumbered (tallies_of self.old.lanes)) }
    {
        self.next_by(None)
    }

    /// Takes the next turn, as `next` does, unless its moment is later than `last`. Then the result
    /// is `None`: its record isn't taken, and stays the head of its capture. So the next call
    /// returns `None` again, and reads nothing more. With an epoch time before the first record
    /// nothing is taken. A record that isn't chosen and is later ends its capture. Without a time
    /// this is `next`.
    ///
    /// # Errors
    /// As in `next`. A fault that is the head of a capture comes before all records, whatever their
    /// moments.
    pub fn next_by(&mut self, last: Option<Time>) -> Result<Option<Turn>, MergeFault>
        ensures turn { (captures : List (List Answer)) → IsComing self.old.lanes captures →
            GivesTurnBy last self.old.clock captures result self.new }
        ensures by { IfTaken result (λ next. is_past last self.new.clock ≡ false) }
        ensures cause { IfErr result (IsCause self.old.lanes self.new.lanes) }
        ensures reads { CountsFailures self.old.lanes result self.new.lanes }
        // Memory is refused only if a head wasn't read and its buffer had less room than it needs.
        // Of any container, if a piece up to the next record needs more room, or describes an
        // interface for which the list has none, or if room is asked for to hold that record as a fragment.
        ensures memory { IfErr result (LacksMemory self.old.lanes) }
        ensures rooms { KeepRooms self.old.lanes self.new.lanes }
        ensures clock { KeepsTime self.old.clock result self.new }
        ensures moment { IfTaken result (λ next. next.moment ≤ latest_moment) }
        ensures bytes { IfTaken result (HoldsRecord self.new) }
        ensures capture { IfTaken result (λ next. next.capture < length self.new.lanes) }
        ensures lanes { length self.new.lanes ≡ length self.old.lanes }
        ensures nearer { IfTaken result (λ _. turns_left self.new < turns_left self.old) }
        ensures left { turns_left self.new ≤ turns_left self.old }
        // After a fault each call returns `Failed` of the same capture.
        ensures over { IfErr result (λ reported. FailsAt reported.capture self.new.lanes) }
        ensures repeated { (number : ℕ) → FailsAt number self.old.lanes → IsFailed number result }
        // A turn moves on the tally of its capture by its record, and all else leaves them.
        ensures tallies { KeepsTallies (tallies_of self.old.lanes) result self.new }
        ensures record { IfErr result (IsNumbered (tallies_of self.old.lanes)) }
    {
        self.look()?;
        let Some((capture, _rank)) = self.earliest(last) else {
            return Ok(None);
        };
        if self.is_past(capture, last) {
            return Ok(None);
        }
        let Some(event) = self.take(capture) else {
            unreachable!();
        };
        let moment = self.tick(time_of(&event));
        Ok(Some(Turn {
            capture,
            moment,
            event,
        }))
    }

    /// The moment of this time, in milliseconds since the first record that was taken. It is 0 for
    /// an epoch time before that record, and for any if no record was taken.
    pub fn moment_at(&self, time: Time) -> u64
        ensures moment { result ≡ moment_at time self.now.clock }
        ensures bound { result ≤ millis_of time }
    {
        moment_at(self.clock, time)
    }

    #[tactic(auto, using(crate::proofs::Tallies::tally_there))]
    /// What was taken of this capture.
    pub fn tally(&self, capture: usize) -> Tally
        requires { capture < length self.now.lanes }
        ensures { result ≡ tally_at capture (tallies_of self.now.lanes) }
    {
        self.lanes[capture].tally()
    }

    /// The bytes of the record of this capture that was read last: those of a turn, until the next
    /// call of `next`.
    pub fn bytes(&self, capture: usize) -> &[u8]
        requires { capture < length self.now.lanes }
        ensures bytes { result.now ≡ bytes_at capture self.now }
        ensures length { length result.now ≤ most_captured }
    {
        self.lanes[capture].bytes()
    }
}
