//! The timers of one kind that run, in the order in which they fire: by end, then by key. Each has
//! the number of its record. Its key is read from the slab, only where ends are equal.

ghost use Rattle.std.specs.Prelude.{◌≡◌, ℕ, List, ◌+◌, ◌<◌, ◌≤◌, [], length, map, OnOk, IsTrue};
ghost use Rattle.std.specs.Prelude.{slice_index_or, take};
ghost use Rattle.std.specs.List.{slice_get, insert};
ghost use Rattle.slab.specs.Slab.{get};
ghost use Rattle.sorted_blocks.specs.Shape.{items, capacity};
ghost use Rattle.sorted_blocks.specs.Places.{before, IsPlace, IsItem};
ghost use Rattle.pim_down.specs.declared.records.deadline.Alarm.{Alarm};
ghost use Rattle.pim_down.specs.declared.machines.held.Held.{Held};
ghost use Rattle.pim_down.specs.PutOff.{with_run, alarm_at, Ascend};
ghost use Rattle.pim_down.specs.Schedule.{Numbered, alarm_cmp, alarm_of, alarm_seen, with_alarm};
ghost use Rattle.pim_down.specs.Schedule.{AreKnown, alarm_order, placed, without};
ghost use Rattle.pim_down.specs.Seen.{key_seen};

use crate::machines::held::Held;
use crate::machines::key::{Key, KeyOrder};
use crate::records::deadline::Alarm;
use slab::Slab;
use sorted_blocks::laws::{item_has_a_place, place_is_within};
use sorted_blocks::{Blocks, Place, Probe};
use std::alloc::{AllocError, Global};
use std::cmp::Ordering;
use std::marker::{Model, PhantomData};

/// How many timers are put in by one move at most.
const RUN: usize = 32;

/// A timer that is searched among others of its kind.
#[derive(Drop)]
struct Wanted<'a, A: Copy, O> {
    slab: &'a Slab<Held<A>>,
    key: Key<A>,
    alarm: Alarm,
    order: PhantomData<O>,
}

#[tactic(auto, unfolding(crate::specs::Schedule::alarm_order))]
impl<'a, A: Copy, O: KeyOrder<A>> Probe<Alarm> for Wanted<'a, A, O> {
    ghost use Rattle.pim_down.specs.Schedule.{alarm_order, alarm_seen};

    ghost can_compare = { λ _ _. Unit {0} };

    ghost order = { λ sought other. alarm_order O.bytes_of sought.slab.now
        (alarm_seen O.bytes_of sought.key sought.alarm) other };

    fn compare(&self, other: &Alarm) -> Ordering {
        let by_end = other.ends_at.cmp(&self.alarm.ends_at);
        if by_end.is_ne() {
            return by_end;
        }
        let Some(held) = self.slab.get(other.number) else {
            return Ordering::Less;
        };
        let by_key = O::compare(&held.key, &self.key);
        if by_key.is_ne() {
            return by_key;
        }
        other.number.cmp(&self.alarm.number)
    }
}

/// The timers of one kind that run, in blocks of up to twice `HALF`. Contracts see the list of
/// alarms, and how many fit without memory.
#[derive(Drop)]
pub(crate) struct Alarms<A: Copy, O: KeyOrder<A>, const HALF: usize> {
    list: Blocks<Alarm, HALF>,
    /// Where a timer was put in last: a hint.
    put: Place,
    /// What followed the timer that was taken out last: a hint.
    taken: Place,
    key: PhantomData<A>,
    order: PhantomData<O>,
}

impl<A: Copy, O: KeyOrder<A>, const HALF: usize> Model for Alarms<A, O, HALF> {
    ghost use Rattle.sorted_blocks.specs.Shape.{items, capacity};
    ghost use Rattle.pim_down.specs.Schedule.{AlarmList};

    ghost Value = { AlarmList };

    ghost view = { λ s. record { alarms = items s.list; capacity = capacity HALF s.list } };
}

/// Where the timer belongs among these.
fn slot_of<A: Copy, O: KeyOrder<A>, const HALF: usize>(
    list: &Blocks<Alarm, HALF>,
    near: Place,
    slab: &Slab<Held<A>>,
    key: Key<A>,
    alarm: Alarm,
) -> Place
    ensures place { IsPlace list.now result }
    ensures slot { (timers : List Numbered) → AreKnown O.bytes_of slab.now timers
        → items list.now ≡ map alarm_of timers
        → insert (items list.now) (before list.now result) alarm
        ≡ map alarm_of (placed alarm_cmp (alarm_seen O.bytes_of key alarm) timers) }
{
    item_has_a_place::<Alarm>();
    place_is_within::<Alarm>();
    let wanted: Wanted<'_, A, O> = Wanted {
        slab,
        key,
        alarm,
        order: PhantomData,
    };
    match list.find_near(near, &wanted) {
        Ok(place) => place,
        Err(place) => place,
    }
}

/// How many of these alarms, from the first one on, have this end and these numbers.
fn count_run(row: &[Alarm], from: u64, numbers: &[usize]) -> usize
    ensures numbers { result ≤ length numbers.now }
    ensures row { result ≤ length row.now }
    ensures same { (i d : ℕ) (a : Alarm) → i < result → slice_index_or row.now i a
        ≡ record { ends_at = from; number = slice_index_or numbers.now i d } }
{
    let most = row.len().min(numbers.len());
    let mut count = 0;
    while count < most {
        let alarm = row[count];
        if alarm.ends_at != from {
            return count;
        }
        if alarm.number != numbers[count] {
            return count;
        }
        count += 1;
    }
    count
}

/// How many of these numbers, from the first one on, are of records whose keys ascend from this key
/// on. It counts no more than fit in a run.
fn count_ascending<A: Copy, O: KeyOrder<A>>(
    slab: &Slab<Held<A>>,
    key: &Key<A>,
    numbers: &[usize],
) -> usize
    ensures numbers { result ≤ length numbers.now }
    ensures most { result ≤ 32 }
    ensures ascend { Ascend O.bytes_of slab.now result (key_seen O.bytes_of key.now) numbers.now }
{
    let most = numbers.len().min(RUN);
    let mut last = *key;
    let mut count = 0;
    while count < most {
        let Some(held) = slab.get(numbers[count]) else {
            return count;
        };
        if !O::compare(&last, &held.key).is_lt() {
            return count;
        }
        last = held.key;
        count += 1;
    }
    count
}

/// A row for a run, with alarms that mean nothing.
fn blank_run() -> [Alarm; 32] {
    [Alarm {
        ends_at: 0,
        number: 0,
    }; 32]
}

/// Writes the alarms with this end of the records with these numbers to the front of a row.
fn write_run(to: u64, numbers: &[usize], row: &mut [Alarm; 32])
    requires { length numbers.now ≤ 32 }
    ensures { take (length numbers.now) row.new ≡ map (alarm_at to) numbers.now }
{
    let mut count = 0;
    while count < numbers.len() {
        row[count] = Alarm {
            ends_at: to,
            number: numbers[count],
        };
        count += 1;
    }
}

/// Whether the item at this place, if there is one, ends later.
fn ends_later<const HALF: usize>(list: &Blocks<Alarm, HALF>, place: Place, to: u64) -> bool
    requires { IsPlace list.now place }
    ensures { (d : Alarm) → IsTrue result → before list.now place < length (items list.now)
        → to < (slice_index_or (items list.now) (before list.now place) d).ends_at }
{
    let place = list.settled(place);
    if !list.is_item(place) {
        return true;
    }
    to < list.get(place).ends_at
}

/// Puts in the timers of the records with these numbers that belong right after the one at this
/// place: of the first ones, as many as its block has room for. Returns their number, and a place
/// near the last one.
#[tactic(auto, unfolding(crate::specs::PutOff::with_run))]
fn put_run_after<A: Copy, O: KeyOrder<A>, const HALF: usize>(
    list: &mut Blocks<Alarm, HALF>,
    stands: Place,
    slab: &Slab<Held<A>>,
    to: u64,
    key: &Key<A>,
    numbers: &[usize],
) -> (usize, Place)
    requires { IsItem list.old stands }
    ensures numbers { result.0 ≤ length numbers.now }
    ensures alarms { (number : ℕ) (run : List (Held A)) (timers : List Numbered)
        → length run ≡ length numbers.now
        → AreKnown O.bytes_of slab.now (with_run O.bytes_of to numbers.now run timers)
        → items list.old ≡ map alarm_of timers
        → ((d : Numbered) → slice_index_or timers (before list.old stands) d
        ≡ record { ends_at = to; key = key_seen O.bytes_of key.now; number = number })
        → items list.new ≡ map alarm_of
        (with_run O.bytes_of to (take result.0 numbers.now) (take result.0 run) timers) }
    ensures more { length (items list.new) ≡ length (items list.old) + result.0 }
    ensures capacity { capacity HALF list.new ≡ capacity HALF list.old }
{
    item_has_a_place::<Alarm>();
    place_is_within::<Alarm>();
    if numbers.is_empty() {
        return (0, stands);
    }
    let place = list.next(stands);
    if !ends_later(list, place, to) {
        return (0, stands);
    }
    let count = count_ascending::<A, O>(slab, key, numbers);
    let (run, _others) = numbers.split_at(count);
    let mut row = blank_run();
    write_run(to, run, &mut row);
    let (run, _blank) = row.split_at(count);
    match list.insert_in_block(place, run) {
        Some(last) => (count, last),
        None => (0, stands),
    }
}

impl<A: Copy, O: KeyOrder<A>, const HALF: usize> Alarms<A, O, HALF> {
    /// No timer; it takes no memory.
    pub(crate) fn new(alloc: Global) -> Self
        requires some { 1 ≤ HALF }
        requires small { HALF ≤ 65536 }
        ensures { result.alarms ≡ [] }
    {
        Alarms {
            list: Blocks::new(alloc),
            put: Place::START,
            taken: Place::START,
            key: PhantomData,
            order: PhantomData,
        }
    }

    /// Takes memory: after `Ok` this number of timers fit.
    pub(crate) fn reserve_for(&mut self, timers: usize) -> Result<(), AllocError>
        ensures ok { OnOk result (timers ≤ self.new.capacity) }
        ensures alarms { self.new.alarms ≡ self.old.alarms }
        ensures capacity { self.old.capacity ≤ self.new.capacity }
    {
        let running = self.list.len();
        self.list.reserve_capacity(timers.saturating_sub(running))
    }

    /// The timer that fires first.
    pub(crate) fn first(&self) -> Option<Alarm>
        ensures { result ≡ slice_get self.now.alarms 0 }
    {
        item_has_a_place::<Alarm>();
        let place = self.list.first();
        if self.list.is_item(place) {
            Some(*self.list.get(place))
        } else {
            None
        }
    }

    /// Puts in a timer, within the capacity.
    fn put(&mut self, slab: &Slab<Held<A>>, key: Key<A>, alarm: Alarm)
        requires { length self.old.alarms < self.old.capacity }
        ensures alarms { (timers : List Numbered) → AreKnown O.bytes_of slab.now timers
            → self.old.alarms ≡ map alarm_of timers → self.new.alarms
            ≡ map alarm_of (placed alarm_cmp (alarm_seen O.bytes_of key alarm) timers) }
        ensures more { length self.new.alarms ≡ length self.old.alarms + 1 }
        ensures capacity { self.new.capacity ≡ self.old.capacity }
    {
        let place = slot_of::<A, O, HALF>(&self.list, self.put, slab, key, alarm);
        let stands = self.list.insert_within(place, alarm);
        self.put = stands;
    }

    /// Removes a timer, if it runs.
    fn take(&mut self, slab: &Slab<Held<A>>, key: Key<A>, alarm: Alarm)
        ensures alarms { (timers : List Numbered) → AreKnown O.bytes_of slab.now timers
            → self.old.alarms ≡ map alarm_of timers → self.new.alarms
            ≡ map alarm_of (without alarm_cmp (alarm_seen O.bytes_of key alarm) timers) }
        ensures fewer { length self.new.alarms ≤ length self.old.alarms }
        ensures capacity { self.new.capacity ≡ self.old.capacity }
    {
        place_is_within::<Alarm>();
        let wanted: Wanted<'_, A, O> = Wanted {
            slab,
            key,
            alarm,
            order: PhantomData,
        };
        if let Ok(place) = self.list.find_near(self.taken, &wanted) {
            let (_gone, behind) = self.list.remove(place);
            self.taken = behind;
        }
    }

    /// Puts in the timer of the record with this number, if it runs.
    pub(crate) fn start(
        &mut self,
        slab: &Slab<Held<A>>,
        key: Key<A>,
        number: usize,
        end: Option<u64>,
    )
        requires { length self.old.alarms < self.old.capacity }
        ensures alarms { (timers : List Numbered) → AreKnown O.bytes_of slab.now timers
            → self.old.alarms ≡ map alarm_of timers → self.new.alarms
            ≡ map alarm_of (with_alarm (key_seen O.bytes_of key) number end timers) }
        ensures capacity { self.new.capacity ≡ self.old.capacity }
    {
        match end {
            Some(ends_at) => self.put(slab, key, Alarm { ends_at, number }),
            None => {}
        }
    }

    /// Removes the timer of the record with this number, if it runs.
    pub(crate) fn stop(
        &mut self,
        slab: &Slab<Held<A>>,
        key: Key<A>,
        number: usize,
        end: Option<u64>,
    )
        ensures alarms { (timers : List Numbered)
            → AreKnown O.bytes_of slab.now (with_alarm (key_seen O.bytes_of key) number end timers)
            → self.old.alarms
            ≡ map alarm_of (with_alarm (key_seen O.bytes_of key) number end timers)
            → self.new.alarms ≡ map alarm_of timers }
        ensures fewer { length self.new.alarms ≤ length self.old.alarms }
        ensures capacity { self.new.capacity ≡ self.old.capacity }
    {
        match end {
            Some(ends_at) => self.take(slab, key, Alarm { ends_at, number }),
            None => {}
        }
    }

    /// Gives the timer of the record with this number another end.
    pub(crate) fn change(
        &mut self,
        slab: &Slab<Held<A>>,
        key: Key<A>,
        number: usize,
        from: Option<u64>,
        to: Option<u64>,
    )
        requires { length self.old.alarms < self.old.capacity }
        ensures alarms { (timers : List Numbered)
            → AreKnown O.bytes_of slab.now (with_alarm (key_seen O.bytes_of key) number from timers)
            → self.old.alarms
            ≡ map alarm_of (with_alarm (key_seen O.bytes_of key) number from timers)
            → self.new.alarms
            ≡ map alarm_of (with_alarm (key_seen O.bytes_of key) number to timers) }
        ensures capacity { self.new.capacity ≡ self.old.capacity }
    {
        if from != to {
            self.stop(slab, key, number, from);
            self.start(slab, key, number, to);
        }
    }

    /// Removes timers of the records with these numbers, all with this end. It takes as many of the
    /// first ones as are side by side in a block, and returns their number.
    #[tactic(auto, unfolding(crate::specs::PutOff::with_run))]
    fn take_run(&mut self, slab: &Slab<Held<A>>, from: u64, numbers: &[usize]) -> usize
        ensures numbers { result ≤ length numbers.now }
        ensures alarms { (run : List (Held A)) (timers : List Numbered) → length run ≡ result
            → AreKnown O.bytes_of slab.now
            (with_run O.bytes_of from (take result numbers.now) run timers)
            → self.old.alarms
            ≡ map alarm_of (with_run O.bytes_of from (take result numbers.now) run timers)
            → self.new.alarms ≡ map alarm_of timers }
        ensures fewer { length self.new.alarms + result ≡ length self.old.alarms }
        ensures capacity { self.new.capacity ≡ self.old.capacity }
    {
        item_has_a_place::<Alarm>();
        let Some(number) = numbers.first() else {
            return 0;
        };
        let Some(held) = slab.get(*number) else {
            return 0;
        };
        let wanted: Wanted<'_, A, O> = Wanted {
            slab,
            key: held.key,
            alarm: Alarm {
                ends_at: from,
                number: *number,
            },
            order: PhantomData,
        };
        let Ok(place) = self.list.find_near(self.taken, &wanted) else {
            return 0;
        };
        let count = count_run(self.list.row_from(place), from, numbers);
        self.taken = self.list.remove_in_block(place, count);
        count
    }

    /// Puts in the timers of the records with these numbers, all with this end.
    fn put_run(&mut self, slab: &Slab<Held<A>>, to: u64, numbers: &[usize])
        requires { length self.old.alarms + length numbers.now ≤ self.old.capacity }
        ensures alarms { (ends : ℕ) (run : List (Held A)) (timers : List Numbered)
            → length run ≡ length numbers.now
            → AreKnown O.bytes_of slab.now (with_run O.bytes_of ends numbers.now run timers)
            → self.old.alarms ≡ map alarm_of timers → self.new.alarms
            ≡ map alarm_of (with_run O.bytes_of to numbers.now run timers) }
        ensures capacity { self.new.capacity ≡ self.old.capacity }
    {
        let mut at = 0;
        while at < numbers.len() {
            let (_done, left) = numbers.split_at(at);
            at += self.put_front(slab, to, left);
        }
    }

    /// Puts in the first one of these timers, all with this end, and those after it that belong
    /// right after it. Returns their number.
    fn put_front(&mut self, slab: &Slab<Held<A>>, to: u64, numbers: &[usize]) -> usize
        requires some { 0 < length numbers.now }
        requires room { length self.old.alarms < self.old.capacity }
        ensures some { 0 < result }
        ensures numbers { result ≤ length numbers.now }
        ensures alarms { (run : List (Held A)) (timers : List Numbered)
            → length run ≡ length numbers.now
            → AreKnown O.bytes_of slab.now (with_run O.bytes_of to numbers.now run timers)
            → self.old.alarms ≡ map alarm_of timers → self.new.alarms ≡ map alarm_of
            (with_run O.bytes_of to (take result numbers.now) (take result run) timers) }
        ensures more { length self.new.alarms ≤ length self.old.alarms + result }
        ensures capacity { self.new.capacity ≡ self.old.capacity }
    {
        place_is_within::<Alarm>();
        let (first, others) = numbers.split_at(1);
        let number = first[0];
        let Some(held) = slab.get(number) else {
            return 1;
        };
        let alarm = Alarm {
            ends_at: to,
            number,
        };
        let place = slot_of::<A, O, HALF>(&self.list, self.put, slab, held.key, alarm);
        let stands = self.list.insert_within(place, alarm);
        let (count, near) = put_run_after::<A, O, HALF>(
            &mut self.list,
            stands,
            slab,
            to,
            &held.key,
            others,
        );
        self.put = near;
        1 + count
    }

    /// Gives timers of the records with these numbers, all with one end, another end. It takes as
    /// many of the first ones as are side by side in a block, and returns their number.
    pub(crate) fn put_off(
        &mut self,
        slab: &Slab<Held<A>>,
        from: u64,
        to: u64,
        numbers: &[usize],
    ) -> usize
        requires { length self.old.alarms < self.old.capacity }
        ensures numbers { result ≤ length numbers.now }
        ensures alarms { (run : List (Held A)) (timers : List Numbered) → length run ≡ result
            → AreKnown O.bytes_of slab.now
            (with_run O.bytes_of from (take result numbers.now) run timers)
            → self.old.alarms
            ≡ map alarm_of (with_run O.bytes_of from (take result numbers.now) run timers)
            → self.new.alarms
            ≡ map alarm_of (with_run O.bytes_of to (take result numbers.now) run timers) }
        ensures capacity { self.new.capacity ≡ self.old.capacity }
    {
        let count = self.take_run(slab, from, numbers);
        let (run, _others) = numbers.split_at(count);
        self.put_run(slab, to, run);
        count
    }
}
