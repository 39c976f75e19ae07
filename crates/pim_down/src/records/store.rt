//! The records of all ports in key order, with a schedule of their timers, and for each port the
//! number of its records and of its (S,G,rpt) records. Records are in a slab under numbers, and the
//! list of numbers is in blocks. So an insert or a removal moves only numbers of one block. The
//! schedule always has exactly the timers of the records: each change of a record puts timers in
//! and removes others.

ghost use Rattle.std.specs.Prelude.{◌≡◌, ℕ, List, ◌+◌, ◌-◌, ◌*◌, ◌<◌, ◌≤◌, ◌↔◌, [], length, take};
ghost use Rattle.std.specs.Prelude.{drop, option_map};
ghost use Rattle.std.specs.Prelude.{slice_index_or, slice_set, OnOk, IsOk, IsTrue, true, false};
ghost use Rattle.pim_down.specs.Words.{All, insert, remove, slice_get, IsPartitionedBy};
ghost use Rattle.pim_down.specs.Words.{IsPartitionPoint, Place, at, IsPlace, IsItem, IsFound, Held};
ghost use Rattle.pim_down.specs.Words.{is_rpt, rpt_count_on, count_on, deadline_seen, timers_of};
ghost use Rattle.pim_down.specs.Words.{what_seen, records_seen, put_off_from, IsKept};

use crate::machines::held::{Held, Timed};
use crate::machines::key::{KeyOrder, What};
use crate::records::bound::{Bound, Side};
use crate::records::deadline::Deadline;
use crate::records::schedule::Schedule;
use sorted_blocks::laws::item_has_a_place;
use sorted_blocks::{Place, Probe};
use sorted_slab::{SortedSlab, Walk};
use std::alloc::{AllocError, Global};
use std::fmt;
use std::marker::Model;

/// The greatest number of ports.
const PORTS: usize = 64;

/// The number of records in half a block. A block holds record numbers, and an empty block that is
/// removed moves the row of all later blocks. So blocks are long.
pub(crate) const HALF_OF_RECORDS: usize = 256;

/// The number of timers in half a block. Timers are larger than numbers, and most edits move some
/// of a block's.
const HALF_OF_TIMERS: usize = 128;

/// The records of all ports. Contracts see their list, its places, and the number of records that
/// fit without memory.
#[derive(Drop)]
pub(crate) struct RecordStore<A: Copy, O: KeyOrder<A>> {
    list: SortedSlab<Held<A>, HALF_OF_RECORDS>,
    schedule: Schedule<A, O, HALF_OF_TIMERS>,
    /// How many records each port has.
    counts: [usize; 64],
    /// How many of them are (S,G,rpt) records.
    rpts: [usize; 64],
    /// For how many records the schedule has room.
    room: usize,
}

impl<A: Copy, O: KeyOrder<A>> Model for RecordStore<A, O> {
    ghost use Rattle.sorted_slab.specs.Listed.{Listed};
    ghost use Rattle.pim_down.specs.declared.machines.held.Held.{Held};

    ghost Value = { Listed (Held A) };

    ghost use Rattle.std.specs.Prelude.{min};
    ghost use Rattle.pim_down.specs.Schedule.{IsTimed};
    ghost use Rattle.pim_down.specs.Store.{IsKept};

    ghost view = { λ s. record
        { index = s.list.index; items = s.list.items; capacity = min s.list.capacity s.room } };

    ghost invariant = { λ s. IsKept s.counts s.rpts s.list
        × IsTimed O.bytes_of s.list s.schedule.pending s.schedule.expiry s.room };
}

/// No record on any port.
fn no_counts() -> [usize; 64]
    ensures { (port : ℕ) → slice_index_or result port 0 ≡ 0 }
{
    [0; 64]
}

/// Adds to the count of this port.
fn count_in(counts: &mut [usize; 64], port: usize, more: usize)
    requires { slice_index_or counts.old port 0 + more ≤ 18446744073709551615 }
    ensures { counts.new ≡ slice_set counts.old port (slice_index_or counts.old port 0 + more) }
{
    if port < PORTS {
        counts[port] += more;
    }
}

/// Subtracts from the count of this port.
fn count_out(counts: &mut [usize; 64], port: usize, fewer: usize)
    requires { port < 64 → fewer ≤ slice_index_or counts.old port 0 }
    ensures { counts.new ≡ slice_set counts.old port (slice_index_or counts.old port 0 - fewer) }
{
    if port < PORTS {
        counts[port] -= fewer;
    }
}

/// Whether it is an (S,G,rpt) machine.
fn is_rpt<A>(what: &What<A>) -> bool
    ensures { (bytes_of : A → List ℕ) → result ≡ is_rpt (what_seen bytes_of what.now) }
{
    matches!(what, What::Rpt(_))
}

/// Gives the Expiry Timers of `count` records from this place on another end, in the records alone.
fn put_off_rows<A: Copy, const HALF: usize>(
    list: &mut SortedSlab<Held<A>, HALF>,
    place: Place,
    count: usize,
    to: u64,
)
    requires place { IsItem list.old place }
    requires within { at list.old place + count ≤ length list.old.items }
    ensures items { list.new.items ≡ put_off_from (at list.old place) count to list.old.items }
    ensures kept { (counts rpts : List ℕ) → length counts ≡ 64 → length rpts ≡ 64
        → IsKept counts rpts list.old → IsKept counts rpts list.new }
    ensures index { list.new.index ≡ list.old.index }
    ensures capacity { list.new.capacity ≡ list.old.capacity }
{
    let mut here = place;
    let mut left = count;
    while left > 0 {
        let Held { key, machine } = *list.get(here);
        let expires_at = Some(to);
        let machine = Timed {
            expires_at,
            ..machine
        };
        list.set(here, Held { key, machine });
        here = list.next(here);
        left -= 1;
    }
}

impl<A: Copy, O: KeyOrder<A>> RecordStore<A, O> {
    /// No record; it takes no memory.
    pub(crate) fn new(alloc: Global) -> Self
        ensures { result.items ≡ [] }
    {
        RecordStore {
            list: SortedSlab::new(alloc),
            schedule: Schedule::new(alloc),
            counts: no_counts(),
            rpts: no_counts(),
            room: 0,
        }
    }

    /// How many records there are. Twice this number and two more fit in a `usize`.
    pub(crate) fn len(&self) -> usize
        ensures len { result ≡ length self.now.items }
        ensures small { 2 * length self.now.items + 2 ≤ 18446744073709551615 }
    {
        self.list.len()
    }

    /// How many records this port has.
    pub(crate) fn count_on(&self, port: usize) -> usize
        requires { port < 64 }
        ensures { (bytes_of : A → List ℕ) → result
            ≡ count_on port (records_seen bytes_of self.now.items) }
    {
        self.counts[port]
    }

    /// How many (S,G,rpt) records this port has.
    pub(crate) fn rpt_count_on(&self, port: usize) -> usize
        requires { port < 64 }
        ensures { (bytes_of : A → List ℕ) → result
            ≡ rpt_count_on port (records_seen bytes_of self.now.items) }
    {
        self.rpts[port]
    }

    /// Takes memory for `additional` more records: after `Ok` they fit. The records stay, also
    /// after an `Err`. For none it takes no memory.
    pub(crate) fn reserve(&mut self, additional: usize) -> Result<(), AllocError>
        ensures ok { OnOk result (length self.new.items + additional ≤ self.new.capacity) }
        ensures none { additional ≡ 0 → IsOk result }
        ensures items { self.new.items ≡ self.old.items }
        ensures capacity { self.old.capacity ≤ self.new.capacity }
    {
        self.list.reserve(additional)?;
        if additional == 0 {
            return Ok(());
        }
        let Some(wanted) = self.list.len().checked_add(additional) else {
            return Err(AllocError);
        };
        if wanted <= self.room {
            return Ok(());
        }
        self.schedule.reserve_for(wanted)?;
        self.room = wanted;
        Ok(())
    }

    /// Inserts a record at this place, within the capacity. Returns its place.
    pub(crate) fn insert_within(&mut self, place: Place, held: Held<A>) -> Place
        requires place { IsPlace self.old place }
        requires within { length self.old.items < self.old.capacity }
        ensures items { self.new.items ≡ insert self.old.items (at self.old place) held }
        ensures capacity { self.new.capacity ≡ self.old.capacity }
    {
        let _most = self.list.capacity();
        let stands = self.list.insert_within(place, held);
        let number = self.list.number_of(stands);
        self.schedule.start_all(self.list.slab(), number, &held);
        count_in(&mut self.counts, held.key.port, 1);
        let rpts = usize::from(is_rpt(&held.key.what));
        count_in(&mut self.rpts, held.key.port, rpts);
        stands
    }

    /// Removes the record at this place. Returns the place of the next one.
    pub(crate) fn remove(&mut self, place: Place) -> Place
        requires { IsItem self.old place }
        ensures items { self.new.items ≡ remove self.old.items (at self.old place) }
        ensures capacity { self.new.capacity ≡ self.old.capacity }
        ensures place { IsPlace self.new result }
        ensures at { at self.new result ≡ at self.old place }
        ensures item { at self.new result < length self.new.items → IsItem self.new result }
    {
        let number = self.list.number_of(place);
        let held = *self.list.get(place);
        self.schedule.stop_all(self.list.slab(), number, &held);
        let (gone, behind) = self.list.remove(place);
        count_out(&mut self.counts, gone.key.port, 1);
        let rpts = usize::from(is_rpt(&gone.key.what));
        count_out(&mut self.rpts, gone.key.port, rpts);
        self.list.settled(behind)
    }

    /// Gives the record at this place another machine; its key stays.
    pub(crate) fn set_machine(&mut self, place: Place, machine: Timed)
        requires { IsItem self.old place }
        ensures items { (d : Held A) → self.new.items ≡ slice_set self.old.items (at self.old place)
            (record {
              key = (slice_index_or self.old.items (at self.old place) d).key;
              machine =
                  machine;
            }) }
        ensures places { (p : Place) → IsItem self.old p → IsItem self.new p }
        ensures at { (p : Place) → at self.new p ≡ at self.old p }
        ensures capacity { self.new.capacity ≡ self.old.capacity }
    {
        let old = *self.list.get(place);
        let number = self.list.number_of(place);
        self.schedule
            .change_all(self.list.slab(), number, &old, &machine);
        let key = old.key;
        self.list.set(place, Held { key, machine });
    }

    /// Puts off the Expiry Timers of the first ones of these records; all of them end at one
    /// moment. It takes as many as are side by side in a block of the index, with timers side by
    /// side in a block of the schedule. Returns their number.
    pub(crate) fn put_off(&mut self, place: Place, count: usize, from: u64, to: u64) -> usize
        requires place { IsItem self.old place }
        requires within { at self.old place + count ≤ length self.old.items }
        requires ends { All (λ held. held.machine.expires_at ≡ Some from)
            (take count (drop (at self.old place) self.old.items)) }
        ensures count { result ≤ count }
        ensures items { self.new.items
            ≡ put_off_from (at self.old place) result to self.old.items }
        ensures places { (p : Place) → IsItem self.old p → IsItem self.new p }
        ensures at { (p : Place) → at self.new p ≡ at self.old p }
        ensures capacity { self.new.capacity ≡ self.old.capacity }
    {
        item_has_a_place::<usize>();
        let numbers = self.list.numbers_from(place);
        let (numbers, _others) = numbers.split_at(count.min(numbers.len()));
        let moved = self.schedule.put_off(self.list.slab(), from, to, numbers);
        put_off_rows(&mut self.list, place, moved, to);
        moved
    }

    /// The timer that fires first.
    pub(crate) fn first_timer(&self) -> Option<Deadline<A>>
        ensures { option_map (deadline_seen O.bytes_of) result
            ≡ slice_get (timers_of (records_seen O.bytes_of self.now.items)) 0 }
    {
        self.schedule.first(self.list.slab())
    }

    /// The record at this place.
    pub(crate) fn get(&self, place: Place) -> &Held<A>
        requires { IsItem self.now place }
        ensures { result.now ≡ slice_index_or self.now.items (at self.now place) result.now }
    {
        self.list.get(place)
    }

    /// Whether there is a record at this place.
    pub(crate) fn is_item(&self, place: Place) -> bool
        ensures { IsTrue result ↔ IsItem self.now place }
    {
        self.list.is_item(place)
    }

    /// The place before all records: that of the first one, if there is any.
    pub(crate) fn first(&self) -> Place
        ensures place { IsPlace self.now result }
        ensures at { at self.now result ≡ 0 }
        ensures item { 0 < length self.now.items → IsItem self.now result }
    {
        self.list.first()
    }

    /// The place after this record: that of the next one, if there is any.
    pub(crate) fn next(&self, place: Place) -> Place
        requires { IsItem self.now place }
        ensures place { IsPlace self.now result }
        ensures at { at self.now result ≡ at self.now place + 1 }
        ensures item { at self.now place + 1 < length self.now.items → IsItem self.now result }
    {
        self.list.next(place)
    }

    /// At most `count` records from this place on, in order.
    pub(crate) fn walk(&self, place: Place, count: usize) -> Walk<'_, Held<A>, HALF_OF_RECORDS>
        requires { IsPlace self.now place }
        ensures { result ≡ take count (drop (at self.now place) self.now.items) }
    {
        self.list.walk(place, count)
    }

    /// All records, in order.
    pub(crate) fn iter(&self) -> Walk<'_, Held<A>, HALF_OF_RECORDS>
        ensures { result ≡ self.now.items }
    {
        self.list.walk(self.list.first(), self.list.len())
    }

    /// The place of a record that compares as equal, or as an error a place between records. The
    /// search begins near a place, which doesn't affect whether it finds one.
    pub(crate) fn find_near<P: Probe<Held<A>>>(
        &self,
        near: Place,
        probe: &P,
    ) -> Result<Place, Place>
        requires { All (P.can_compare probe.now) self.now.items }
        ensures { IsFound (P.order probe.now) self.now result }
    {
        self.list.find_near(near, probe)
    }

    /// The place after the records that come before the bound: that of the first other record, if
    /// there is any. The search begins near a place.
    pub(crate) fn first_behind<B: Bound<A>>(&self, near: Place, bound: &B) -> Place
        requires { IsPartitionedBy (λ held. B.is_before bound.now held.key) self.now.items }
        ensures place { IsPlace self.now result }
        ensures within { at self.now result ≤ length self.now.items }
        ensures item { at self.now result < length self.now.items → IsItem self.now result }
        ensures parts { IsPartitionPoint (λ held. B.is_before bound.now held.key ≡ true)
            (λ held. B.is_before bound.now held.key ≡ false) self.now.items (at self.now result) }
    {
        match self.list.find_near(near, &Side { bound }) {
            Ok(_) => unreachable!(),
            Err(place) => self.list.settled(place),
        }
    }
}

impl<A: Copy + fmt::Debug, O: KeyOrder<A>> fmt::Debug for RecordStore<A, O> {
    fn fmt<W: fmt::Write>(&self, f: &mut fmt::Formatter<W>) -> fmt::Result {
        f.debug_list().entries(self.iter()).finish()
    }
}
