//! The schedule: the timers that run, in two lists, of Prune-Pending Timers and of Expiry Timers. A
//! run looks only at the first of each. Room for the timers of new records is reserved with the
//! records, so that a message puts timers in without memory.

ghost use Rattle.std.specs.Prelude.{◌≡◌, ℕ, List, ◌+◌, ◌-◌, ◌*◌, ◌<◌, ◌≤◌, [], length, map};
ghost use Rattle.std.specs.Prelude.{option_map, OnOk, take};
ghost use Rattle.pim_down.specs.Words.{get, PendingTimer, ExpiryTimer, Held, with_run, Numbered};
ghost use Rattle.pim_down.specs.Words.{deadline_seen, alarm_of, with_its, AreKnown, first_in};
ghost use Rattle.pim_down.specs.Words.{sooner_of, deadline_at, pending_end, waiting_seen};

use crate::machines::held::{Held, Timed};
use crate::machines::key::{Key, KeyOrder};
use crate::records::alarms::Alarms;
use crate::records::deadline::{Alarm, Deadline, TimerKind};
use slab::Slab;
use std::alloc::{AllocError, Global};

/// The timers that run, in blocks of up to twice `HALF`.
#[derive(Drop)]
pub(crate) struct Schedule<A: Copy, O: KeyOrder<A>, const HALF: usize> {
    pending: Alarms<A, O, HALF>,
    expiry: Alarms<A, O, HALF>,
}

/// The timer of an alarm.
fn deadline_of<A: Copy>(
    slab: &Slab<Held<A>>,
    timer: TimerKind,
    alarm: Option<Alarm>,
) -> Option<Deadline<A>>
    ensures { result ≡ deadline_at slab.now timer alarm }
{
    let alarm = alarm?;
    let held = slab.get(alarm.number)?;
    Some(Deadline {
        ends_at: alarm.ends_at,
        timer,
        key: held.key,
    })
}

/// The second timer if it ends before the first one, and otherwise the first one.
fn sooner<A: Copy>(a: Option<Deadline<A>>, b: Option<Deadline<A>>) -> Option<Deadline<A>>
    ensures { result ≡ sooner_of a b }
{
    let Some(first) = a else {
        return b;
    };
    let Some(second) = b else {
        return Some(first);
    };
    if second.ends_at < first.ends_at {
        Some(second)
    } else {
        Some(first)
    }
}

impl<A: Copy, O: KeyOrder<A>, const HALF: usize> Schedule<A, O, HALF> {
    /// No timer; it takes no memory.
    pub(crate) fn new(alloc: Global) -> Self
        requires some { 1 ≤ HALF }
        requires small { HALF ≤ 65536 }
        ensures pending { result.pending.alarms ≡ [] }
        ensures expiry { result.expiry.alarms ≡ [] }
    {
        Schedule {
            pending: Alarms::new(alloc),
            expiry: Alarms::new(alloc),
        }
    }

    /// Takes memory: after `Ok` the timers of this number of records fit, and one more of each
    /// kind. Twice this number and two more then fit in a `usize`.
    pub(crate) fn reserve_for(&mut self, records: usize) -> Result<(), AllocError>
        ensures pending_room { OnOk result (records ≤ self.new.pending.capacity - 1) }
        ensures expiry_room { OnOk result (records ≤ self.new.expiry.capacity - 1) }
        ensures small { OnOk result (2 * records + 2 ≤ 18446744073709551615) }
        ensures pending { self.new.pending.alarms ≡ self.old.pending.alarms }
        ensures expiry { self.new.expiry.alarms ≡ self.old.expiry.alarms }
        ensures more_pending { self.old.pending.capacity ≤ self.new.pending.capacity }
        ensures more_expiry { self.old.expiry.capacity ≤ self.new.expiry.capacity }
    {
        let Some(twice) = records.checked_mul(2) else {
            return Err(AllocError);
        };
        let Some(_both) = twice.checked_add(2) else {
            return Err(AllocError);
        };
        self.pending.reserve_for(records + 1)?;
        self.expiry.reserve_for(records + 1)
    }

    /// The timer that fires first.
    pub(crate) fn first(&self, slab: &Slab<Held<A>>) -> Option<Deadline<A>>
        ensures { (prunes expiries : List Numbered) → AreKnown O.bytes_of slab.now prunes
            → AreKnown O.bytes_of slab.now expiries
            → self.now.pending.alarms ≡ map alarm_of prunes
            → self.now.expiry.alarms ≡ map alarm_of expiries
            → option_map (deadline_seen O.bytes_of) result
            ≡ sooner_of (first_in PendingTimer prunes) (first_in ExpiryTimer expiries) }
    {
        let pending = deadline_of(slab, TimerKind::PendingTimer, self.pending.first());
        let expiry = deadline_of(slab, TimerKind::ExpiryTimer, self.expiry.first());
        sooner(pending, expiry)
    }

    /// Puts in the timers of the record with this number.
    pub(crate) fn start_all(&mut self, slab: &Slab<Held<A>>, number: usize, held: &Held<A>)
        requires pending { length self.old.pending.alarms < self.old.pending.capacity }
        requires expiry { length self.old.expiry.alarms < self.old.expiry.capacity }
        ensures pending { (timers : List Numbered) → AreKnown O.bytes_of slab.now timers
            → self.old.pending.alarms ≡ map alarm_of timers → self.new.pending.alarms
            ≡ map alarm_of (with_its O.bytes_of PendingTimer held.now number timers) }
        ensures expiry { (timers : List Numbered) → AreKnown O.bytes_of slab.now timers
            → self.old.expiry.alarms ≡ map alarm_of timers → self.new.expiry.alarms
            ≡ map alarm_of (with_its O.bytes_of ExpiryTimer held.now number timers) }
        ensures pending_room { self.new.pending.capacity ≡ self.old.pending.capacity }
        ensures expiry_room { self.new.expiry.capacity ≡ self.old.expiry.capacity }
    {
        self.expiry
            .start(slab, held.key, number, held.machine.expires_at);
        self.pending
            .start(slab, held.key, number, pending_end(&held.machine));
    }

    /// Removes the timers of the record with this number.
    pub(crate) fn stop_all(&mut self, slab: &Slab<Held<A>>, number: usize, held: &Held<A>)
        ensures pending { (timers : List Numbered)
            → AreKnown O.bytes_of slab.now (with_its O.bytes_of PendingTimer held.now number timers)
            → self.old.pending.alarms
            ≡ map alarm_of (with_its O.bytes_of PendingTimer held.now number timers)
            → self.new.pending.alarms ≡ map alarm_of timers }
        ensures expiry { (timers : List Numbered)
            → AreKnown O.bytes_of slab.now (with_its O.bytes_of ExpiryTimer held.now number timers)
            → self.old.expiry.alarms
            ≡ map alarm_of (with_its O.bytes_of ExpiryTimer held.now number timers)
            → self.new.expiry.alarms ≡ map alarm_of timers }
        ensures pending_room { self.new.pending.capacity ≡ self.old.pending.capacity }
        ensures expiry_room { self.new.expiry.capacity ≡ self.old.expiry.capacity }
    {
        self.pending
            .stop(slab, held.key, number, pending_end(&held.machine));
        self.expiry
            .stop(slab, held.key, number, held.machine.expires_at);
    }

    /// Gives the timers of the record with this number the ends of another machine.
    pub(crate) fn change_all(
        &mut self,
        slab: &Slab<Held<A>>,
        number: usize,
        held: &Held<A>,
        to: &Timed,
    )
        requires pending { length self.old.pending.alarms < self.old.pending.capacity }
        requires expiry { length self.old.expiry.alarms < self.old.expiry.capacity }
        ensures pending { (timers : List Numbered)
            → AreKnown O.bytes_of slab.now (with_its O.bytes_of PendingTimer held.now number timers)
            → self.old.pending.alarms
            ≡ map alarm_of (with_its O.bytes_of PendingTimer held.now number timers)
            → self.new.pending.alarms
            ≡ map alarm_of (with_its O.bytes_of PendingTimer
            (record { key = held.now.key; machine = to.now }) number timers) }
        ensures expiry { (timers : List Numbered)
            → AreKnown O.bytes_of slab.now (with_its O.bytes_of ExpiryTimer held.now number timers)
            → self.old.expiry.alarms
            ≡ map alarm_of (with_its O.bytes_of ExpiryTimer held.now number timers)
            → self.new.expiry.alarms
            ≡ map alarm_of (with_its O.bytes_of ExpiryTimer
            (record { key = held.now.key; machine = to.now }) number timers) }
        ensures pending_room { self.new.pending.capacity ≡ self.old.pending.capacity }
        ensures expiry_room { self.new.expiry.capacity ≡ self.old.expiry.capacity }
    {
        let Held { key, machine } = *held;
        self.pending
            .change(slab, key, number, pending_end(&machine), pending_end(to));
        self.expiry
            .change(slab, key, number, machine.expires_at, to.expires_at);
    }

    /// Gives Expiry Timers of the records with these numbers, all with one end, another end. It
    /// takes as many of the first ones as are side by side in a block, and returns their number.
    pub(crate) fn put_off(
        &mut self,
        slab: &Slab<Held<A>>,
        from: u64,
        to: u64,
        numbers: &[usize],
    ) -> usize
        requires { length self.old.expiry.alarms < self.old.expiry.capacity }
        ensures numbers { result ≤ length numbers.now }
        ensures pending { self.new.pending.alarms ≡ self.old.pending.alarms }
        ensures expiry { (run : List (Held A)) (timers : List Numbered) → length run ≡ result
            → AreKnown O.bytes_of slab.now
            (with_run O.bytes_of from (take result numbers.now) run timers)
            → self.old.expiry.alarms
            ≡ map alarm_of (with_run O.bytes_of from (take result numbers.now) run timers)
            → self.new.expiry.alarms
            ≡ map alarm_of (with_run O.bytes_of to (take result numbers.now) run timers) }
        ensures pending_room { self.new.pending.capacity ≡ self.old.pending.capacity }
        ensures expiry_room { self.new.expiry.capacity ≡ self.old.expiry.capacity }
    {
        self.expiry.put_off(slab, from, to, numbers)
    }
}

/// When the machine's Prune-Pending Timer ends, if it runs.
fn pending_end(machine: &Timed) -> Option<u64>
    ensures { result ≡ pending_end (waiting_seen machine.now.pending) }
{
    match machine.pending {
        Some(timer) => Some(timer.ends_at),
        None => None,
    }
}
