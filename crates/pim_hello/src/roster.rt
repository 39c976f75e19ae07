//! The neighbours of one port, an ordered index of the moments at which their times end, and the
//! greatest of their delays. With the index, a moment at which no time ends costs one lookup.

ghost use Rattle.std.specs.Prelude.{◌≡◌, ◌<◌, ◌≤◌, ◌+◌, [], map, length, OnOk, OnErr, IfSome};
ghost use Rattle.std.specs.Prelude.{IsSome, not, false, ◌&&◌};
ghost use Rattle.std.specs.Prelude.{is_some, true, if◌then◌else◌};
ghost use Rattle.std.specs.Option.{OnSome, IfNone};
ghost use Rattle.std.specs.BTreeMap.{get, insert_entry, is_at, IsOrdered, values};
ghost use Rattle.std.specs.Map.{remove_entry};
ghost use Rattle.pim_hello.specs.Interval.{jp_override_interval};
ghost use Rattle.pim_hello.specs.Kept.{hello_of_kept};
ghost use Rattle.pim_hello.specs.KeptDelays.{ComesTo, props};
ghost use Rattle.pim_hello.specs.Index.{AddsEnd, RemovesEnd, IndexesEnds, NoneEnded, end_kept};
ghost use Rattle.pim_hello.specs.Index.{ended_by};
ghost use Rattle.pim_hello.specs.Index.{least_end};

use crate::delays_heard::{DelaysHeard, known_with, known_without};
use crate::interval::PortDelays;
use crate::parameters::Kept;
use std::alloc::{AllocError, Global};
use std::collections::btree_map::Iter;
use std::collections::{BTreeMap, BTreeSet};

/// What is kept of the neighbours of one port, by their addresses. `ends` has the end of each time
/// with its address, in ascending order. `delays_heard` is what the neighbours' delays come to.
#[derive(Drop)]
pub(crate) struct Roster<A: Ord + Copy> {
    neighbours: BTreeMap<A, Kept>,
    ends: BTreeSet<(u64, A)>,
    /// `None` if it isn't known: a neighbour was removed, sent a lesser delay, or sent delays after
    /// none since the last walk over all.
    delays_heard: Option<DelaysHeard>,
    ghost indexed: { IndexesEnds A.cmp ends.keys neighbours.entries },
    ghost ascending: { IsOrdered A.cmp neighbours } by { Prim.hlevel props },
    ghost delays: { IfSome delays_heard (λ delays. ComesTo delays
        (map hello_of_kept (values neighbours))) } by { Prim.hlevel props },
}

/// Adds an end to the index, if there is one.
fn add_end<A: Ord + Copy>(
    ends: &mut BTreeSet<(u64, A)>,
    end: Option<u64>,
    address: A,
) -> Result<(), AllocError>
    ensures added { OnOk result (AddsEnd A.cmp end address ends.old.keys ends.new.keys) }
    ensures unchanged { OnErr result (ends.new.keys ≡ ends.old.keys) }
    ensures refused { OnErr result (is_some end ≡ true) }
{
    if let Some(end) = end {
        ends.insert((end, address))?;
    }
    Ok(())
}

/// Removes an end from the index, if there is one.
fn remove_end<A: Ord + Copy>(ends: &mut BTreeSet<(u64, A)>, end: Option<u64>, address: A)
    ensures { RemovesEnd A.cmp end address ends.old.keys ends.new.keys }
{
    if let Some(end) = end {
        ends.remove(&(end, address));
    }
}

impl<A: Ord + Copy> Roster<A> {
    /// No neighbours.
    pub(crate) fn new(alloc: Global) -> Roster<A>
        ensures { result.neighbours.entries ≡ [] }
    {
        Roster {
            neighbours: BTreeMap::new(alloc),
            ends: BTreeSet::new(alloc),
            delays_heard: Some(DelaysHeard::of_none()),
        }
    }

    /// The number of neighbours.
    pub(crate) fn len(&self) -> usize
        ensures { result ≡ length self.now.neighbours.entries }
    {
        self.neighbours.len()
    }

    /// What is kept of each neighbour, in ascending order of their addresses.
    pub(crate) fn iter(&self) -> Iter<'_, A, Kept>
        ensures { result ≡ self.now.neighbours.entries }
    {
        self.neighbours.iter()
    }

    /// What is kept of this address.
    pub(crate) fn get(&self, address: A) -> Option<Kept>
        ensures { result ≡ get A.cmp self.now.neighbours address }
    {
        self.neighbours.get(&address).copied()
    }

    /// The moment at which the time of this address ends. `None` if it never ends, or nothing is
    /// kept of the address.
    fn end_of(&self, address: A) -> Option<u64>
        ensures { result ≡ end_kept (get A.cmp self.now.neighbours address) }
    {
        let kept = self.get(address)?;
        kept.end
    }

    /// Keeps this of an address, in place of what was kept of it. A refusal changes nothing.
    pub(crate) fn insert(&mut self, address: A, kept: Kept) -> Result<(), AllocError>
        ensures kept { OnOk result
            (self.new.neighbours.entries
            ≡ insert_entry A.cmp self.old.neighbours.entries address kept) }
        ensures count { OnOk result (length self.new.neighbours.entries
            ≡ length self.old.neighbours.entries
            + (if is_some (get A.cmp self.old.neighbours address) then 0 else 1)) }
        ensures unchanged { OnErr result (self.new.neighbours.entries
            ≡ self.old.neighbours.entries) }
        ensures refused { OnErr result
            ((is_some (get A.cmp self.old.neighbours address) && not (is_some kept.end)) ≡ false) }
    {
        let old_end = self.end_of(address);
        add_end(&mut self.ends, kept.end, address)?;
        let Ok(known) = self.neighbours.insert(address, kept) else {
            // Only a new address is refused, so the index had no end of it.
            remove_end(&mut self.ends, kept.end, address);
            return Err(AllocError);
        };
        self.delays_heard = known_with(self.delays_heard, known, kept.parameters.lan);
        if old_end != kept.end {
            remove_end(&mut self.ends, old_end, address);
        }
        Ok(())
    }

    /// Removes what is kept of an address.
    pub(crate) fn remove(&mut self, address: A)
        ensures removed { self.new.neighbours.entries
            ≡ remove_entry (is_at (A.cmp address)) self.old.neighbours.entries }
        ensures count { length self.new.neighbours.entries
            + (if is_some (get A.cmp self.old.neighbours address) then 1 else 0)
            ≡ length self.old.neighbours.entries }
    {
        let end = self.end_of(address);
        remove_end(&mut self.ends, end, address);
        let known = self.neighbours.remove(&address);
        self.delays_heard = known_without(self.delays_heard, known);
    }

    /// The moment at which the first of the neighbours' times ends; `None` if none ever ends.
    pub(crate) fn first_end(&self) -> Option<u64>
        ensures { result ≡ least_end self.now.neighbours.entries }
    {
        let (end, _address) = *self.ends.first()?;
        Some(end)
    }

    /// Removes the neighbour whose time ends first, if it has ended by this moment.
    pub(crate) fn remove_ended(&mut self, moment: u64) -> Option<A>
        ensures ended { IfSome result
            (λ address. ended_by moment (end_kept (get A.cmp self.old.neighbours address)) ≡ true) }
        ensures removed { IfSome result (λ address.
            self.new.neighbours.entries
            ≡ remove_entry (is_at (A.cmp address)) self.old.neighbours.entries) }
        ensures shorter { OnSome result (length self.new.neighbours.entries
            < length self.old.neighbours.entries) }
        ensures unchanged { IfNone result (self.new.neighbours.entries
            ≡ self.old.neighbours.entries) }
        ensures none_ended { IfNone result (NoneEnded A.cmp moment self.old.neighbours.entries) }
    {
        let (end, address) = *self.ends.first()?;
        if end > moment {
            return None;
        }
        self.remove(address);
        Some(address)
    }

    /// What the neighbours' delays come to, by a walk over all.
    fn gathered(&self) -> DelaysHeard
        ensures { ComesTo result (map hello_of_kept (values self.now.neighbours)) }
    {
        let mut greatest = PortDelays::zero();
        for kept in self.neighbours.values() {
            let Some(lan) = kept.parameters.lan else {
                return DelaysHeard::NotByAll;
            };
            greatest = greatest.or_greater(PortDelays::heard_in(lan));
        }
        DelaysHeard::ByAll(greatest)
    }

    /// Walks over all neighbours if it isn't known what their delays come to.
    pub(crate) fn gather_delays(&mut self)
        ensures unchanged { self.new.neighbours.entries ≡ self.old.neighbours.entries }
        ensures known { IsSome self.new.delays_heard }
    {
        if self.delays_heard.is_none() {
            self.delays_heard = Some(self.gathered());
        }
    }

    /// J/P_Override_Interval(I) of a port with these delays of its own, in milliseconds (RFC 7761,
    /// 4.3.3).
    pub(crate) fn override_interval(&self, own: PortDelays) -> u32
        ensures interval { result ≡ jp_override_interval own.propagation own.override_ms
            (map hello_of_kept (values self.now.neighbours)) }
        ensures bound { result ≤ 98302 }
    {
        if let Some(delays_heard) = self.delays_heard {
            return delays_heard.interval(own);
        }
        self.gathered().interval(own)
    }
}
