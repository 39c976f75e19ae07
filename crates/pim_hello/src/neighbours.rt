//! The neighbours of one port (RFC 7761, 4.3.1 and 4.3.2).

ghost use Rattle.std.specs.Prelude.{◌≡◌, ◌≤◌, ◌^◌, length, is_some, option_map, not, ◌&&◌, nat_le};
ghost use Rattle.pim_hello.specs.Interval.{jp_override_interval};
ghost use Rattle.pim_hello.specs.Kept.{parameters_seen};
ghost use Rattle.pim_hello.specs.Seen.{hello_seen};
ghost use Rattle.pim_hello.specs.Neighbours.{no_neighbours, neighbour_at, passed_to, without_ended};
ghost use Rattle.pim_hello.specs.Neighbours.{hellos_of, Hears};
ghost use Rattle.pim_hello.specs.Neighbours.{IsAscending, IsSound, entry_at, next_end};
ghost use Rattle.pim_hello.specs.Walk.{neighbour_seen};

use crate::heard::{Heard, NeighbourFault};
use crate::hearing::{end_of_time, heard_as, says_goodbye};
use crate::hello::Hello;
use crate::interval::PortDelays;
use crate::parameters::{Kept, Parameters};
use crate::roster::Roster;
use crate::walk::{KnownNeighbour, KnownNeighbours, neighbour_at};
use pim_addr::Family;
use std::alloc::Global;
use std::marker::Model;

/// A port has at most this number of neighbours.
const NEIGHBOUR_LIMIT: usize = 1024;

/// The neighbours of one port: what the last accepted Hello of each said, and the time that is
/// left.
#[derive(Drop)]
pub struct Neighbours<F: Family> {
    roster: Roster<F::Addr>,
    /// The present moment, in milliseconds.
    moment: u64,
}

impl<F: Family> Model for Neighbours<F> {
    ghost use Rattle.std.specs.Prelude.{◌≤◌, ◌^◌, length};
    ghost use Rattle.pim_hello.specs.Neighbours.{Table};

    ghost Value = { Table };

    ghost use Rattle.pim_hello.specs.Kept.{table_seen};

    ghost view = { λ s. table_seen F.bytes_of s.moment s.roster.neighbours.entries };

    ghost invariant = { λ s. (s.moment ≤ 10 ^ 15) × (length s.roster.neighbours.entries ≤ 1024) };
}

/// Whether a port with `count` neighbours has no room for a sender of which this is kept.
fn lacks_room(known: &Option<Kept>, count: usize) -> bool
    ensures { result ≡ (not (is_some known.now) && nat_le 1024 count) }
{
    known.is_none() && count >= NEIGHBOUR_LIMIT
}

impl<F: Family> Neighbours<F> {
    /// A port without neighbours, at the moment 0. It takes no memory.
    pub fn new(alloc: Global) -> Neighbours<F>
        ensures { result ≡ no_neighbours }
    {
        Neighbours {
            roster: Roster::new(alloc),
            moment: 0,
        }
    }

    /// A law: the moment is at most 10^15, there are at most 1,024 neighbours, and their addresses
    /// ascend. It does nothing.
    pub fn is_sound(&self)
        ensures { IsSound self.now }
    {
        // Reading a field gives the proof what holds of all fields.
        let _moment = self.moment;
    }

    /// The number of neighbours. It includes those whose time has ended but that aren't removed
    /// yet.
    pub fn count(&self) -> usize
        ensures count { result ≡ length self.now.entries }
        ensures limit { result ≤ 1024 }
        ensures ascending { IsAscending self.now }
    {
        self.roster.len()
    }

    /// The neighbours in ascending order of their addresses, with the time that is left to each.
    pub fn entries(&self) -> KnownNeighbours<'_, F>
        ensures { result ≡ self.now.entries }
    {
        KnownNeighbours::new(self.roster.iter(), self.moment)
    }

    /// Whether the table has this address.
    pub fn knows(&self, from: F::Addr) -> bool
        ensures { result ≡ is_some (neighbour_at (F.bytes_of from) self.now) }
    {
        self.roster.get(from).is_some()
    }

    /// What the table has of this address, as `entries` gives it.
    pub fn get(&self, from: F::Addr) -> Option<KnownNeighbour<F::Addr>>
        ensures { option_map (neighbour_seen F.bytes_of) result
            ≡ entry_at (F.bytes_of from) self.now }
    {
        match self.roster.get(from) {
            Some(kept) => Some(neighbour_at(from, kept, self.moment)),
            None => None,
        }
    }

    /// The first moment, from the present one on, at which a neighbour's time is over; `None` if
    /// none's ever is. It looks at the neighbour whose time ends first.
    pub fn next_end(&self) -> Option<u64>
        ensures { result ≡ next_end self.now }
    {
        match self.roster.first_end() {
            Some(end) => Some(end.max(self.moment)),
            None => None,
        }
    }

    /// Takes a Hello at the moment `now`, in milliseconds. What it says replaces what was kept of
    /// its sender; a goodbye removes the sender. No neighbour is removed because its time has
    /// ended.
    ///
    /// # Errors
    /// `Full` exactly if the sender is new, says no goodbye, and the port has 1,024 neighbours.
    /// `Memory` if memory could not be allocated. An error changes nothing. A goodbye, or a known
    /// sender that the Hello keeps forever, is never refused.
    pub fn hear(
        &mut self,
        from: F::Addr,
        hello: &Hello<'_, F>,
        now: u64,
    ) -> Result<Heard, NeighbourFault>
        requires { now ≤ 10 ^ 15 }
        ensures { Hears (F.bytes_of from) (hello_seen F.family hello.now).parameters now self.old
            result self.new }
    {
        self.hear_parameters(from, &hello.parameters(), now)
    }

    /// The same as `hear`, for a Hello without its Address List.
    fn hear_parameters(
        &mut self,
        from: F::Addr,
        hello: &Parameters,
        now: u64,
    ) -> Result<Heard, NeighbourFault>
        requires { now ≤ 10 ^ 15 }
        ensures { Hears (F.bytes_of from) (parameters_seen hello.now) now self.old result self.new }
    {
        let moment = self.moment.max(now);
        if says_goodbye(hello) {
            self.moment = moment;
            self.roster.remove(from);
            return Ok(Heard::Gone);
        }
        let known = self.roster.get(from);
        if lacks_room(&known, self.roster.len()) {
            return Err(NeighbourFault::Full);
        }
        let kept = Kept {
            parameters: *hello,
            end: end_of_time(hello, moment),
        };
        let Ok(()) = self.roster.insert(from, kept) else {
            return Err(NeighbourFault::Memory);
        };
        self.moment = moment;
        Ok(heard_as(known, hello))
    }

    /// Lets time pass up to the moment `now`, in milliseconds, and removes the neighbours whose
    /// time has ended.
    pub fn expire(&mut self, now: u64)
        requires { now ≤ 10 ^ 15 }
        ensures { self.new ≡ without_ended (passed_to now self.old) }
    {
        self.moment = self.moment.max(now);
        while let Some(_removed) = self.roster.remove_ended(self.moment) {}
    }

    /// Prepares `override_interval`, which may otherwise walk over all neighbours each time. This
    /// walks over them at most once, and only if a neighbour was removed, sent a lesser delay, or
    /// sent delays after none. It changes nothing that contracts see.
    pub fn gather_delays(&mut self)
        ensures { self.new ≡ self.old }
    {
        self.roster.gather_delays();
    }

    /// J/P_Override_Interval(I) of a port with these delays of its own, in milliseconds (RFC 7761,
    /// 4.3.3): at most 98,302. It walks over the neighbours only where `gather_delays` would.
    pub fn override_interval(&self, own: PortDelays) -> u32
        ensures interval { result
            ≡ jp_override_interval own.propagation own.override_ms (hellos_of self.now) }
        ensures bound { result ≤ 98302 }
    {
        self.roster.override_interval(own)
    }
}
