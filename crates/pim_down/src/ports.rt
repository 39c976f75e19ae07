//! The public calls on the downstream machines of a router's ports.

ghost use Rattle.std.specs.Prelude.{◌≡◌, ◌≤◌, ◌<◌, [], None, max, option_map, OnOk, OnErr};
ghost use Rattle.pim_down.specs.Words.{filter, Reached, rpt_count_on, state_of, machine_at, is_on};
ghost use Rattle.pim_down.specs.Words.{count_on, heard, needed_for, new_for, IsWithin};
ghost use Rattle.pim_down.specs.Words.{MayWantMemory, OthersStay, Downstream, Runs, RunsLooking};
ghost use Rattle.pim_down.specs.Words.{IsNextDue, FiresTo, rp_of, key_at, what_seen, step_seen};
ghost use Rattle.pim_down.specs.Words.{firing_seen, record_of_seen, group_after, next_in_group};
ghost use Rattle.pim_down.specs.Words.{IsSound};

use crate::hearing::hear::start_at;
use crate::hearing::message::hear_message;
use crate::machines::event::Timing;
use crate::machines::fault::HearFault;
use crate::machines::held::Arrival;
use crate::machines::key::{Key, OfFamily, What};
use crate::machines::machine::{Machine, Record, State};
use crate::machines::step::{Firing, Step};
use crate::records::after::first_of_groups_after;
use crate::records::edits::machine_near;
use crate::records::group::GroupMachines;
use crate::records::near::Near;
use crate::records::store::RecordStore;
use crate::records::walk::{Records, count_on, machine_after, on_port};
use crate::running::run::{Halt, Stop, run, run_to_firing};
use crate::running::timers::next_end;
use pim_addr::{Family, Routes};
use pim_jp::JpView;
use std::alloc::Global;
use std::marker::{Model, PhantomData};

/// The downstream machines of all ports, with their timers (RFC 7761, 4.5). They begin at the
/// moment 0.
#[derive(Debug, Drop)]
pub struct Ports<F: Family> {
    ports: usize,
    limit: usize,
    moment: u64,
    /// In key order. No timer ends before the present moment.
    records: RecordStore<F::Addr, OfFamily<F>>,
    /// For the list into which `hear` may sort the events of a message.
    alloc: Global,
    family: PhantomData<F>,
}

impl<F: Family> Model for Ports<F> {
    ghost use Rattle.pim_down.specs.Time.{Downstream};

    ghost Value = { Downstream };

    ghost use Rattle.pim_down.specs.Running.{downstream_at};
    ghost use Rattle.pim_down.specs.Ends.{AreLate};
    ghost use Rattle.pim_down.specs.Seen.{records_seen};
    ghost use Rattle.pim_down.specs.Sound.{IsSound};

    ghost view = { λ p. downstream_at F.bytes_of p.ports p.limit p.moment p.records.items };

    ghost invariant = { λ p. IsSound F.family
        (downstream_at F.bytes_of p.ports p.limit p.moment p.records.items)
        × AreLate p.moment (records_seen F.bytes_of p.records.items) };
}

impl<F: Family> Ports<F> {
    /// No machines on `ports` ports, 1 to 64, with a limit of records per port, 1 to 100,000.
    pub fn new(alloc: Global, ports: usize, limit: usize) -> Self
        requires some { 1 ≤ ports }
        requires ports { ports ≤ 64 }
        requires room { 1 ≤ limit }
        requires limit { limit ≤ 100000 }
        ensures { result ≡ record { ports = ports; limit = limit; moment = 0; records = [] } }
    {
        Ports {
            ports,
            limit,
            moment: 0,
            records: RecordStore::new(alloc),
            alloc,
            family: PhantomData,
        }
    }

    /// The present moment, in milliseconds.
    pub fn now(&self) -> u64
        ensures { result ≡ self.now.moment }
    {
        self.moment
    }

    /// The number of ports.
    pub fn port_count(&self) -> usize
        ensures { result ≡ self.now.ports }
    {
        self.ports
    }

    /// How many records each port may have.
    pub fn limit(&self) -> usize
        ensures { result ≡ self.now.limit }
    {
        self.limit
    }

    /// How many records this port has; 0 for a port that doesn't exist.
    pub fn count_on(&self, port: usize) -> usize
        ensures { result ≡ count_on port self.now.records }
    {
        if port >= self.ports {
            return 0;
        }
        count_on::<F>(&self.records, port)
    }

    /// How many (S,G,rpt) records this port has; 0 for a port that doesn't exist.
    pub fn rpt_count_on(&self, port: usize) -> usize
        ensures { result ≡ rpt_count_on port self.now.records }
    {
        if port >= self.ports {
            return 0;
        }
        self.records.rpt_count_on(port)
    }

    /// A law: what holds of the machines between calls. For each record its port exists, its group
    /// and source are valid addresses, and its state and timers go together. Records are in key
    /// order, and no port exceeds the limit. The call does nothing.
    pub fn is_sound(&self)
        ensures { IsSound F.family self.now }
    {
        let _ports = self.ports;
    }

    /// The first moment, from the present one on, at which a timer fires; `None` if none ever does.
    /// It looks at the timer that fires first.
    pub fn next_due(&self) -> Option<u64>
        ensures { IsNextDue self.now result }
    {
        next_end::<F>(&self.records)
    }

    /// The state of one machine; `None` is NoInfo.
    pub fn state_of(&self, port: usize, group: F::Addr, what: What<F::Addr>) -> Option<State>
        ensures state { result ≡ state_of (key_at F.bytes_of port group what) self.now.records }
        ensures absent { self.now.ports ≤ port → result ≡ None }
    {
        let (state, _near) = self.state_of_near(port, group, what, Near::UNKNOWN);
        state
    }

    /// The same as `state_of`, with a hint where the look-up begins. Also returns the place of the
    /// machine's record, or where it would be.
    pub fn state_of_near(
        &self,
        port: usize,
        group: F::Addr,
        what: What<F::Addr>,
        near: Near,
    ) -> (Option<State>, Near)
        ensures state { result.0 ≡ state_of (key_at F.bytes_of port group what) self.now.records }
        ensures absent { self.now.ports ≤ port → result.0 ≡ None }
    {
        let key = Key { port, group, what };
        let (machine, place) = machine_near::<F>(&self.records, near, &key);
        match machine {
            None => (None, place),
            Some(machine) => (Some(machine.state), place),
        }
    }

    /// One machine with the time left of its timers; `None` is NoInfo. The look-up begins at a
    /// hint, and the call also returns the place of the machine's record, or where it would be.
    pub fn machine_near(
        &self,
        port: usize,
        group: F::Addr,
        what: What<F::Addr>,
        near: Near,
    ) -> (Option<Machine>, Near)
        ensures machine { result.0
            ≡ machine_at (key_at F.bytes_of port group what) self.now.records }
        ensures absent { self.now.ports ≤ port → result.0 ≡ None }
    {
        let (found, place) = machine_near::<F>(&self.records, near, &Key { port, group, what });
        match found {
            None => (None, place),
            Some(machine) => (Some(machine_after(&machine, self.moment)), place),
        }
    }

    /// The machines that are held, in key order, with the time left of their timers.
    pub fn records(&self) -> Records<'_, F>
        ensures records { result ≡ self.now.records }
        ensures sound { IsSound F.family self.now }
    {
        Records::new(self.records.iter(), self.moment)
    }

    /// The machines of one port that are held, in key order, with the time left of their timers;
    /// none for a port that doesn't exist.
    pub fn records_on(&self, port: usize) -> Records<'_, F>
        ensures { result ≡ filter (is_on port) self.now.records }
    {
        if port >= self.ports {
            return Records::new(self.records.walk(self.records.first(), 0), self.moment);
        }
        Records::new(on_port::<F>(&self.records, port), self.moment)
    }

    /// The least group after this one, or of all, that has a record on the port; `None` if none
    /// has. It is a binary search, and takes no memory.
    pub fn group_after(&self, port: usize, group: Option<F::Addr>) -> Option<F::Addr>
        ensures { option_map F.bytes_of result
            ≡ group_after port (option_map F.bytes_of group) self.now.records }
    {
        let (next, _near) = self.group_after_near(port, group, Near::UNKNOWN);
        next
    }

    /// The same as `group_after`, with a hint where the look-up begins. Also returns the place of
    /// the group's first record on the port, or where it would be. It takes no memory.
    pub fn group_after_near(
        &self,
        port: usize,
        group: Option<F::Addr>,
        near: Near,
    ) -> (Option<F::Addr>, Near)
        ensures { option_map F.bytes_of result.0
            ≡ group_after port (option_map F.bytes_of group) self.now.records }
    {
        let (first, place) = first_of_groups_after::<F>(&self.records, near, port, group);
        match first {
            Some(first) => (Some(first.key.group), place),
            None => (None, place),
        }
    }

    /// The next record of this group on the port, in key order, after this machine, which need not
    /// be held; `None` if none follows. It is a binary search, and takes no memory.
    pub fn record_after(
        &self,
        port: usize,
        group: F::Addr,
        what: What<F::Addr>,
    ) -> Option<Record<F::Addr>>
        ensures { option_map (record_of_seen F.bytes_of) result
            ≡ next_in_group port (F.bytes_of group) (what_seen F.bytes_of what) self.now.records }
    {
        let (next, _near) = self.record_after_near(port, group, what, Near::UNKNOWN);
        next
    }

    /// The same as `record_after`, with a hint where the look-up begins. Also returns the place of
    /// the record, or where it would be. It takes no memory.
    pub fn record_after_near(
        &self,
        port: usize,
        group: F::Addr,
        what: What<F::Addr>,
        near: Near,
    ) -> (Option<Record<F::Addr>>, Near)
        ensures { option_map (record_of_seen F.bytes_of) result.0
            ≡ next_in_group port (F.bytes_of group) (what_seen F.bytes_of what) self.now.records }
    {
        let mut left = self.machines_after_near(port, group, what, near);
        let place = left.near();
        (left.next_machine(), place)
    }

    /// A walk, in key order, over the machines of this group on the port after this one, which need
    /// not be held. The look-up begins at a hint, which doesn't affect the machines.
    ///
    /// The call costs as much as `record_after_near`; each machine of the walk then costs no
    /// search. It takes no memory.
    pub fn machines_after_near(
        &self,
        port: usize,
        group: F::Addr,
        what: What<F::Addr>,
        near: Near,
    ) -> GroupMachines<'_, F>
        ensures { result ≡ record {
          records = self.now.records;
          behind = key_at F.bytes_of port group what;
        } }
    {
        GroupMachines::behind(&self.records, near, Key { port, group, what }, self.moment)
    }

    /// Hears a message on a port (RFC 7761, 4.5). A Join(*,G) counts only if its RP is the one to
    /// which the table leads G. No timer fires, and the machines of other ports stay unchanged. A
    /// refusal changes nothing. The override interval is at most 98,302 ms.
    ///
    /// It asks the table only for each Join(*,G), at most three times.
    ///
    /// It looks up each entry at most twice, and a Prune(S,G,rpt) at most once more. It walks
    /// through the (S,G,rpt) machines of each group at most twice, however often the message names
    /// the group: at its first Join(*,G), and at End of Message.
    ///
    /// Look-ups are short where each entry follows the one before it in key order. Where more than
    /// a few don't, the code first sorts the entries in that order, in n log n steps for n entries.
    /// Entries of one machine keep their order. If a Join(*,G) follows another one of its group, or
    /// an (S,G,rpt) entry of it, the code sorts only the (S,G) entries of each group. If memory for
    /// the sorted list is refused, the code hears the entries in message order, and walks through a
    /// group twice for each of its Joins(*,G).
    ///
    /// It judges `Full` before it takes any memory. So it counts new records in message order where
    /// the port's records and all entries of the message exceed the limit. Otherwise it takes
    /// memory for as many records as the message has entries.
    pub fn hear(
        &mut self,
        port: usize,
        message: &JpView<'_, F>,
        routes: &Routes<F>,
        timing: Timing,
    ) -> Result<(), HearFault>
        requires port { port < self.old.ports }
        requires interval { timing.override_ms ≤ 98302 }
        ensures ok { OnOk result (self.new
            ≡ heard port message.now (rp_of F.family routes.now) timing self.old) }
        ensures err { OnErr result (self.new ≡ self.old) }
        ensures room { IsWithin self.old.limit
            (needed_for port message.now (rp_of F.family routes.now) self.old) result }
        ensures memory { MayWantMemory
            (new_for port message.now (rp_of F.family routes.now) self.old) result }
        ensures ports { self.new.ports ≡ self.old.ports }
        ensures others { OthersStay port self.old self.new }
    {
        message.is_legal();
        let start = start_at(message.holdtime(), timing, self.moment);
        let (records, limit) = (&mut self.records, self.limit);
        let arrival = Arrival { port, start };
        hear_message::<F>(self.alloc, records, limit, arrival, routes, message)
    }

    /// Runs to this moment, in milliseconds, at most 10^15, or to the first PruneEcho. An earlier
    /// moment counts as now. What is still due after an echo stays due, and the next call goes on.
    ///
    /// It takes no memory, and looks only at the timer that fires first: once for each timer that
    /// fires, and at most once more.
    pub fn run_to(&mut self, moment: u64) -> Step<F::Addr>
        requires { moment ≤ 1000000000000000 }
        ensures run { Runs moment self.old (step_seen F.bytes_of result) self.new }
        ensures ports { self.new.ports ≡ self.old.ports }
        ensures limit { self.new.limit ≡ self.old.limit }
        ensures later { self.old.moment ≤ self.new.moment }
        ensures moment { self.new.moment ≤ max self.old.moment moment }
        ensures reached { result ≡ Reached → self.new.moment ≡ max self.old.moment moment }
    {
        let (step, _looks) = self.run_counted(moment);
        step
    }

    /// The same as `run_to`. Also returns the number of looks: a look compares the end of one timer
    /// with the moment. There is one for each timer that fires, and at most one more.
    pub fn run_counted(&mut self, moment: u64) -> (Step<F::Addr>, u64)
        requires { moment ≤ 1000000000000000 }
        ensures run { RunsLooking moment self.old
            (step_seen F.bytes_of result.0) self.new result.1 }
        ensures ports { self.new.ports ≡ self.old.ports }
        ensures limit { self.new.limit ≡ self.old.limit }
        ensures later { self.old.moment ≤ self.new.moment }
        ensures moment { self.new.moment ≤ max self.old.moment moment }
        ensures reached { result.0 ≡ Reached → self.new.moment ≡ max self.old.moment moment }
    {
        let stop = run::<F>(&mut self.records, self.moment, moment);
        let Stop { step, now, looks } = stop;
        self.moment = now;
        (step, looks)
    }

    /// Runs to this moment, in milliseconds, at most 10^15, or until one timer has fired, and
    /// returns that firing. An earlier moment counts as now. What is still due stays due, and the
    /// next call goes on. Prune-Pending Timers fire before Expiry Timers, each in key order.
    ///
    /// It takes no memory.
    pub fn fire_to(&mut self, moment: u64) -> Option<Firing<F::Addr>>
        requires { moment ≤ 1000000000000000 }
        ensures fires { FiresTo moment self.old (option_map (firing_seen F.bytes_of) result)
            self.new }
        ensures ports { self.new.ports ≡ self.old.ports }
        ensures limit { self.new.limit ≡ self.old.limit }
        ensures later { self.old.moment ≤ self.new.moment }
        ensures moment { self.new.moment ≤ max self.old.moment moment }
        ensures reached { result ≡ None → self.new.moment ≡ max self.old.moment moment }
    {
        let halt = run_to_firing::<F>(&mut self.records, self.moment, moment);
        let Halt {
            fired,
            now: stopped,
        } = halt;
        self.moment = stopped;
        fired
    }
}
