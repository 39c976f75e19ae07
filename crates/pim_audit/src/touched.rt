//! The machines that something may have changed since the last look.

ghost use Rattle.std.specs.Prelude.{◌≡◌, true, false, ℕ, List, []};
ghost use Rattle.std.specs.Option.{is_some};
ghost use Rattle.pim_jp.specs.Seen.{entry_seen};
ghost use Rattle.pim_down.specs.Seen.{what_seen};
ghost use Rattle.pim_down.specs.declared.machines.key.What.{What};
ghost use Rattle.pim_down.specs.declared.machines.key.What.TheVariants.{Rpt};
ghost use Rattle.pim_form.specs.Wants.{state_on};
ghost use Rattle.pim_audit.specs.Touched.{untouched, machines_seen, is_touched, Grows};
ghost use Rattle.pim_audit.specs.Touched.{is_left_in, is_changed_by_star, TouchesEntry};
ghost use Rattle.pim_audit.specs.Touched.{TouchesEntries, Touches};

use crate::machine::GroupMachine;
use pim_addr::Family;
use pim_down::{Near, Ports, State, What};
use pim_jp::{Entry, JpView, SetView};
use std::alloc::Global;
use std::marker::Model;

/// Machines that something touched since the last look. A (*,G) stands for all (S,G,rpt) of its
/// group, too. Where memory is refused, all machines count as touched.
#[derive(Drop)]
pub(crate) struct Touched<F: Family> {
    is_all: bool,
    machines: Vec<GroupMachine<F::Addr>>,
    /// Where the next look-up begins.
    near: Near,
}

impl<F: Family> Model for Touched<F> {
    ghost use Rattle.pim_audit.specs.Touched.{TouchedMachines, machines_seen};

    ghost Value = { TouchedMachines };

    ghost view = { λ touched. record {
      all = touched.is_all;
      machines = machines_seen F.bytes_of touched.machines.items;
    } };
}

/// Whether a Join, or a Prune, leaves a (*,G) or (S,G) machine in this state; `None` is NoInfo.
fn is_left_in(joins: bool, state: Option<State>) -> bool
    ensures { result ≡ is_left_in joins state }
{
    match state {
        None => !joins,
        Some(State::Join) => joins,
        Some(_) => false,
    }
}

impl<F: Family> Touched<F> {
    /// All machines.
    pub(crate) fn all(alloc: Global) -> Self
        ensures { result ≡ record { all = true; machines = [] } }
    {
        Touched {
            is_all: true,
            machines: Vec::new(alloc),
            near: Near::UNKNOWN,
        }
    }

    /// Whether all machines are touched.
    pub(crate) fn is_all(&self) -> bool
        ensures { result ≡ self.now.all }
    {
        self.is_all
    }

    /// The machines, unless all are touched.
    pub(crate) fn machines(&self) -> &[GroupMachine<F::Addr>]
        ensures { machines_seen F.bytes_of result.now ≡ self.now.machines }
    {
        &self.machines
    }

    /// Touches a machine.
    pub(crate) fn touch(&mut self, group: F::Addr, what: What<F::Addr>)
        ensures touches { is_touched (F.bytes_of group) (what_seen F.bytes_of what) self.new
            ≡ true }
        ensures grows { Grows self.old self.new }
    {
        if self.is_all {
            return;
        }
        self.is_all = self.machines.push(GroupMachine { group, what }).is_err();
    }

    /// Touches the (S,G,rpt) machines of a group that a port holds.
    fn touch_exceptions(&mut self, ports: &Ports<F>, port: usize, group: F::Addr)
        ensures touches { (source : List ℕ) →
            is_some (state_on ports.now.records port (F.bytes_of group) (Rpt source)) ≡ true →
            is_touched (F.bytes_of group) (Rpt source) self.new ≡ true }
        ensures grows { Grows self.old self.new }
    {
        ports.is_sound();
        let first = What::Rpt(F::take(&[0; 16]));
        let mut machines = ports.machines_after_near(port, group, first, Near::UNKNOWN);
        while let Some(record) = machines.next_machine() {
            self.touch(group, record.key.what);
        }
    }

    /// Touches a (*,G) or (S,G) machine, unless a Join or a Prune on the port leaves it as it is.
    fn touch_own(
        &mut self,
        ports: &Ports<F>,
        port: usize,
        group: F::Addr,
        what: What<F::Addr>,
        joins: bool,
    )
        ensures touches { is_left_in joins (state_on ports.now.records port
            (F.bytes_of group) (what_seen F.bytes_of what)) ≡ false →
            is_touched (F.bytes_of group) (what_seen F.bytes_of what) self.new ≡ true }
        ensures grows { Grows self.old self.new }
    {
        let (state, near) = ports.state_of_near(port, group, what, self.near);
        self.near = near;
        if !is_left_in(joins, state) {
            self.touch(group, what);
        }
    }

    /// Touches what a Join(*,G) or a Prune(*,G) on a port may change: (*,G) unless it stays as it
    /// is, and at a Join each (S,G,rpt) that the port holds, since it may end (RFC 7761, 4.5.3).
    fn touch_star(&mut self, ports: &Ports<F>, port: usize, group: F::Addr, joins: bool)
        ensures touches { (what : What (List ℕ)) →
            is_changed_by_star port ports.now joins (F.bytes_of group) what ≡ true →
            is_touched (F.bytes_of group) what self.new ≡ true }
        ensures grows { Grows self.old self.new }
    {
        if joins {
            self.touch_exceptions(ports, port, group);
        }
        self.touch_own(ports, port, group, What::Star, joins);
    }

    /// Touches what a Join or a Prune of this entry on a port may change.
    fn touch_entry(
        &mut self,
        ports: &Ports<F>,
        port: usize,
        group: F::Addr,
        entry: Entry<F::Addr>,
        joins: bool,
    )
        ensures touches { TouchesEntry port ports.now joins (F.bytes_of group) self.new
            (entry_seen F.bytes_of entry) }
        ensures grows { Grows self.old self.new }
    {
        match entry {
            Entry::Star(_) => self.touch_star(ports, port, group, joins),
            Entry::Source(source) => {
                self.touch_own(ports, port, group, What::Source(source), joins);
            }
            Entry::Rpt(source) => self.touch(group, What::Rpt(source)),
        }
    }

    /// Touches what the Joins of a set on a port may change.
    fn touch_joined(&mut self, ports: &Ports<F>, port: usize, set: &SetView<'_, F>)
        ensures touches { TouchesEntries port ports.now true set.now.group self.new
            set.now.joined }
        ensures grows { Grows self.old self.new }
    {
        let group = set.group();
        for entry in set.joined() {
            self.touch_entry(ports, port, group, entry, true);
        }
    }

    /// Touches what the Prunes of a set on a port may change.
    fn touch_pruned(&mut self, ports: &Ports<F>, port: usize, set: &SetView<'_, F>)
        ensures touches { TouchesEntries port ports.now false set.now.group self.new
            set.now.pruned }
        ensures grows { Grows self.old self.new }
    {
        let group = set.group();
        for entry in set.pruned() {
            self.touch_entry(ports, port, group, entry, false);
        }
    }

    /// Touches what a message may change, before a port hears it.
    pub(crate) fn touch_message(&mut self, ports: &Ports<F>, port: usize, message: &JpView<'_, F>)
        ensures touches { Touches port message.now ports.now self.new }
        ensures grows { Grows self.old self.new }
    {
        for set in message.sets() {
            self.touch_joined(ports, port, &set);
            self.touch_pruned(ports, port, &set);
        }
    }

    /// Touches all machines.
    pub(crate) fn touch_all(&mut self)
        ensures { self.new.all ≡ true }
    {
        self.is_all = true;
    }

    /// Forgets all that was touched.
    pub(crate) fn clear(&mut self)
        ensures { self.new ≡ untouched }
    {
        self.is_all = false;
        self.machines.clear();
    }
}
