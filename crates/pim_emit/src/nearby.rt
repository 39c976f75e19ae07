//! The records, looked up from near where an earlier look-up ended.

ghost use Rattle.std.specs.Prelude.{◌≡◌, option_map};
ghost use Rattle.pim_down.specs.Hearing.{rpt_count_on};
ghost use Rattle.pim_down.specs.Records.{state_of};
ghost use Rattle.pim_down.specs.Seen.{key_at, what_seen};
ghost use Rattle.pim_down.specs.After.{group_after};
ghost use Rattle.pim_down.specs.Sound.{IsSound};
ghost use Rattle.pim_emit.specs.Ahead.{machines_behind};

use crate::hints::Hints;
use pim_addr::Family;
use pim_down::{GroupMachines, Near, Ports, State, What};
use std::marker::Model;

/// The records of all ports, with hints where look-ups on each port begin. Contracts see the
/// records alone, since no result depends on a hint.
#[derive(Drop)]
pub(crate) struct Nearby<'a, F: Family> {
    ports: &'a Ports<F>,
    hints: Hints,
}

impl<'a, F: Family> Model for Nearby<'a, F> {
    ghost use Rattle.pim_down.specs.Time.{Downstream};

    ghost Value = { Downstream };

    ghost view = { λ nearby. nearby.ports.now };
}

impl<'a, F: Family> Nearby<'a, F> {
    /// These records, without hints.
    pub(crate) fn new(ports: &'a Ports<F>) -> Self
        ensures { result ≡ ports.now }
    {
        Nearby {
            ports,
            hints: Hints::new(),
        }
    }

    /// A law: the machines are sound. It does nothing.
    pub(crate) fn is_sound(&self)
        ensures { IsSound F.family self.now }
    {
        self.ports.is_sound();
    }

    /// The number of ports.
    pub(crate) fn port_count(&self) -> usize
        ensures { result ≡ self.now.ports }
    {
        self.ports.port_count()
    }

    /// The number of (S,G,rpt) machines on the port.
    pub(crate) fn rpt_count_on(&self, port: usize) -> usize
        ensures { result ≡ rpt_count_on port self.now.records }
    {
        self.ports.rpt_count_on(port)
    }

    /// The state of one machine; `None` is NoInfo.
    pub(crate) fn state_of(&self, port: usize, group: F::Addr, what: What<F::Addr>) -> Option<State>
        ensures { result ≡ state_of (key_at F.bytes_of port group what) self.now.records }
    {
        let near = self.hints.near(port);
        let (state, place) = self.ports.state_of_near(port, group, what, near);
        self.hints.keep(port, place);
        state
    }

    /// The least group above this one, or of all, that has a record on the port.
    pub(crate) fn group_after(&self, port: usize, group: Option<F::Addr>) -> Option<F::Addr>
        ensures { option_map F.bytes_of result
            ≡ group_after port (option_map F.bytes_of group) self.now.records }
    {
        let near = self.hints.near(port);
        let (next, place) = self.ports.group_after_near(port, group, near);
        self.hints.keep(port, place);
        next
    }

    /// The machines of this group on the port after this machine, one after another.
    pub(crate) fn machines_after(
        &self,
        port: usize,
        group: F::Addr,
        what: What<F::Addr>,
    ) -> GroupMachines<'a, F>
        ensures { result
            ≡ machines_behind self.now port (F.bytes_of group) (what_seen F.bytes_of what) }
    {
        let near = self.hints.near(port);
        self.ports.machines_after_near(port, group, what, near)
    }

    /// Keeps a place of the port, for the next look-up there.
    pub(crate) fn keep(&self, port: usize, place: Near) {
        self.hints.keep(port, place);
    }
}
