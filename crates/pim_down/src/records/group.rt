//! A walk over the machines of a group on a port.

ghost use Rattle.std.specs.Prelude.{◌≡◌, option_map};
ghost use Rattle.pim_down.specs.Words.{next_machine, left_behind, IsAscending, key_seen};
ghost use Rattle.pim_down.specs.Words.{records_seen, shown, record_of_seen};

use crate::machines::key::{Key, OfFamily};
use crate::machines::machine::Record;
use crate::records::after::{Behind, is_of_group};
use crate::records::near::Near;
use crate::records::store::RecordStore;
use crate::records::walk::record_after;
use pim_addr::Family;
use sorted_blocks::Place;
use std::fmt;
use std::marker::Model;

/// The machines of a group on a port that a walk has left, with the time left of their timers.
/// Contracts see the records, and the key of the machine that the walk follows.
#[derive(Drop)]
pub struct GroupMachines<'a, F: Family> {
    records: &'a RecordStore<F::Addr, OfFamily<F>>,
    /// The place of the next one, if there is one.
    place: Place,
    behind: Key<F::Addr>,
    moment: u64,
}

impl<'a, F: Family> Model for GroupMachines<'a, F> {
    ghost use Rattle.pim_down.specs.After.{MachinesLeft};
    ghost use Rattle.pim_down.specs.Records.{IsAscending};
    ghost use Rattle.pim_down.specs.Seen.{key_seen, records_seen, shown};
    ghost use Rattle.pim_down.specs.Store.{IsBehind};

    ghost Value = { MachinesLeft };

    ghost view = { λ left. record {
      records = shown F.bytes_of left.moment left.records.now.items;
      behind = key_seen F.bytes_of left.behind;
    } };

    ghost invariant = { λ left. IsAscending (records_seen F.bytes_of left.records.now.items)
        × IsBehind F.bytes_of left.behind left.records.now left.place };
}

impl<'a, F: Family> GroupMachines<'a, F> {
    /// The machines after this key, at this moment. The search begins near a place, which doesn't
    /// affect the machines.
    pub(crate) fn behind(
        records: &'a RecordStore<F::Addr, OfFamily<F>>,
        near: Near,
        key: Key<F::Addr>,
        moment: u64,
    ) -> Self
        requires { IsAscending (records_seen F.bytes_of records.now.items) }
        ensures { result ≡ record {
          records = shown F.bytes_of moment records.now.items;
          behind = key_seen F.bytes_of key;
        } }
    {
        let place = records.first_behind(near.place, &Behind::<F> { key });
        GroupMachines {
            records,
            place,
            behind: key,
            moment,
        }
    }

    /// Returns the next machine in key order; `None` if none is left. It compares one group, and
    /// takes no memory.
    // Inlined, so that a caller who reads only a part of the record doesn't build the rest.
    #[inline(always)]
    pub fn next_machine(&mut self) -> Option<Record<F::Addr>>
        ensures reported { option_map (record_of_seen F.bytes_of) result ≡ next_machine self.old }
        ensures left { self.new ≡ left_behind self.old (next_machine self.old) }
    {
        if !self.records.is_item(self.place) {
            return None;
        }
        let next = *self.records.get(self.place);
        if !is_of_group::<F>(&next.key, &self.behind) {
            return None;
        }
        self.place = self.records.next(self.place);
        self.behind = next.key;
        Some(record_after(&next, self.moment))
    }

    /// The place of the next machine, or where it would be. Look-ups among these records may begin
    /// near it.
    pub fn near(&self) -> Near {
        Near { place: self.place }
    }
}

impl<'a, F: Family> fmt::Debug for GroupMachines<'a, F> {
    fn fmt<W: fmt::Write>(&self, f: &mut fmt::Formatter<W>) -> fmt::Result {
        f.debug_struct("GroupMachines")
            .field("behind", &self.behind)
            .field("moment", &self.moment)
            .finish()
    }
}
