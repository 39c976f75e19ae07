//! What is due, in order, and what of it waits to be late.

ghost use Rattle.std.specs.Prelude.{◌≡◌, [], false, true, Some, OnOk, OnErr, IfSome};
ghost use Rattle.std.specs.List.{filter, find};
ghost use Rattle.std.specs.Map.{values_of};
ghost use Rattle.std.specs.Option.{IfNone, option_map};
ghost use Rattle.pim_down.specs.Seen.{event_seen};
ghost use Rattle.pim_audit.specs.Dued.{is_exception_of, without, with_due_entry, with_reported};
ghost use Rattle.pim_audit.specs.Gathering.{is_entry_of};
ghost use Rattle.pim_audit.specs.Look.{becomes_late, held_entries};
ghost use Rattle.pim_audit.specs.Order.{EntriesAscend, same_entry};
ghost use Rattle.pim_audit.specs.Seen.{due_seen, dues_seen};

use crate::due::Due;
use crate::due_map::DueMap;
use crate::entry_key::{EntryKey, key_of};
use pim_addr::Family;
use pim_down::Event;
use std::alloc::{AllocError, Global};
use std::collections::btree_map::{Range, Values};
use std::marker::Model;

/// What is due.
#[derive(Drop)]
pub(crate) struct Dues<F: Family> {
    kept: DueMap<F::Addr>,
}

impl<F: Family> Model for Dues<F> {
    ghost use Rattle.std.specs.Prelude.{List};
    ghost use Rattle.std.specs.BTreeMap.{values};
    ghost use Rattle.pim_audit.specs.Keyed.{AreKeyed};
    ghost use Rattle.pim_audit.specs.Look.{DueEntry};
    ghost use Rattle.pim_audit.specs.Seen.{dues_seen};

    ghost Value = { List DueEntry };

    ghost view = { λ dues. dues_seen F.bytes_of (values dues.kept.entries) };

    ghost invariant = { λ dues. AreKeyed F.bytes_of dues.kept.entries.entries };
}

impl<F: Family> Dues<F> {
    /// Nothing is due.
    pub(crate) fn new(alloc: Global) -> Self
        ensures { result ≡ [] }
    {
        Dues {
            kept: DueMap::new(alloc),
        }
    }

    /// A law: the entries are in order. It does nothing.
    pub(crate) fn is_sound(&self)
        ensures { EntriesAscend (held_entries self.now) }
    {
        // Reading a field gives the proof what holds of all fields.
        let _kept = &self.kept;
    }

    /// The entry, if it is due.
    pub(crate) fn get(&self, entry: &Event<F::Addr>) -> Option<Due<F::Addr>>
        ensures { option_map (due_seen F.bytes_of) result ≡ find
            (λ held. same_entry held.entry (event_seen F.bytes_of entry.now)) self.now }
    {
        self.kept.get(key_of::<F>(entry))
    }

    /// All entries, in order.
    pub(crate) fn iter(&self) -> Values<'_, EntryKey<F::Addr>, Due<F::Addr>>
        ensures { dues_seen F.bytes_of result ≡ self.now }
    {
        self.kept.values()
    }

    /// The entries of (S,G,rpt) machines of a group, in order.
    pub(crate) fn exceptions_of(&self, group: F::Addr) -> Range<'_, EntryKey<F::Addr>, Due<F::Addr>>
        ensures { dues_seen F.bytes_of (values_of result)
            ≡ filter (is_exception_of (F.bytes_of group)) self.now }
    {
        let first = EntryKey {
            group,
            rank: 2,
            source: None,
        };
        let after = EntryKey {
            group,
            rank: 4,
            source: None,
        };
        self.kept.range(first, after)
    }

    /// Removes an entry.
    pub(crate) fn remove(&mut self, entry: &Event<F::Addr>)
        ensures { self.new ≡ without (event_seen F.bytes_of entry.now) self.old }
    {
        self.kept.remove(key_of::<F>(entry));
    }

    /// Adds an entry that is due since this moment, and wasn't due. A refusal changes nothing.
    pub(crate) fn add(&mut self, entry: Event<F::Addr>, moment: u64) -> Result<(), AllocError>
        requires { is_entry_of (held_entries self.old) (event_seen F.bytes_of entry) ≡ false }
        ensures added { OnOk result (self.new ≡ with_due_entry (record {
          entry = event_seen F.bytes_of entry;
          since = moment;
          is_reported = false;
        }) self.old) }
        ensures err { OnErr result (self.new ≡ self.old) }
    {
        let due = Due {
            entry,
            since: moment,
            is_reported: false,
        };
        self.kept.add(key_of::<F>(&entry), due)?;
        Ok(())
    }

    /// Reports an entry that becomes late: it is due for more than `grace` milliseconds at this
    /// moment, and wasn't reported. Returns it as it was; `None` if there is none.
    pub(crate) fn take_late(&mut self, moment: u64, grace: u64) -> Option<Due<F::Addr>>
        ensures late { IfSome result (λ held.
            becomes_late moment grace (due_seen F.bytes_of held) ≡ true) }
        ensures held { IfSome result (λ held. find (λ other.
            same_entry other.entry (event_seen F.bytes_of held.entry)) self.old
            ≡ Some (due_seen F.bytes_of held)) }
        ensures reported { IfSome result (λ held.
            self.new ≡ with_reported (event_seen F.bytes_of held.entry) self.old) }
        ensures none { IfNone result (filter (becomes_late moment grace) self.old ≡ []) }
        ensures unchanged { IfNone result (self.new ≡ self.old) }
        ensures order { EntriesAscend (held_entries self.old) }
    {
        let key = self.kept.first_late(moment, grace)?;
        let held = self.kept.report(key)?;
        Some(held)
    }
}
