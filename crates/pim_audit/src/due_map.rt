//! Due entries in the order of their keys, and those of them that aren't reported yet in order of
//! time.

ghost use Rattle.std.specs.Prelude.{◌≡◌, [], false, true, OnOk, OnErr, IfSome, None};
ghost use Rattle.std.specs.Option.{IfNone};
ghost use Rattle.std.specs.BTreeMap.{get, insert_entry, is_at, IsOrdered, values};
ghost use Rattle.std.specs.BTreeMap.Range.{entries_between};
ghost use Rattle.std.specs.Map.{remove_entry, set_value};
ghost use Rattle.std.specs.declared.cmp.Ordering.TheVariants.{Less};
ghost use Rattle.std.specs.declared.ops.Bound.TheVariants.{Included, Excluded};
ghost use Rattle.std.proofs.Props.{props};
ghost use Rattle.pim_audit.specs.Keyed.{key_cmp};
ghost use Rattle.pim_audit.specs.Waiting.{AreWaiting, NoneIsLate, late_if_due, reported};

use crate::due::Due;
use crate::entry_key::EntryKey;
use std::alloc::{AllocError, Global};
use std::collections::btree_map::{Range, Values};
use std::collections::{BTreeMap, BTreeSet};

/// Due entries by their keys. `waiting` has those that aren't reported yet, each by the moment
/// since which it is due and by its key, in ascending order.
#[derive(Drop)]
pub(crate) struct DueMap<A: Ord + Copy> {
    entries: BTreeMap<EntryKey<A>, Due<A>>,
    waiting: BTreeSet<(u64, EntryKey<A>)>,
    ghost ascending: { IsOrdered (key_cmp A.cmp) entries } by { Prim.hlevel props },
    ghost waits: { AreWaiting (key_cmp A.cmp) waiting.keys entries.entries },
}

impl<A: Ord + Copy> DueMap<A> {
    /// Nothing is due.
    pub(crate) fn new(alloc: Global) -> Self
        ensures { result.entries.entries ≡ [] }
    {
        DueMap {
            entries: BTreeMap::new(alloc),
            waiting: BTreeSet::new(alloc),
        }
    }

    /// The entry with this key, if it is due.
    pub(crate) fn get(&self, key: EntryKey<A>) -> Option<Due<A>>
        ensures { result ≡ get (key_cmp A.cmp) self.now.entries key }
    {
        self.entries.get(&key).copied()
    }

    /// All entries, in the order of their keys.
    pub(crate) fn values(&self) -> Values<'_, EntryKey<A>, Due<A>>
        ensures { result ≡ values self.now.entries }
    {
        self.entries.values()
    }

    /// The entries from the first key on and before the second one, in the order of their keys.
    pub(crate) fn range(&self, from: EntryKey<A>, to: EntryKey<A>) -> Range<'_, EntryKey<A>, Due<A>>
        requires { key_cmp A.cmp from to ≡ Less }
        ensures { result ≡ entries_between (key_cmp A.cmp) (Included from) (Excluded to)
            self.now.entries.entries }
    {
        self.entries.range(from..to)
    }

    /// Removes the entry with this key.
    pub(crate) fn remove(&mut self, key: EntryKey<A>)
        ensures { self.new.entries.entries
            ≡ remove_entry (is_at (key_cmp A.cmp key)) self.old.entries.entries }
    {
        if let Some(held) = self.entries.remove(&key) {
            self.waiting.remove(&(held.since, key));
        }
    }

    /// Adds an entry that isn't due yet, and isn't reported. A refusal changes nothing.
    pub(crate) fn add(&mut self, key: EntryKey<A>, due: Due<A>) -> Result<(), AllocError>
        requires absent { get (key_cmp A.cmp) self.old.entries key ≡ None }
        requires waits { due.is_reported ≡ false }
        ensures added { OnOk result (self.new.entries.entries
            ≡ insert_entry (key_cmp A.cmp) self.old.entries.entries key due) }
        ensures err { OnErr result (self.new.entries.entries ≡ self.old.entries.entries) }
    {
        self.waiting.insert((due.since, key))?;
        let Ok(_) = self.entries.insert(key, due) else {
            self.waiting.remove(&(due.since, key));
            return Err(AllocError);
        };
        Ok(())
    }

    /// The key of an entry that becomes late, if there is one.
    pub(crate) fn first_late(&self, moment: u64, grace: u64) -> Option<EntryKey<A>>
        ensures late { IfSome result (λ key.
            late_if_due moment grace (get (key_cmp A.cmp) self.now.entries key) ≡ true) }
        ensures none { IfNone result (NoneIsLate moment grace self.now.entries.entries) }
    {
        let (since, key) = *self.waiting.first()?;
        if moment.saturating_sub(since) <= grace {
            return None;
        }
        Some(key)
    }

    /// Reports the entry with this key. Returns it as it was; `None` if it isn't due.
    pub(crate) fn report(&mut self, key: EntryKey<A>) -> Option<Due<A>>
        ensures held { result ≡ get (key_cmp A.cmp) self.old.entries key }
        ensures entries { IfSome result (λ held. self.new.entries.entries
            ≡ set_value (is_at (key_cmp A.cmp key)) self.old.entries.entries (reported held)) }
    {
        let held = self.get(key)?;
        self.waiting.remove(&(held.since, key));
        if let Some(due) = self.entries.get_mut(&key) {
            due.is_reported = true;
        }
        Some(held)
    }
}
