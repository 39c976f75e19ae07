//! Refreshes of joined (S,G) machines. Entries in front of a joined list often name records that
//! stand one after another and end at one time: then all their Expiry Timers are put off by one
//! call.
//!
//! One end is needed. Timers of several ends would fire in another order once they have one end.

ghost use Rattle.std.specs.Prelude.{◌≡◌, ◌≤◌, ℕ, List, Option, Some, IfSome, length, take, drop};
ghost use Rattle.sorted_slab.specs.Listed.{at, IsItem};
ghost use Rattle.pim_jp.specs.Seen.{entry_seen};
ghost use Rattle.pim_down.specs.Hearing.{list_events, act_all};
ghost use Rattle.pim_down.specs.Records.{IsAscending};
ghost use Rattle.pim_down.specs.Refresh.{is_source_of, is_joined_until, names_joined};
ghost use Rattle.pim_down.specs.Refresh.{AreJoinedUntil};
ghost use Rattle.pim_down.specs.Seen.{start_seen, timed_seen, key_seen, record_seen, records_seen};

use crate::machines::held::{Arrival, Held, Timed};
use crate::machines::key::{Key, OfFamily, What};
use crate::machines::machine::State;
use crate::records::store::RecordStore;
use pim_addr::Family;
use pim_jp::{Entries, Entry};
use sorted_blocks::Place;
use sorted_blocks::laws::item_has_a_place;

/// Whether the key is of the (S,G) machine of this source and group on the port.
fn is_source_of<F: Family>(key: &Key<F::Addr>, port: usize, group: F::Addr, source: F::Addr) -> bool
    ensures { result ≡ is_source_of port (F.bytes_of group) (F.bytes_of source)
        (key_seen F.bytes_of key.now) }
{
    match key.what {
        What::Source(held) => held == source && (key.group == group && key.port == port),
        What::Star | What::Rpt(_) => false,
    }
}

/// Whether the machine is in Join until this time.
fn is_joined_until(machine: &Timed, from: u64) -> bool
    ensures { result ≡ is_joined_until from (timed_seen machine.now) }
{
    match machine.expires_at {
        Some(ends_at) => ends_at == from && matches!(machine.state, State::Join),
        None => false,
    }
}

/// Whether the entry names this (S,G) record, which is in Join until this time.
fn names_joined<F: Family>(
    held: &Held<F::Addr>,
    from: u64,
    port: usize,
    group: F::Addr,
    entry: Entry<F::Addr>,
) -> bool
    ensures { result ≡ names_joined port (F.bytes_of group) from (record_seen F.bytes_of held.now)
        (entry_seen F.bytes_of entry) }
{
    match entry {
        Entry::Source(source) => {
            is_joined_until(&held.machine, from)
                && is_source_of::<F>(&held.key, port, group, source)
        }
        Entry::Star(_) | Entry::Rpt(_) => false,
    }
}

/// How many entries in front name the records from this place on, one after another, each of them
/// in Join until this time.
fn count_refreshed<F: Family>(
    records: &RecordStore<F::Addr, OfFamily<F>>,
    place: Place,
    from: u64,
    port: usize,
    group: F::Addr,
    entries: Entries<'_, F>,
) -> usize
    requires { IsItem records.now place }
    ensures { AreJoinedUntil port (F.bytes_of group) from result
        (records_seen F.bytes_of (drop (at records.now place) records.now.items)) entries.entry }
{
    item_has_a_place::<usize>();
    let most = usize::from(entries.count_left());
    let mut left = entries;
    let mut count = 0;
    for held in records.walk(place, most) {
        let Some(entry) = left.next() else {
            return count;
        };
        if !names_joined::<F>(held, from, port, group, entry) {
            return count;
        }
        count += 1;
    }
    count
}

/// The place of the record that the first entry names, if it is an (S,G) record at this place or
/// the next one.
fn front_place<F: Family>(
    records: &RecordStore<F::Addr, OfFamily<F>>,
    near: Place,
    port: usize,
    group: F::Addr,
    entries: Entries<'_, F>,
) -> Option<Place>
    ensures { IfSome result (λ place. IsItem records.now place) }
{
    let mut left = entries;
    let Some(Entry::Source(source)) = left.next() else {
        return None;
    };
    if !records.is_item(near) {
        return None;
    }
    if is_source_of::<F>(&records.get(near).key, port, group, source) {
        return Some(near);
    }
    let next = records.next(near);
    if !records.is_item(next) {
        return None;
    }
    if is_source_of::<F>(&records.get(next).key, port, group, source) {
        return Some(next);
    }
    None
}

/// The place that is `count` records after this one; that of the last one where they are fewer.
fn place_after<F: Family>(
    records: &RecordStore<F::Addr, OfFamily<F>>,
    place: Place,
    count: usize,
) -> Place {
    let mut place = place;
    for _ in 0..count {
        if !records.is_item(place) {
            return place;
        }
        place = records.next(place);
    }
    place
}

/// Hears entries in front of a joined list, if they put off the Expiry Timers of joined (S,G)
/// machines: those whose records stand one after another, at the hint or right after it, and end at
/// one time. It leaves the place after the last of these records. Returns how many it hears, which
/// may be none.
#[tactic(auto, unfolding(crate::specs::Hearing::act_all))]
pub(crate) fn refresh_front<F: Family>(
    records: &mut RecordStore<F::Addr, OfFamily<F>>,
    near: &mut Place,
    arrival: Arrival,
    joins: bool,
    group: F::Addr,
    entries: &mut Entries<'_, F>,
) -> usize
    requires ascending { IsAscending (records_seen F.bytes_of records.old.items) }
    ensures within { result ≤ length entries.old }
    ensures entries { entries.new ≡ drop result entries.old }
    ensures records { (known : List ℕ → Option (List ℕ)) → records_seen F.bytes_of records.new.items
        ≡ act_all arrival.port (start_seen arrival.start)
        (list_events known joins (F.bytes_of group) (take result entries.old))
        (records_seen F.bytes_of records.old.items) }
    ensures capacity { records.new.capacity ≡ records.old.capacity }
{
    let Arrival { port, start } = arrival;
    let Some(to) = start.expires_at else {
        return 0;
    };
    if !joins {
        return 0;
    }
    let Some(place) = front_place::<F>(records, *near, port, group, entries.again()) else {
        return 0;
    };
    let Some(from) = records.get(place).machine.expires_at else {
        return 0;
    };
    if from >= to {
        return 0;
    }
    let count = count_refreshed::<F>(records, place, from, port, group, entries.again());
    let done = records.put_off(place, count, from, to);
    entries.pass(done);
    *near = place_after::<F>(records, place, done);
    done
}
