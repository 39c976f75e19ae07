//! Counts and hears the entries of a message. The new records are counted, and memory for them is
//! reserved in one step, before the first change: so a refusal changes nothing. End of Message
//! comes once, after the last set, since several sets may be of one group.

ghost use Rattle.std.specs.Prelude.{◌≡◌, ◌≤◌, ◌<◌, ◌+◌, ℕ, List, map, length};
ghost use Rattle.std.specs.Prelude.{OnOk, OnErr, IfOk, IfSome};
ghost use Rattle.pim_down.specs.Words.{flat_map, IsAscending, count_on, list_events, set_events};
ghost use Rattle.pim_down.specs.Words.{events_of, act_all, hearing, creates, is_new, count_new};
ghost use Rattle.pim_down.specs.Words.{needed, IsWithin, MayWantMemory, OnFull, rp_of, AreAlike};
ghost use Rattle.pim_down.specs.Words.{HasRoom, IsSettled, start_seen, records_seen, event_seen};

use crate::hearing::end::{end_events, end_sets};
use crate::hearing::hear::{act, event_of};
use crate::hearing::listed::hear_events;
use crate::hearing::ordered::{entry_count, in_key_order};
use crate::hearing::refresh::refresh_front;
use crate::machines::event::Event;
use crate::machines::fault::HearFault;
use crate::machines::held::Arrival;
use crate::machines::key::{Key, OfFamily, What};
use crate::records::edits::{find_place, place_of};
use crate::records::store::RecordStore;
use crate::records::walk::count_on;
use pim_addr::{Family, Routes};
use pim_jp::{Entries, JpView, Sets};
use sorted_blocks::Place;
use std::alloc::{AllocError, Global};

/// Whether the event creates a record where none is held.
fn creates<A>(event: &Event<A>) -> bool
    ensures { (bytes_of : A → List ℕ) → result ≡ creates (event_seen bytes_of event.now) }
{
    match &event.what {
        What::Star | What::Source(_) => event.joins,
        What::Rpt(_) => !event.joins,
    }
}

/// Whether the event creates a record that isn't held. The search begins near a place, and leaves
/// the place that it found.
fn is_new<F: Family>(
    records: &RecordStore<F::Addr, OfFamily<F>>,
    near: &mut Place,
    port: usize,
    event: &Event<F::Addr>,
) -> bool
    requires { IsAscending (records_seen F.bytes_of records.now.items) }
    ensures { result
        ≡ is_new port (records_seen F.bytes_of records.now.items)
        (event_seen F.bytes_of event.now) }
{
    let key = Key {
        port,
        group: event.group,
        what: event.what,
    };
    let found = find_place::<F>(records, *near, &key);
    let place = place_of(found);
    *near = place;
    creates(event) && found.is_err()
}

/// The entries of one list of a group set, and the group.
struct GroupEntries<'a, F: Family> {
    group: F::Addr,
    entries: Entries<'a, F>,
}

/// How many entries of one list create a record that isn't held.
fn count_list<F: Family>(
    records: &RecordStore<F::Addr, OfFamily<F>>,
    near: &mut Place,
    port: usize,
    routes: &Routes<F>,
    joins: bool,
    list: GroupEntries<'_, F>,
) -> usize
    requires { IsAscending (records_seen F.bytes_of records.now.items) }
    ensures count { result ≡ count_new port (records_seen F.bytes_of records.now.items)
        (list_events (rp_of F.family routes.now) joins (F.bytes_of list.entry.group)
        list.entry.entries) }
    ensures bound { result ≤ 65535 }
{
    let GroupEntries { group, entries } = list;
    let _most = entries.count_left();
    let mut count = 0;
    for entry in entries {
        if let Some(event) = event_of::<F>(routes, joins, group, entry) {
            if is_new::<F>(records, near, port, &event) {
                count += 1;
            }
        }
    }
    count
}

/// Hears the entries of one list of a message: those that put off timers of records side by side at
/// once, the others one by one.
fn hear_list<F: Family>(
    records: &mut RecordStore<F::Addr, OfFamily<F>>,
    near: &mut Place,
    arrival: Arrival,
    routes: &Routes<F>,
    joins: bool,
    list: GroupEntries<'_, F>,
)
    requires ascending { IsAscending (records_seen F.bytes_of records.old.items) }
    requires room { HasRoom arrival.port (start_seen arrival.start) records.old.capacity
        (list_events (rp_of F.family routes.now) joins (F.bytes_of list.group) list.entries)
        (records_seen F.bytes_of records.old.items) }
    ensures records { records_seen F.bytes_of records.new.items
        ≡ act_all arrival.port (start_seen arrival.start)
        (list_events (rp_of F.family routes.now) joins (F.bytes_of list.entry.group)
        list.entry.entries)
        (records_seen F.bytes_of records.old.items) }
    ensures capacity { records.old.capacity ≤ records.new.capacity }
{
    let GroupEntries { group, entries } = list;
    let mut left = entries;
    loop {
        let _taken = refresh_front::<F>(records, near, arrival, joins, group, &mut left);
        let Some(entry) = left.next() else {
            return;
        };
        match event_of::<F>(routes, joins, group, entry) {
            Some(event) => act::<F>(records, near, arrival.port, arrival.start, event),
            None => {}
        }
    }
}

/// How many entries of these sets create a record that isn't held, repeats counted.
fn count_sets<F: Family>(
    records: &RecordStore<F::Addr, OfFamily<F>>,
    port: usize,
    routes: &Routes<F>,
    sets: Sets<'_, F>,
) -> usize
    requires { IsAscending (records_seen F.bytes_of records.now.items) }
    ensures count { result ≡ count_new port (records_seen F.bytes_of records.now.items)
        (flat_map (set_events (rp_of F.family routes.now)) sets.entry) }
    ensures bound { result ≤ 33422850 }
{
    let _most = sets.count_left();
    let mut near = Place::START;
    let mut count = 0;
    for set in sets {
        let group = set.group();
        let entries = set.joined();
        let list = GroupEntries { group, entries };
        let joined = count_list::<F>(records, &mut near, port, routes, true, list);
        let entries = set.pruned();
        let list = GroupEntries { group, entries };
        let pruned = count_list::<F>(records, &mut near, port, routes, false, list);
        count += joined + pruned;
    }
    count
}

/// Hears the sets of a message, without End of Message.
///
/// It looks up each entry at most once, and walks through the (S,G,rpt) machines of a group at each
/// of its Joins(*,G).
fn hear_sets<F: Family>(
    records: &mut RecordStore<F::Addr, OfFamily<F>>,
    arrival: Arrival,
    routes: &Routes<F>,
    message: &JpView<'_, F>,
)
    requires ascending { IsAscending (records_seen F.bytes_of records.old.items) }
    requires room { HasRoom arrival.port (start_seen arrival.start) records.old.capacity
        (events_of (rp_of F.family routes.now) message.now)
        (records_seen F.bytes_of records.old.items) }
    ensures { records_seen F.bytes_of records.new.items
        ≡ act_all arrival.port (start_seen arrival.start)
        (events_of (rp_of F.family routes.now) message.now)
        (records_seen F.bytes_of records.old.items) }
{
    let mut near = Place::START;
    for set in message.sets() {
        let group = set.group();
        let entries = set.joined();
        let list = GroupEntries { group, entries };
        hear_list::<F>(records, &mut near, arrival, routes, true, list);
        let entries = set.pruned();
        let list = GroupEntries { group, entries };
        hear_list::<F>(records, &mut near, arrival, routes, false, list);
    }
}

/// Judges whether the port's records and the message's new ones, repeats counted, are within the
/// limit. It takes no memory.
///
/// Returns a number of records for which room suffices: that of all entries if the limit allows as
/// many, else that of the new ones.
fn judge_full<F: Family>(
    records: &RecordStore<F::Addr, OfFamily<F>>,
    limit: usize,
    port: usize,
    routes: &Routes<F>,
    message: &JpView<'_, F>,
) -> Result<usize, HearFault>
    requires ascending { IsAscending (records_seen F.bytes_of records.now.items) }
    requires port { port < 64 }
    requires within { count_on port (records_seen F.bytes_of records.now.items) ≤ 100000 }
    ensures most { IfOk result (λ most.
        count_new port (records_seen F.bytes_of records.now.items)
        (events_of (rp_of F.family routes.now) message.now) ≤ most) }
    ensures memory { MayWantMemory 0 result }
    ensures room { IsWithin limit (needed port (records_seen F.bytes_of records.now.items)
        (events_of (rp_of F.family routes.now) message.now)) result }
{
    let held = count_on::<F>(records, port);
    let entries = entry_count::<F>(message);
    if held + entries <= limit {
        return Ok(entries);
    }
    let fresh = count_sets::<F>(records, port, routes, message.sets());
    let needed = held + fresh;
    if needed > limit {
        return Err(HearFault::Full { needed });
    }
    Ok(fresh)
}

/// Takes memory for this many records, or else for those that the message makes: only then it
/// counts them. It is refused only if the message makes a record.
fn make_room<F: Family>(
    records: &mut RecordStore<F::Addr, OfFamily<F>>,
    port: usize,
    routes: &Routes<F>,
    message: &JpView<'_, F>,
    most: usize,
) -> Result<(), AllocError>
    requires ascending { IsAscending (records_seen F.bytes_of records.old.items) }
    requires most { count_new port (records_seen F.bytes_of records.old.items)
        (events_of (rp_of F.family routes.now) message.now) ≤ most }
    ensures ok { OnOk result (length records.new.items
        + count_new port (records_seen F.bytes_of records.old.items)
        (events_of (rp_of F.family routes.now) message.now) ≤ records.new.capacity) }
    ensures err { OnErr result (1 ≤ count_new port (records_seen F.bytes_of records.old.items)
        (events_of (rp_of F.family routes.now) message.now)) }
    ensures items { records.new.items ≡ records.old.items }
{
    if records.reserve(most).is_ok() {
        return Ok(());
    }
    let fresh = count_sets::<F>(records, port, routes, message.sets());
    records.reserve(fresh)
}

/// Hears the events of a message, which may be in a list of their own, and End of Message.
fn hear_all<F: Family>(
    records: &mut RecordStore<F::Addr, OfFamily<F>>,
    arrival: Arrival,
    routes: &Routes<F>,
    message: &JpView<'_, F>,
    ordered: &Option<Vec<Event<F::Addr>>>,
)
    requires ascending { IsAscending (records_seen F.bytes_of records.old.items) }
    requires settled { IsSettled (records_seen F.bytes_of records.old.items) }
    requires alike { IfSome ordered.now
        (λ events. AreAlike (map (event_seen F.bytes_of) events.items)
        (events_of (rp_of F.family routes.now) message.now)) }
    requires room { length records.old.items
        + count_new arrival.port (records_seen F.bytes_of records.old.items)
        (events_of (rp_of F.family routes.now) message.now) ≤ records.old.capacity }
    ensures { records_seen F.bytes_of records.new.items
        ≡ hearing arrival.port (start_seen arrival.start)
        (events_of (rp_of F.family routes.now) message.now)
        (records_seen F.bytes_of records.old.items) }
{
    match ordered {
        Some(events) => {
            hear_events::<F>(records, arrival, events);
            end_events::<F>(records, arrival.port, events);
        }
        None => {
            hear_sets::<F>(records, arrival, routes, message);
            end_sets::<F>(records, arrival.port, routes, message);
        }
    }
}

/// Hears a message on a port, or refuses it and changes no record. `Full` is judged before anything
/// takes memory, the list of sorted events included. A refusal as `Full` keeps the capacity, too;
/// one as `Memory` may raise it. All growth of the records comes before the first change.
pub(crate) fn hear_message<F: Family>(
    alloc: Global,
    records: &mut RecordStore<F::Addr, OfFamily<F>>,
    limit: usize,
    arrival: Arrival,
    routes: &Routes<F>,
    message: &JpView<'_, F>,
) -> Result<(), HearFault>
    requires ascending { IsAscending (records_seen F.bytes_of records.old.items) }
    requires settled { IsSettled (records_seen F.bytes_of records.old.items) }
    requires port { arrival.port < 64 }
    requires within { count_on arrival.port (records_seen F.bytes_of records.old.items) ≤ 100000 }
    ensures ok { OnOk result (records_seen F.bytes_of records.new.items
        ≡ hearing arrival.port (start_seen arrival.start)
        (events_of (rp_of F.family routes.now) message.now)
        (records_seen F.bytes_of records.old.items)) }
    ensures err { OnErr result (records.new.items ≡ records.old.items) }
    ensures kept { OnFull result (records.new ≡ records.old) }
    ensures memory { MayWantMemory
        (count_new arrival.port (records_seen F.bytes_of records.old.items)
        (events_of (rp_of F.family routes.now) message.now)) result }
    ensures room { IsWithin limit (needed arrival.port (records_seen F.bytes_of records.old.items)
        (events_of (rp_of F.family routes.now) message.now)) result }
{
    let most = judge_full::<F>(records, limit, arrival.port, routes, message)?;
    if make_room::<F>(records, arrival.port, routes, message, most).is_err() {
        return Err(HearFault::Memory);
    }
    let ordered = in_key_order::<F>(alloc, routes, message);
    hear_all::<F>(records, arrival, routes, message, &ordered);
    Ok(())
}
