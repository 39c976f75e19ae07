//! Hears the events of a message from a list of their own.

ghost use Rattle.std.specs.Prelude.{◌≡◌, ◌≤◌, ◌<◌, ◌+◌, map, length, slice_index_or, Some};
ghost use Rattle.pim_down.specs.Words.{IsAscending, changed, each_changed, act, act_all, on_rpts};
ghost use Rattle.pim_down.specs.Words.{StayButListed, IsLast, HasRoom, rpt_key, on_star_join};
ghost use Rattle.pim_down.specs.Words.{start_seen, records_seen, event_seen};

use crate::hearing::hear::{act_on_own, is_star_join, join_rpts};
use crate::machines::event::Event;
use crate::machines::held::Arrival;
use crate::machines::key::{Key, OfFamily, What};
use crate::machines::machine::on_star_join;
use crate::records::edits::{find_place, place_of, replace_at};
use crate::records::store::RecordStore;
use pim_addr::Family;
use sorted_blocks::Place;

/// The last Join(*,G) that was heard from the list: its group, and the index after it.
#[derive(Clone, Copy)]
pub(crate) struct LastStar<A> {
    group: Option<A>,
    behind: usize,
}

/// An event of the list, and its index.
#[derive(Clone, Copy)]
struct Numbered<A> {
    index: usize,
    event: Event<A>,
}

/// Applies Join(*,G) to the (S,G,rpt) machine of this source. The search begins near a place, and
/// leaves the place that it found.
fn join_rpt<F: Family>(
    records: &mut RecordStore<F::Addr, OfFamily<F>>,
    near: &mut Place,
    port: usize,
    group: F::Addr,
    source: F::Addr,
)
    requires { IsAscending (records_seen F.bytes_of records.old.items) }
    ensures records { records_seen F.bytes_of records.new.items
        ≡ changed (rpt_key port (F.bytes_of group) (F.bytes_of source)) on_star_join
        (records_seen F.bytes_of records.old.items) }
    ensures capacity { records.new.capacity ≡ records.old.capacity }
{
    let key = Key {
        port,
        group,
        what: What::Rpt(source),
    };
    let found = find_place::<F>(records, *near, &key);
    *near = place_of(found);
    match found {
        Ok(place) => {
            let machine = on_star_join(records.get(place).machine);
            replace_at(records, place, Some(machine));
        }
        Err(_) => {}
    }
}

/// Applies Join(*,G) to the (S,G,rpt) machines of its group. It changes only machines that these
/// events name.
fn join_entries<F: Family>(
    records: &mut RecordStore<F::Addr, OfFamily<F>>,
    near: &mut Place,
    port: usize,
    group: F::Addr,
    named: &[Event<F::Addr>],
)
    requires ascending { IsAscending (records_seen F.bytes_of records.old.items) }
    requires stay { StayButListed port (F.bytes_of group) (map (event_seen F.bytes_of) named.now)
        (records_seen F.bytes_of records.old.items) }
    ensures records { records_seen F.bytes_of records.new.items
        ≡ each_changed (on_rpts port (F.bytes_of group))
        (records_seen F.bytes_of records.old.items) }
    ensures capacity { records.new.capacity ≡ records.old.capacity }
{
    for event in named {
        match event.what {
            What::Rpt(source) => join_rpt::<F>(records, near, port, group, source),
            What::Star | What::Source(_) => {}
        }
    }
}

/// Applies Join(*,G) to the (S,G,rpt) machines of its group. If the last Join(*,G) was of the same
/// group, it visits only those that the events since then name, since the others don't change.
/// Otherwise it visits all.
fn join_listed<F: Family>(
    records: &mut RecordStore<F::Addr, OfFamily<F>>,
    near: &mut Place,
    port: usize,
    group: F::Addr,
    last: Option<F::Addr>,
    since: &[Event<F::Addr>],
)
    requires ascending { IsAscending (records_seen F.bytes_of records.old.items) }
    requires stay { (other : F.Addr) → last ≡ Some other →
        StayButListed port (F.bytes_of other) (map (event_seen F.bytes_of) since.now)
        (records_seen F.bytes_of records.old.items) }
    ensures records { records_seen F.bytes_of records.new.items
        ≡ each_changed (on_rpts port (F.bytes_of group))
        (records_seen F.bytes_of records.old.items) }
    ensures capacity { records.new.capacity ≡ records.old.capacity }
{
    match last {
        Some(other) if other == group => join_entries::<F>(records, near, port, group, since),
        _ => join_rpts::<F>(records, port, group),
    }
}

/// Applies the event at this index, after those before it. Returns the last Join(*,G) so far.
fn act_listed<F: Family>(
    records: &mut RecordStore<F::Addr, OfFamily<F>>,
    near: &mut Place,
    arrival: Arrival,
    events: &[Event<F::Addr>],
    this: Numbered<F::Addr>,
    last: LastStar<F::Addr>,
) -> LastStar<F::Addr>
    requires within { this.index < length events.now }
    requires event { this.event ≡ slice_index_or events.now this.index this.event }
    requires ascending { IsAscending (records_seen F.bytes_of records.old.items) }
    requires room { length (act arrival.port (start_seen arrival.start)
        (event_seen F.bytes_of this.event)
        (records_seen F.bytes_of records.old.items)) ≤ records.old.capacity }
    requires last { IsLast F.bytes_of arrival.port events.now this.index last
        (records_seen F.bytes_of records.old.items) }
    ensures records { records_seen F.bytes_of records.new.items
        ≡ act arrival.port (start_seen arrival.start)
        (event_seen F.bytes_of this.event)
        (records_seen F.bytes_of records.old.items) }
    ensures capacity { records.old.capacity ≤ records.new.capacity }
    ensures last { IsLast F.bytes_of arrival.port events.now (this.index
        + 1) result (records_seen F.bytes_of records.new.items) }
{
    let Arrival { port, start } = arrival;
    let Numbered { index, event } = this;
    act_on_own::<F>(records, near, port, start, event);
    if !is_star_join(&event) {
        return last;
    }
    let (before, _) = events.split_at(index);
    let (_, since) = before.split_at(last.behind);
    join_listed::<F>(records, near, port, event.group, last.group, since);
    LastStar {
        group: Some(event.group),
        behind: index + 1,
    }
}

/// Hears these events, one after another.
///
/// It looks up each event once, and one of an (S,G,rpt) machine once more if a Join(*,G) of its
/// group follows it. If the events of each group are side by side, it walks once through the
/// (S,G,rpt) machines of each group that has a Join(*,G).
pub(crate) fn hear_events<F: Family>(
    records: &mut RecordStore<F::Addr, OfFamily<F>>,
    arrival: Arrival,
    events: &[Event<F::Addr>],
)
    requires ascending { IsAscending (records_seen F.bytes_of records.old.items) }
    requires room { HasRoom arrival.port (start_seen arrival.start) records.old.capacity
        (map (event_seen F.bytes_of) events.now)
        (records_seen F.bytes_of records.old.items) }
    ensures { records_seen F.bytes_of records.new.items
        ≡ act_all arrival.port (start_seen arrival.start)
        (map (event_seen F.bytes_of) events.now) (records_seen F.bytes_of records.old.items) }
{
    let mut near = Place::START;
    let mut last = LastStar {
        group: None,
        behind: 0,
    };
    for index in 0..events.len() {
        let event = events[index];
        let this = Numbered { index, event };
        last = act_listed::<F>(records, &mut near, arrival, events, this, last);
    }
}
