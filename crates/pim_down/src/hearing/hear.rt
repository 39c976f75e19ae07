//! What the events of a message do to the machines of a port. All of a message acts at one moment:
//! no timer fires while it is heard, and the next run fires those that are due.

ghost use Rattle.std.specs.Prelude.{◌≡◌, ◌≤◌, ◌+◌, ℕ, List, length};
ghost use Rattle.pim_down.specs.Words.{entry_seen, IsAscending, changed, each_changed, is_known};
ghost use Rattle.pim_down.specs.Words.{entry_events, start_of, on_own, is_rpt_of, on_rpts};
ghost use Rattle.pim_down.specs.Words.{is_star_join, key_of, act, is_rpt, beside_rpts, IsLateStart};
ghost use Rattle.pim_down.specs.Words.{rp_of, start_after, start_seen, machine_seen, what_seen};
ghost use Rattle.pim_down.specs.Words.{key_seen, records_seen, event_seen, events_seen};

use crate::machines::event::{Event, Timing};
use crate::machines::held::{Start, Timed, Waiting};
use crate::machines::key::{Key, OfFamily, What, compare_groups};
use crate::machines::machine::{on_join, on_prune, on_rpt_prune, on_star_join};
use crate::records::bound::Bound;
use crate::records::edits::{find_place, machine_of, put_machine};
use crate::records::store::RecordStore;
use pim_addr::{Family, Routes};
use pim_jp::Entry;
use sorted_blocks::Place;
use std::cmp::Ordering;

/// The holdtime of a Join/Prune message that never times out, in seconds (RFC 7761, 4.9.5).
const FOR_EVER: u16 = 0xffff;

/// The timers that a message of this holdtime starts at this moment.
pub(crate) fn start_at(holdtime: u16, timing: Timing, now: u64) -> Start
    requires moment { now ≤ 1000000000000000 }
    requires interval { timing.override_ms ≤ 98302 }
    ensures starts { start_after now (start_seen result) ≡ start_of holdtime timing }
    ensures late { IsLateStart now (start_seen result) }
{
    let expires_at = if holdtime == FOR_EVER {
        None
    } else {
        Some(now + u64::from(holdtime) * 1000)
    };
    let wait = if timing.several {
        timing.override_ms
    } else {
        0
    };
    Start {
        expires_at,
        pending: Waiting {
            ends_at: now + wait,
            several: timing.several,
        },
    }
}

/// Whether this address is RP(G) of the group by the route table.
fn is_known<F: Family>(routes: &Routes<F>, group: F::Addr, rp: F::Addr) -> bool
    ensures { result ≡ is_known (rp_of F.family routes.now (F.bytes_of group)) (F.bytes_of rp) }
{
    match routes.rp_of(group) {
        None => false,
        Some(known) => known == rp,
    }
}

/// The event of an entry of a joined or pruned list of the group. A Join(*,G) whose RP isn't RP(G)
/// is none (RFC 7761, 4.5.1). The table is asked only for a Join(*,G), and a set has at most one.
pub fn event_of<F: Family>(
    routes: &Routes<F>,
    joins: bool,
    group: F::Addr,
    entry: Entry<F::Addr>,
) -> Option<Event<F::Addr>>
    ensures { events_seen F.bytes_of result
        ≡ entry_events (rp_of F.family routes.now) joins (F.bytes_of group)
        (entry_seen F.bytes_of entry) }
{
    let what = match entry {
        Entry::Star(rp) => {
            if joins && !is_known::<F>(routes, group, rp) {
                return None;
            }
            What::Star
        }
        Entry::Source(source) => What::Source(source),
        Entry::Rpt(source) => What::Rpt(source),
    };
    Some(Event { joins, group, what })
}

/// What the event does to the machine that it names.
fn on_own<A>(event: &Event<A>, start: Start, held: Option<Timed>) -> Option<Timed>
    ensures { (bytes_of : A → List ℕ) → machine_seen result
        ≡ on_own event.now.joins (what_seen bytes_of event.now.what) (start_seen start)
        (machine_seen held) }
{
    match (&event.what, event.joins) {
        (What::Star | What::Source(_), true) => on_join(start, held),
        (What::Star | What::Source(_), false) => on_prune(start, held),
        (What::Rpt(_), true) => None,
        (What::Rpt(_), false) => on_rpt_prune(start, held),
    }
}

/// Whether the key is of an (S,G,rpt) machine of this group on this port.
pub(crate) fn is_rpt_of<F: Family>(key: &Key<F::Addr>, port: usize, group: F::Addr) -> bool
    ensures { result ≡ is_rpt_of port (F.bytes_of group) (key_seen F.bytes_of key.now) }
{
    key.port == port && matches!(key.what, What::Rpt(_)) && key.group == group
}

/// How a machine of a group compares with the start of the group's (S,G,rpt) machines.
fn beside_rpts<A>(what: &What<A>) -> Ordering
    ensures { (bytes_of : A → List ℕ) → result
        ≡ beside_rpts (is_rpt (what_seen bytes_of what.now)) }
{
    match what {
        What::Star | What::Source(_) => Ordering::Less,
        What::Rpt(_) => Ordering::Greater,
    }
}

/// The bound before the (S,G,rpt) machines of a group on a port.
#[derive(Drop)]
pub(crate) struct RptsOf<F: Family> {
    pub(crate) port: usize,
    pub(crate) group: F::Addr,
}

impl<F: Family> Bound<F::Addr> for RptsOf<F> {
    ghost use Rattle.pim_down.specs.Seen.{key_seen};
    ghost use Rattle.pim_down.specs.After.{is_before_rpts};

    ghost is_before = { λ bound key. is_before_rpts bound.port (F.bytes_of bound.group)
        (key_seen F.bytes_of key) };

    fn is_before(&self, key: &Key<F::Addr>) -> bool {
        compare_groups::<F>(key, self.port, self.group)
            .then(beside_rpts(&key.what))
            .is_lt()
    }
}

/// Applies Join(*,G) to the (S,G,rpt) machines of its group. It visits only these.
pub(crate) fn join_rpts<F: Family>(
    records: &mut RecordStore<F::Addr, OfFamily<F>>,
    port: usize,
    group: F::Addr,
)
    requires { IsAscending (records_seen F.bytes_of records.old.items) }
    ensures records { records_seen F.bytes_of records.new.items
        ≡ each_changed (on_rpts port (F.bytes_of group))
        (records_seen F.bytes_of records.old.items) }
    ensures capacity { records.new.capacity ≡ records.old.capacity }
{
    let mut place = records.first_behind(Place::START, &RptsOf::<F> { port, group });
    while records.is_item(place) {
        let held = records.get(place);
        if !is_rpt_of::<F>(&held.key, port, group) {
            return;
        }
        let machine = on_star_join(held.machine);
        records.set_machine(place, machine);
        place = records.next(place);
    }
}

/// Whether the event is a Join(*,G).
pub(crate) fn is_star_join<A>(event: &Event<A>) -> bool
    ensures { (bytes_of : A → List ℕ) → result ≡ is_star_join (event_seen bytes_of event.now) }
{
    event.joins && matches!(event.what, What::Star)
}

/// Applies an event to the machine that it names, and to no other. The search begins near a place,
/// and leaves the place that it found.
pub(crate) fn act_on_own<F: Family>(
    records: &mut RecordStore<F::Addr, OfFamily<F>>,
    near: &mut Place,
    port: usize,
    start: Start,
    event: Event<F::Addr>,
)
    requires ascending { IsAscending (records_seen F.bytes_of records.old.items) }
    requires room { length (act port (start_seen start) (event_seen F.bytes_of event)
        (records_seen F.bytes_of records.old.items)) ≤ records.old.capacity }
    ensures records { records_seen F.bytes_of records.new.items
        ≡ changed (key_of port (event_seen F.bytes_of event))
        (on_own event.joins (what_seen F.bytes_of event.what) (start_seen start))
        (records_seen F.bytes_of records.old.items) }
    ensures capacity { records.old.capacity ≤ records.new.capacity }
{
    let key = Key {
        port,
        group: event.group,
        what: event.what,
    };
    let found = find_place::<F>(records, *near, &key);
    let held = machine_of::<F>(records, &key, found);
    let place = put_machine::<F>(records, key, found, on_own(&event, start, held));
    *near = place;
}

/// Applies an event to the machines of a port. The search begins near a place, and leaves the place
/// that it found.
pub(crate) fn act<F: Family>(
    records: &mut RecordStore<F::Addr, OfFamily<F>>,
    near: &mut Place,
    port: usize,
    start: Start,
    event: Event<F::Addr>,
)
    requires ascending { IsAscending (records_seen F.bytes_of records.old.items) }
    requires room { length (act port (start_seen start) (event_seen F.bytes_of event)
        (records_seen F.bytes_of records.old.items)) ≤ records.old.capacity }
    ensures records { records_seen F.bytes_of records.new.items
        ≡ act port (start_seen start) (event_seen F.bytes_of event)
        (records_seen F.bytes_of records.old.items) }
    ensures capacity { records.old.capacity ≤ records.new.capacity }
{
    act_on_own::<F>(records, near, port, start, event);
    if is_star_join(&event) {
        join_rpts::<F>(records, port, event.group);
    }
}
