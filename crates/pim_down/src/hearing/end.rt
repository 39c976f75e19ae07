//! End of Message (RFC 7761, 4.5.3, Figure 4). Between messages no machine is in a Tmp state, and
//! within one only a Join(*,G) puts machines of its group into one. So End of Message visits only
//! groups that had a Join(*,G) that counts: a message without one costs no walk.

ghost use Rattle.std.specs.Prelude.{◌≡◌, not, map, true, Some};
ghost use Rattle.pim_down.specs.Words.{filter, list_any, IsAscending, each_changed, at_end};
ghost use Rattle.pim_down.specs.Words.{events_of, is_star_join, list_events, rp_of, is_over_in};
ghost use Rattle.pim_down.specs.Words.{AreOverIn, records_seen, event_seen, is_temporary};

use crate::hearing::hear::{RptsOf, event_of, is_rpt_of, is_star_join};
use crate::machines::event::Event;
use crate::machines::key::OfFamily;
use crate::machines::machine::State;
use crate::records::store::RecordStore;
use pim_addr::{Family, Routes};
use pim_jp::{Entries, JpView};
use sorted_blocks::Place;

/// Whether a machine has the state only while a message is heard.
fn is_temporary(state: State) -> bool
    ensures { result ≡ is_temporary state }
{
    matches!(state, State::PruneTmp | State::PrunePendingTmp)
}

/// Applies End of Message to the (S,G,rpt) machines of a group. It visits only these.
fn end_group<F: Family>(
    records: &mut RecordStore<F::Addr, OfFamily<F>>,
    port: usize,
    group: F::Addr,
)
    requires { IsAscending (records_seen F.bytes_of records.old.items) }
    ensures { records_seen F.bytes_of records.new.items
        ≡ filter (λ held. not (is_over_in port (F.bytes_of group) held))
        (records_seen F.bytes_of records.old.items) }
{
    let mut place = records.first_behind(Place::START, &RptsOf::<F> { port, group });
    while records.is_item(place) {
        let held = records.get(place);
        if !is_rpt_of::<F>(&held.key, port, group) {
            return;
        }
        if is_temporary(held.machine.state) {
            place = records.remove(place);
        } else {
            place = records.next(place);
        }
    }
}

/// Returns whether a joined list of the group has a Join(\*,G) whose RP is RP(G).
pub fn has_star_join<F: Family>(routes: &Routes<F>, group: F::Addr, joined: Entries<'_, F>) -> bool
    ensures { result ≡ list_any is_star_join
        (list_events (rp_of F.family routes.now) true (F.bytes_of group) joined.entry) }
{
    for entry in joined {
        match event_of::<F>(routes, true, group, entry) {
            Some(event) => {
                if is_star_join(&event) {
                    return true;
                }
            }
            None => {}
        }
    }
    false
}

/// Applies End of Message to the (S,G,rpt) machines of a port, after the sets of a message. Those
/// in a Tmp state are of groups for which the message had a Join(*,G), and it visits only these.
pub(crate) fn end_sets<F: Family>(
    records: &mut RecordStore<F::Addr, OfFamily<F>>,
    port: usize,
    routes: &Routes<F>,
    message: &JpView<'_, F>,
)
    requires ascending { IsAscending (records_seen F.bytes_of records.old.items) }
    requires groups { AreOverIn port (events_of (rp_of F.family routes.now) message.now)
        (records_seen F.bytes_of records.old.items) }
    ensures { records_seen F.bytes_of records.new.items
        ≡ each_changed (at_end port) (records_seen F.bytes_of records.old.items) }
{
    for set in message.sets() {
        let group = set.group();
        if has_star_join::<F>(routes, group, set.joined()) {
            end_group::<F>(records, port, group);
        }
    }
}

/// Applies End of Message to the (S,G,rpt) machines of a group. The last group has none left.
fn end_next<F: Family>(
    records: &mut RecordStore<F::Addr, OfFamily<F>>,
    port: usize,
    group: F::Addr,
    last: Option<F::Addr>,
)
    requires ascending { IsAscending (records_seen F.bytes_of records.old.items) }
    requires ended { (other : F.Addr) → last ≡ Some other
        → records_seen F.bytes_of records.old.items
        ≡ filter (λ held. not (is_over_in port (F.bytes_of other) held))
        (records_seen F.bytes_of records.old.items) }
    ensures { records_seen F.bytes_of records.new.items
        ≡ filter (λ held. not (is_over_in port (F.bytes_of group) held))
        (records_seen F.bytes_of records.old.items) }
{
    match last {
        Some(other) if other == group => {}
        _ => end_group::<F>(records, port, group),
    }
}

/// The same as `end_sets`, after the events of a list. If the events of each group are side by
/// side, it visits each group once.
pub(crate) fn end_events<F: Family>(
    records: &mut RecordStore<F::Addr, OfFamily<F>>,
    port: usize,
    events: &[Event<F::Addr>],
)
    requires ascending { IsAscending (records_seen F.bytes_of records.old.items) }
    requires groups { AreOverIn port (map (event_seen F.bytes_of) events.now)
        (records_seen F.bytes_of records.old.items) }
    ensures { records_seen F.bytes_of records.new.items
        ≡ each_changed (at_end port) (records_seen F.bytes_of records.old.items) }
{
    let mut last = None;
    for event in events {
        if is_star_join(event) {
            end_next::<F>(records, port, event.group, last);
            last = Some(event.group);
        }
    }
}
