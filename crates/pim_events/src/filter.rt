//! Which events are shown.

ghost use Rattle.std.specs.Prelude.{◌≡◌, ◌||◌, ◌&&◌, ◌==◌, not, nat_lt, length, map, bytes_eq};
ghost use Rattle.std.specs.Prelude.{option_map};
ghost use Rattle.std.specs.List.{list_any};
ghost use Rattle.pim_down.specs.Seen.{what_seen};
ghost use Rattle.pim_jp.specs.Seen.{entry_seen};
ghost use Rattle.pim_events.specs.Events.{event_seen, happening_seen, transition_seen};
ghost use Rattle.pim_events.specs.Events.{wanted_what_seen};
ghost use Rattle.pim_events.specs.Parts.{pending_in};
ghost use Rattle.pim_events.specs.Filter.{filter_seen, is_same_again, is_usual, state_number};
ghost use Rattle.pim_events.specs.Filter.{keeps_state, is_over};
ghost use Rattle.pim_events.specs.Filter.{may_hold_pim, is_news, is_wanted, is_wanted_machine};
ghost use Rattle.pim_events.specs.Filter.{is_wanted_entry, is_chosen_part};
ghost use Rattle.pim_events.specs.Filter.{has_wanted_entry, is_wanted_set, is_wanted_message};
ghost use Rattle.pim_events.specs.Filter.{is_wanted_packet};
ghost use Rattle.pim_events.specs.Filter.{is_chosen, is_early, is_epoch_before, is_end, is_shown};

use crate::event::{Happening, Skip, TraceEvent, TransitionEvent, WantedWhat};
use crate::parts::{pending_in, state_in};
use pim_addr::Family;
use pim_capture::Why;
use pim_down::{Pending, State, What};
use pim_hello::Heard;
use pim_jp::{Entries, Entry, JpView, SetView};
use pim_router::Verdict;
use pim_time::Time;

/// Which events a user wants to see.
#[derive(Clone, Copy, Debug)]
pub struct Filter<'a, A> {
    /// Whether events that change nothing are shown, too (`--all`).
    pub all: bool,
    /// The groups that are shown (`--group`). If there are none, all groups are.
    pub groups: &'a [A],
    /// The sources that are shown (`--source`). If there are none, all sources are.
    pub sources: &'a [A],
    /// The first time that is shown (`--from`).
    pub from: Option<Time>,
}

/// Whether a verdict needs no line.
fn is_usual(verdict: Verdict) -> bool
    ensures { result ≡ is_usual verdict }
{
    match verdict {
        Verdict::Applied | Verdict::Mine | Verdict::OtherType(_) => true,
        _ => false,
    }
}

/// Whether a Hello has the Generation ID that was kept of a known sender.
fn is_same_again(heard: Heard) -> bool
    ensures { result ≡ is_same_again heard }
{
    match heard {
        Heard::Same => true,
        _ => false,
    }
}

/// A number for each state, 0 for NoInfo.
fn state_number(state: Option<State>) -> u8
    ensures { result ≡ state_number state }
{
    match state {
        None => 0,
        Some(State::Join) => 1,
        Some(State::PrunePending) => 2,
        Some(State::Prune) => 3,
        Some(State::PruneTmp) => 4,
        Some(State::PrunePendingTmp) => 5,
    }
}

/// Whether a timer that runs ends in this millisecond.
fn is_over(pending: Option<Pending>) -> bool
    ensures { result ≡ is_over pending }
{
    match pending {
        Some(timer) => timer.ends_in == 0,
        None => false,
    }
}

/// Whether a transition is shown without `--all`.
fn is_news_of_machine<F: Family>(change: &TransitionEvent<F::Addr>) -> bool
    ensures { result ≡ (not (keeps_state (transition_seen F.bytes_of change.now))
        && not (is_over (pending_in change.now.after))) }
{
    let before = state_number(change.before);
    let after = state_number(state_in(change.after));
    let over = is_over(pending_in(change.after));
    before != after && !over
}

/// Whether a record that is skipped may hold a PIM message: it is a fragment, has no time, or is
/// cut short by the end of its file.
fn may_hold_pim(skip: Skip) -> bool
    ensures { result ≡ may_hold_pim skip }
{
    match skip {
        Skip::NoPacket(Why::Fragment | Why::NoTime | Why::CutShort) => true,
        _ => false,
    }
}

/// Whether an event is shown without `--all`.
fn is_news<F: Family>(what: &Happening<'_, F>) -> bool
    ensures { result ≡ is_news (happening_seen F.bytes_of what.now) }
{
    match what {
        Happening::Hello(hello) => !is_same_again(hello.verdict),
        Happening::Packet(packet) => !is_usual(packet.verdict),
        Happening::Transition(change) => is_news_of_machine::<F>(change),
        Happening::Skipped(skipped) => may_hold_pim(skipped.why),
        _ => true,
    }
}

/// Whether two addresses are the same.
fn is_same<F: Family>(one: F::Addr, other: F::Addr) -> bool
    ensures { result ≡ bytes_eq (F.bytes_of one) (F.bytes_of other) }
{
    one == other
}

/// Whether an address is one of these.
fn is_among<F: Family>(addresses: &[F::Addr], address: F::Addr) -> bool
    ensures { result ≡ list_any (λ one. bytes_eq one (F.bytes_of address))
        (map F.bytes_of addresses.now) }
{
    for &one in addresses {
        if is_same::<F>(one, address) {
            return true;
        }
    }
    false
}

/// Whether an address is one of these, or there are none.
pub fn is_wanted<F: Family>(addresses: &[F::Addr], address: F::Addr) -> bool
    ensures { result ≡ is_wanted (map F.bytes_of addresses.now) (F.bytes_of address) }
{
    addresses.len() == 0 || is_among::<F>(addresses, address)
}

/// Whether a machine has a source that is wanted, or none.
fn is_wanted_machine<F: Family>(sources: &[F::Addr], what: What<F::Addr>) -> bool
    ensures { result ≡ is_wanted_machine (map F.bytes_of sources.now) (what_seen F.bytes_of what) }
{
    match what {
        What::Star => true,
        What::Source(source) | What::Rpt(source) => is_wanted::<F>(sources, source),
    }
}

/// Whether what the router wants is a star, or its source is among those that are shown.
fn is_chosen_part<F: Family>(sources: &[F::Addr], what: WantedWhat<F::Addr>) -> bool
    ensures { result ≡ is_chosen_part (map F.bytes_of sources.now)
        (wanted_what_seen F.bytes_of what) }
{
    match what {
        WantedWhat::Star => true,
        WantedWhat::Source(source) | WantedWhat::Except(source) => {
            is_wanted::<F>(sources, source)
        }
    }
}

/// Whether an entry is a star, or its source is wanted.
fn is_wanted_entry<F: Family>(sources: &[F::Addr], entry: Entry<F::Addr>) -> bool
    ensures { result ≡ is_wanted_entry (map F.bytes_of sources.now) (entry_seen F.bytes_of entry) }
{
    match entry {
        Entry::Star(_) => true,
        Entry::Source(source) | Entry::Rpt(source) => is_wanted::<F>(sources, source),
    }
}

/// Whether one of these entries is wanted.
fn has_wanted<F: Family>(sources: &[F::Addr], entries: Entries<'_, F>) -> bool
    ensures { result ≡ list_any (is_wanted_entry (map F.bytes_of sources.now)) entries.entry }
{
    for entry in entries {
        if is_wanted_entry::<F>(sources, entry) {
            return true;
        }
    }
    false
}

/// Whether an entry of a group set is wanted, or no source is given.
fn has_wanted_entry<F: Family>(sources: &[F::Addr], set: &SetView<'_, F>) -> bool
    ensures { result ≡ has_wanted_entry (map F.bytes_of sources.now) set.now }
{
    sources.len() == 0
        || has_wanted::<F>(sources, set.joined())
        || has_wanted::<F>(sources, set.pruned())
}

/// Whether the group of a set is wanted, and some entry.
fn is_wanted_set<F: Family>(groups: &[F::Addr], sources: &[F::Addr], set: &SetView<'_, F>) -> bool
    ensures { result ≡ is_wanted_set (map F.bytes_of groups.now)
        (map F.bytes_of sources.now) set.now }
{
    is_wanted::<F>(groups, set.group()) && has_wanted_entry::<F>(sources, set)
}

/// Whether some group set of a message is wanted.
fn has_wanted_set<F: Family>(
    groups: &[F::Addr],
    sources: &[F::Addr],
    message: &JpView<'_, F>,
) -> bool
    ensures { result ≡ list_any
        (is_wanted_set (map F.bytes_of groups.now) (map F.bytes_of sources.now))
        message.now.sets }
{
    for set in message.sets() {
        if is_wanted_set::<F>(groups, sources, &set) {
            return true;
        }
    }
    false
}

/// Whether a packet that reads as a Join/Prune has a group set that is wanted.
fn is_wanted_packet<F: Family>(
    groups: &[F::Addr],
    sources: &[F::Addr],
    message: &Option<JpView<'_, F>>,
) -> bool
    ensures { result ≡ is_wanted_packet (map F.bytes_of groups.now)
        (map F.bytes_of sources.now) message.now }
{
    let Some(message) = message else {
        return true;
    };
    groups.len() == 0 && sources.len() == 0 || has_wanted_set::<F>(groups, sources, message)
}

/// Whether an event concerns groups and sources that are wanted, or none at all.
fn is_chosen<F: Family>(groups: &[F::Addr], sources: &[F::Addr], what: &Happening<'_, F>) -> bool
    ensures { result ≡ is_chosen (map F.bytes_of groups.now) (map F.bytes_of sources.now)
        (happening_seen F.bytes_of what.now) }
{
    match what {
        Happening::Packet(packet) => is_wanted_packet::<F>(groups, sources, &packet.message),
        Happening::Transition(change) => {
            is_wanted::<F>(groups, change.group) && is_wanted_machine::<F>(sources, change.what)
        }
        Happening::Ignored(entry) => is_wanted::<F>(groups, entry.group),
        Happening::Fired(firing) => {
            is_wanted::<F>(groups, firing.group) && is_wanted_machine::<F>(sources, firing.what)
        }
        Happening::Held(held) => {
            is_wanted::<F>(groups, held.group) && is_wanted_machine::<F>(sources, held.what)
        }
        Happening::Wanted(entry) => {
            is_wanted::<F>(groups, entry.group) && is_chosen_part::<F>(sources, entry.what)
        }
        _ => true,
    }
}

/// Whether the time since 1970 is earlier than this one.
fn is_epoch_before(time: u64, epoch: Option<u64>) -> bool
    ensures { result ≡ is_epoch_before time epoch }
{
    match epoch {
        Some(epoch) => epoch < time,
        None => false,
    }
}

/// Whether a moment, in milliseconds, is earlier than the first time that is shown. `epoch` is the
/// moment's time in milliseconds since 1970, if it has one.
pub fn is_early(from: Option<Time>, ms: u64, epoch: Option<u64>) -> bool
    ensures { result ≡ is_early from ms epoch }
{
    match from {
        None => false,
        Some(Time::Moment(first)) => ms < first,
        Some(Time::Epoch(first)) => is_epoch_before(first, epoch),
    }
}

/// Whether the run ended.
fn is_end<F: Family>(what: &Happening<'_, F>) -> bool
    ensures { result ≡ is_end (happening_seen F.bytes_of what.now) }
{
    match what {
        Happening::Ended(_) => true,
        _ => false,
    }
}

/// Whether an event is shown: the end of the run always is. Any other event is, if its moment isn't
/// too early, `--all` is given or it is news, and its groups and sources are wanted.
pub fn is_shown<F: Family>(filter: &Filter<'_, F::Addr>, event: &TraceEvent<'_, F>) -> bool
    ensures { result ≡ is_shown (filter_seen F.bytes_of filter.now)
        (event_seen F.bytes_of event.now) }
{
    let what = &event.what;
    is_end::<F>(what)
        || !is_early(filter.from, event.ms, event.epoch)
            && (filter.all || is_news::<F>(what))
            && is_chosen::<F>(filter.groups, filter.sources, what)
}
