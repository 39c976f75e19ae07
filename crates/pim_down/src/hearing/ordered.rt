//! Puts the events of a message in key order, if its entries are far from it or a group comes
//! again. In no order each look-up waits for memory at each comparison; in key order look-ups go
//! onward through adjacent records. From a list, many Joins(*,G) of a large group cost one walk
//! through the group.
//!
//! What events leave depends only on the order of the events of each machine, which a stable sort
//! keeps. A Join(*,G) is the exception: it also acts on the (S,G,rpt) machines of its group (RFC
//! 7761, 4.5.3). The code tests before and after a sort whether each Join(*,G) comes first, so that
//! no proof depends on the order that the sort makes.

ghost use Rattle.std.specs.Prelude.{◌≡◌, ◌≤◌, ℕ, List, Option, true, ◌++◌, map, OnOk, IfOk, IfSome};
ghost use Rattle.pim_down.specs.Words.{list_any, IsPermutation, IsStableBy, Record, key_of};
ghost use Rattle.pim_down.specs.Words.{list_events, events_of, count_new, key_cmp, rp_of};
ghost use Rattle.pim_down.specs.Words.{comes_before, source_or_star, source_key_of};
ghost use Rattle.pim_down.specs.Words.{comes_before_by_source, is_of_rpts_of, StarsComeFirst};
ghost use Rattle.pim_down.specs.Words.{AreAlike, what_seen, event_seen};

use crate::hearing::hear::{event_of, is_star_join};
use crate::hearing::scattered::is_scattered;
use crate::machines::event::Event;
use crate::machines::key::{What, compare_addresses, compare_whats};
use pim_addr::{Family, Routes};
use pim_jp::{Entries, JpView};
use std::alloc::{AllocError, Global};
use std::cmp::Ordering;

/// By group, then by machine.
#[tactic(auto, unfolding(crate::specs::Key::key_cmp))]
fn compare_events<F: Family>(a: &Event<F::Addr>, b: &Event<F::Addr>) -> Ordering
    ensures { result
        ≡ key_cmp (key_of 0 (event_seen F.bytes_of a.now))
        (key_of 0 (event_seen F.bytes_of b.now)) }
{
    let by_group = compare_addresses::<F>(a.group, b.group);
    if by_group.is_ne() {
        return by_group;
    }
    compare_whats::<F>(&a.what, &b.what)
}

/// The (S,G) machine unchanged; (*,G) for all other machines.
fn source_or_star<A: Copy>(what: What<A>) -> What<A>
    ensures { (bytes_of : A → List ℕ) → what_seen bytes_of result
        ≡ source_or_star (what_seen bytes_of what) }
{
    match what {
        What::Source(source) => What::Source(source),
        What::Star | What::Rpt(_) => What::Star,
    }
}

/// By group, and within a group (*,G) and (S,G,rpt) before (S,G), these by source.
#[tactic(auto, unfolding(crate::specs::Key::key_cmp))]
fn compare_sources<F: Family>(a: &Event<F::Addr>, b: &Event<F::Addr>) -> Ordering
    ensures { result ≡ key_cmp (source_key_of (event_seen F.bytes_of a.now))
        (source_key_of (event_seen F.bytes_of b.now)) }
{
    let by_group = compare_addresses::<F>(a.group, b.group);
    if by_group.is_ne() {
        return by_group;
    }
    compare_whats::<F>(&source_or_star(a.what), &source_or_star(b.what))
}

/// Appends the events of one list.
fn push_list<F: Family>(
    events: &mut Vec<Event<F::Addr>>,
    routes: &Routes<F>,
    joins: bool,
    group: F::Addr,
    entries: Entries<'_, F>,
) -> Result<(), AllocError>
    ensures { OnOk result (map (event_seen F.bytes_of) events.new.items
        ≡ map (event_seen F.bytes_of) events.old.items
        ++ list_events (rp_of F.family routes.now) joins (F.bytes_of group) entries.entry) }
{
    for entry in entries {
        match event_of::<F>(routes, joins, group, entry) {
            Some(event) => events.push(event)?,
            None => {}
        }
    }
    Ok(())
}

/// How many entries a message has: at most twice 65,535 in each of its sets, at most 255.
pub(crate) fn entry_count<F: Family>(message: &JpView<'_, F>) -> usize
    ensures events { (known : List ℕ → Option (List ℕ)) (port : ℕ)
        (records : List (Record (List ℕ))) →
        count_new port records (events_of known message.now) ≤ result }
    ensures bound { result ≤ 33422850 }
{
    let _most = message.set_count();
    let mut count = 0;
    for set in message.sets() {
        count += usize::from(set.joined_count()) + usize::from(set.pruned_count());
    }
    count
}

/// The events of a message, in its order. An error if memory for the list is refused.
fn events_of<F: Family>(
    alloc: Global,
    routes: &Routes<F>,
    message: &JpView<'_, F>,
) -> Result<Vec<Event<F::Addr>>, AllocError>
    ensures { IfOk result (λ events. map (event_seen F.bytes_of) events.items
        ≡ events_of (rp_of F.family routes.now) message.now) }
{
    let mut events = Vec::new(alloc);
    events.reserve(entry_count::<F>(message))?;
    for set in message.sets() {
        let group = set.group();
        push_list::<F>(&mut events, routes, true, group, set.joined())?;
        push_list::<F>(&mut events, routes, false, group, set.pruned())?;
    }
    Ok(events)
}

/// Whether the event is a Join(*,G) of this group or names one of its (S,G,rpt) machines.
fn is_of_rpts_of<F: Family>(event: &Event<F::Addr>, group: F::Addr) -> bool
    ensures { result ≡ is_of_rpts_of (F.bytes_of group) (event_seen F.bytes_of event.now) }
{
    event.group == group && (is_star_join(event) || matches!(event.what, What::Rpt(_)))
}

/// Whether one of these events is a Join(*,G) of this group or names one of its (S,G,rpt) machines.
fn have_rpts_of<F: Family>(events: &[Event<F::Addr>], group: F::Addr) -> bool
    ensures { result
        ≡ list_any (is_of_rpts_of (F.bytes_of group)) (map (event_seen F.bytes_of) events.now) }
{
    for event in events {
        if is_of_rpts_of::<F>(event, group) {
            return true;
        }
    }
    false
}

/// Whether no Join(*,G) follows another one of its group, or an event of one of the group's
/// (S,G,rpt) machines. It takes a step for each event before a Join(*,G): fewer than two million,
/// since a message has at most 255 of these.
fn stars_come_first<F: Family>(events: &[Event<F::Addr>]) -> bool
    ensures { result ≡ true → StarsComeFirst (map (event_seen F.bytes_of) events.now) }
{
    for index in 0..events.len() {
        let event = events[index];
        if is_star_join(&event) && have_rpts_of::<F>(&events[..index], event.group) {
            return false;
        }
    }
    true
}

/// Sorts events in key order. Events of one machine keep their order. An error if memory is
/// refused.
fn put_in_key_order<F: Family>(events: &mut Vec<Event<F::Addr>>) -> Result<(), AllocError>
    ensures permutation { IsPermutation events.old.items events.new.items }
    ensures stable { IsStableBy
        (λ x y. comes_before (event_seen F.bytes_of x) (event_seen F.bytes_of y))
        events.old.items events.new.items }
{
    events.sort_by(|a, b| compare_events::<F>(a, b))
}

/// Sorts events by group, and within a group the events of (S,G) machines in key order after the
/// others. The events of one machine, and all others of the group, keep their order. An error if
/// memory is refused.
fn put_sources_in_key_order<F: Family>(events: &mut Vec<Event<F::Addr>>) -> Result<(), AllocError>
    ensures permutation { IsPermutation events.old.items events.new.items }
    ensures stable { IsStableBy
        (λ x y. comes_before_by_source (event_seen F.bytes_of x) (event_seen F.bytes_of y))
        events.old.items events.new.items }
{
    events.sort_by(|a, b| compare_sources::<F>(a, b))
}

/// The events in key order, if still no Join(*,G) follows what it acts on; `None` if one does or if
/// memory is refused.
fn all_in_key_order<F: Family>(mut events: Vec<Event<F::Addr>>) -> Option<Vec<Event<F::Addr>>>
    requires { StarsComeFirst (map (event_seen F.bytes_of) events.items) }
    ensures { IfSome result (λ ordered. AreAlike (map (event_seen F.bytes_of) ordered.items)
        (map (event_seen F.bytes_of) events.items)) }
{
    if put_in_key_order::<F>(&mut events).is_err() {
        return None;
    }
    if stars_come_first::<F>(&events) {
        Some(events)
    } else {
        None
    }
}

/// The events with those of (S,G) machines in key order; `None` if memory is refused.
fn sources_in_key_order<F: Family>(mut events: Vec<Event<F::Addr>>) -> Option<Vec<Event<F::Addr>>>
    ensures { IfSome result (λ ordered. AreAlike (map (event_seen F.bytes_of) ordered.items)
        (map (event_seen F.bytes_of) events.items)) }
{
    if put_sources_in_key_order::<F>(&mut events).is_err() {
        return None;
    }
    Some(events)
}

/// The events of a message in key order. Where a Join(*,G) follows what it acts on, only those of
/// (S,G) machines are sorted. `None` where no group comes again and the entries are near key order,
/// or where memory is refused; the caller then hears them in message order.
pub(crate) fn in_key_order<F: Family>(
    alloc: Global,
    routes: &Routes<F>,
    message: &JpView<'_, F>,
) -> Option<Vec<Event<F::Addr>>>
    ensures { IfSome result (λ events. AreAlike (map (event_seen F.bytes_of) events.items)
        (events_of (rp_of F.family routes.now) message.now)) }
{
    if !is_scattered::<F>(message) {
        return None;
    }
    let Ok(events) = events_of::<F>(alloc, routes, message) else {
        return None;
    };
    if stars_come_first::<F>(&events) {
        return all_in_key_order::<F>(events);
    }
    sources_in_key_order::<F>(events)
}
