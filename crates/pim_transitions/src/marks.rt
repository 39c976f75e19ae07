//! Notes the machines that the entries of a message name, and looks marked machines up.

ghost use Rattle.std.specs.Prelude.{◌≡◌, ◌++◌, IfOk, OnOk, map};
ghost use Rattle.pim_down.specs.Hearing.{events_of, list_events};
ghost use Rattle.pim_addr.specs.Routes.{rp_of};
ghost use Rattle.pim_down.specs.Seen.{event_seen};
ghost use Rattle.pim_transitions.specs.Marks.{candidate_of, if_last, lasts};
ghost use Rattle.pim_transitions.specs.Affected.{candidate_seen};

use crate::candidate::Candidate;
use crate::order::is_repeated;
use pim_addr::{Family, Routes};
use pim_down::{Event, Key, Near, Ports, event_of};
use pim_jp::{Entries, JpView};
use std::alloc::{AllocError, Global};

/// Appends the events of one list.
fn push_list<F: Family>(
    marks: &mut Vec<Event<F::Addr>>,
    routes: &Routes<F>,
    joins: bool,
    group: F::Addr,
    entries: Entries<'_, F>,
) -> Result<(), AllocError>
    ensures { OnOk result (map (event_seen F.bytes_of) marks.new.items
        ≡ map (event_seen F.bytes_of) marks.old.items
        ++ list_events (rp_of F.family routes.now) joins (F.bytes_of group) entries.entry) }
{
    for entry in entries {
        match event_of::<F>(routes, joins, group, entry) {
            Some(event) => marks.push(event)?,
            None => {}
        }
    }
    Ok(())
}

/// Appends the events of a message, in its order. An error if memory is refused.
pub(crate) fn push_events<F: Family>(
    marks: &mut Vec<Event<F::Addr>>,
    routes: &Routes<F>,
    message: &JpView<'_, F>,
) -> Result<(), AllocError>
    ensures { OnOk result (map (event_seen F.bytes_of) marks.new.items
        ≡ map (event_seen F.bytes_of) marks.old.items
        ++ events_of (rp_of F.family routes.now) message.now) }
{
    for set in message.sets() {
        let group = set.group();
        push_list::<F>(marks, routes, true, group, set.joined())?;
        push_list::<F>(marks, routes, false, group, set.pruned())?;
    }
    Ok(())
}

/// Appends the machine of a mark, unless the first of the marks after it is of the same machine.
/// The look-up begins at a hint; returns the hint for the next one.
#[tactic(auto, using(crate::proofs::Candidates::skipped, crate::proofs::Candidates::added))]
fn push_last<F: Family>(
    candidates: &mut Vec<Candidate<F::Addr>>,
    ports: &Ports<F>,
    port: usize,
    mark: Event<F::Addr>,
    rest: &[Event<F::Addr>],
    near: Near,
) -> Result<Near, AllocError>
    ensures { OnOk result (map (candidate_seen F.bytes_of) candidates.new.items
        ≡ map (candidate_seen F.bytes_of) candidates.old.items
        ++ map (candidate_of port ports.now.records)
        (if_last (event_seen F.bytes_of mark) (map (event_seen F.bytes_of) rest.now))) }
{
    if is_repeated::<F>(&mark, rest) {
        return Ok(near);
    }
    let (before, place) = ports.machine_near(port, mark.group, mark.what, near);
    let key = Key {
        port,
        group: mark.group,
        what: mark.what,
    };
    let joins = mark.joins;
    candidates.push(Candidate { key, before, joins })?;
    Ok(place)
}

/// The machines of marks in key order, each once, as its last mark has it. An error if memory is
/// refused.
pub(crate) fn look_up<F: Family>(
    alloc: Global,
    ports: &Ports<F>,
    port: usize,
    marks: &[Event<F::Addr>],
) -> Result<Vec<Candidate<F::Addr>>, AllocError>
    ensures { IfOk result (λ candidates. map (candidate_seen F.bytes_of) candidates.items
        ≡ map (candidate_of port ports.now.records)
        (lasts (map (event_seen F.bytes_of) marks.now))) }
{
    let mut candidates = Vec::new(alloc);
    let mut near = Near::UNKNOWN;
    let mut left = marks;
    while let Some((mark, rest)) = left.split_first() {
        near = push_last::<F>(&mut candidates, ports, port, *mark, rest, near)?;
        left = rest;
    }
    Ok(candidates)
}
