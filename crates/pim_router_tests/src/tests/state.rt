//! Some ports, and the table and the writer by which their wants are told: the group 239.1.1.1 with
//! the RP 10.9.9.9, asked of 10.0.0.2.

use super::router::table;
use pim_addr::{Routes, V4};
use pim_down::{Ports, Step, Timing};
use pim_form::Writer;
use pim_jp::{Entry, JpView, head_length, put_head, put_set, set_length};
use std::alloc::{AllocError, Global};

/// The machines of some ports, and the table and the writer by which their wants are told.
#[derive(Drop)]
pub(super) struct State {
    pub(super) ports: Ports<V4>,
    pub(super) routes: Routes<V4>,
    pub(super) writer: Writer<V4>,
}

pub(super) const GROUP: [u8; 4] = [239, 1, 1, 1];

pub(super) const RP: [u8; 4] = [10, 9, 9, 9];

pub(super) const FIRST: [u8; 4] = [192, 0, 2, 1];

pub(super) const SECOND: [u8; 4] = [192, 0, 2, 2];

pub(super) const STAR: Entry<[u8; 4]> = Entry::Star(RP);

pub(super) const JOIN_FIRST: Entry<[u8; 4]> = Entry::Source(FIRST);

pub(super) const JOIN_SECOND: Entry<[u8; 4]> = Entry::Source(SECOND);

pub(super) const RPT_FIRST: Entry<[u8; 4]> = Entry::Rpt(FIRST);

pub(super) const RPT_SECOND: Entry<[u8; 4]> = Entry::Rpt(SECOND);

/// One neighbour on the port: prunes count at once.
pub(super) const ALONE: Timing = Timing {
    override_ms: 0,
    several: false,
};

/// Several neighbours on the port: prunes are pending for 3 s.
pub(super) const SEVERAL: Timing = Timing {
    override_ms: 3000,
    several: true,
};

/// This number of ports under a table that leads all groups to the RP, and all addresses to
/// 10.0.0.2.
pub(super) fn state4(alloc: Global, count: usize, budget: usize) -> Option<State> {
    if count == 0 || count > 64 {
        return None;
    }
    let writer = Writer::new([10, 0, 0, 2], [10, 0, 0, 1], 210, budget).ok()?;
    let routes = table(alloc, [10, 0, 0, 2])?;
    Some(State {
        ports: Ports::new(alloc, count, 1000),
        routes,
        writer,
    })
}

/// The body of a message of one set.
fn body(
    alloc: Global,
    group: [u8; 4],
    joined: &[Entry<[u8; 4]>],
    pruned: &[Entry<[u8; 4]>],
) -> Result<Vec<u8>, AllocError> {
    let (Ok(joins), Ok(prunes)) = (u16::try_from(joined.len()), u16::try_from(pruned.len())) else {
        return Err(AllocError);
    };
    let mut body = vec![in alloc; 0u8; head_length::<V4>() + set_length::<V4>(joins, prunes)]?;
    let (head, set) = body.split_at_mut(head_length::<V4>());
    put_head::<V4>([10, 0, 0, 2], 1, 210, head);
    put_set::<V4>(group, joined, pruned, set);
    Ok(body)
}

/// Hears a body on a port, and runs on within the millisecond: whether it was taken.
fn hear_body(state: &mut State, (port, timing): (usize, Timing), body: &[u8]) -> bool {
    let Ok(view) = JpView::<V4>::read(body) else {
        return false;
    };
    if port >= state.ports.port_count() || timing.override_ms > 98_302 {
        return false;
    }
    let taken = state.ports.hear(port, &view, &state.routes, timing).is_ok();
    taken && state.ports.run_to(0) == Step::Reached
}

/// Hears a message of one set on a port, and lets its prunes act: whether it was taken.
pub(super) fn hear_on(
    alloc: Global,
    state: &mut State,
    on: (usize, Timing),
    group: [u8; 4],
    joined: &[Entry<[u8; 4]>],
    pruned: &[Entry<[u8; 4]>],
) -> bool {
    match body(alloc, group, joined, pruned) {
        Ok(body) => hear_body(state, on, &body),
        Err(_) => false,
    }
}

/// The same on a port with one neighbour.
pub(super) fn hear(
    alloc: Global,
    state: &mut State,
    port: usize,
    group: [u8; 4],
    joined: &[Entry<[u8; 4]>],
    pruned: &[Entry<[u8; 4]>],
) -> bool {
    hear_on(alloc, state, (port, ALONE), group, joined, pruned)
}

/// What a test tells of a call that was refused memory: that it is wrong, or that memory is
/// wanting. So a test passes only if its call succeeds at once.
pub(super) fn refused(is_right: bool) -> Result<bool, AllocError> {
    if is_right { Err(AllocError) } else { Ok(false) }
}

/// The source 10.1.0.NUMBER.
fn source(number: u8) -> [u8; 4] {
    [10, 1, 0, number]
}

/// Adds the sources 10.1.0.1 to 10.1.0.200.
fn push_sources(joined: &mut Vec<Entry<[u8; 4]>>) -> Result<(), AllocError> {
    for number in 1..201 {
        joined.push(Entry::Source(source(number)))?;
    }
    Ok(())
}

/// Hears 200 sources of the group on the first port.
pub(super) fn hear_200(alloc: Global, state: &mut State) -> bool {
    let mut joined = Vec::new(alloc);
    match push_sources(&mut joined) {
        Ok(()) => hear(alloc, state, 0, GROUP, &joined, &[]),
        Err(_) => false,
    }
}
