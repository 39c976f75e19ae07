//! The two messages by which 10.0.0.1 asks 10.0.0.2 for what a neighbour on its second port asked
//! it for.

use super::super::router::{BERT, FOR_EVER, made, receive, table};
use pim_addr::{Routes, V4};
use pim_form::{Messages, Writer};
use pim_mirror::Delivery;
use pim_router::{PortConfig, Router, Step, Verdict};
use std::alloc::{AllocError, Global};

/// The writer, and on the same link its upstream neighbour and another router.
pub(super) const WRITER: [u8; 4] = [10, 0, 0, 1];

pub(super) const UPSTREAM: [u8; 4] = [10, 0, 0, 2];

pub(super) const OTHER: [u8; 4] = [10, 0, 0, 9];

/// The port of the upstream neighbour, whose override interval is 3,000 ms.
pub(super) const UP: PortConfig<[u8; 4]> = PortConfig {
    address: UPSTREAM,
    propagation: 500,
    override_ms: 2500,
};

/// To 10.0.1.1, with holdtime 210: the star of 239.1.1.1 except 192.0.2.1, two sources of
/// 239.1.2.1, and the star of 239.1.3.1. Messages of 70 bytes ask for the same: one for the first
/// two groups, which make four records, and one for the last group.
const THREE_GROUPS: [u8; 90] = [
    0x23, 0, 0x6c, 0xf1, 1, 0, 10, 0, 1, 1, 0, 3, 0, 210, 1, 0, 0, 32, 239, 1, 1, 1, 0, 1, 0, 1, 1,
    0, 7, 32, 10, 9, 9, 9, 1, 0, 5, 32, 192, 0, 2, 1, 1, 0, 0, 32, 239, 1, 2, 1, 0, 2, 0, 0, 1, 0,
    4, 32, 192, 0, 2, 1, 1, 0, 4, 32, 192, 0, 2, 2, 1, 0, 0, 32, 239, 1, 3, 1, 0, 1, 0, 0, 1, 0, 7,
    32, 10, 9, 9, 9,
];

/// The writer's table, the writer, and its two messages.
#[derive(Drop)]
pub(super) struct Asking {
    pub(super) routes: Routes<V4>,
    pub(super) writer: Writer<V4>,
    pub(super) messages: Messages,
}

/// Whether a router takes what its neighbour asks for, with a prune that takes effect at once.
fn takes(router: &mut Router<'_, V4>) -> bool {
    receive(router, 1, BERT, &FOR_EVER).is_ok()
        && receive(router, 1, BERT, &THREE_GROUPS) == Ok(Some(Verdict::Applied))
        && router.run_to(0) == Step::Reached
}

/// The messages by which a router asks then; `None` where memory is refused.
fn messages_of(
    alloc: Global,
    router: &mut Router<'_, V4>,
    writer: &Writer<V4>,
) -> Option<Messages> {
    if takes(router) {
        router.canonical(alloc, writer).ok()
    } else {
        None
    }
}

/// The same of a new router under this table.
fn messages(alloc: Global, routes: &Routes<V4>, writer: &Writer<V4>) -> Option<Messages> {
    match made(alloc, routes) {
        Some(mut router) => messages_of(alloc, &mut router, writer),
        None => None,
    }
}

/// All three, with this holdtime; `None` where memory is refused.
pub(super) fn asked(alloc: Global, holdtime: u16) -> Option<Asking> {
    let writer = Writer::<V4>::new(UPSTREAM, WRITER, holdtime, 70).ok()?;
    let routes = table(alloc, UPSTREAM)?;
    let messages = messages(alloc, &routes, &writer)?;
    Some(Asking {
        routes,
        writer,
        messages,
    })
}

/// Whether a router asks by the writer's messages; `None` where memory is refused.
pub(super) fn asks_by(alloc: Global, router: &Router<'_, V4>, asking: &Asking) -> Option<bool> {
    match router.canonical(alloc, &asking.writer) {
        Ok(again) => Some(asking.messages.same_bytes(&again)),
        Err(_) => None,
    }
}

/// Adds deliveries, of a message and a moment each.
fn add_deliveries(deliveries: &mut Vec<Delivery>, rows: &[(usize, u64)]) -> Result<(), AllocError> {
    for &(message, moment) in rows {
        deliveries.push(Delivery { message, moment })?;
    }
    Ok(())
}

/// These deliveries; `None` where memory is refused.
pub(super) fn deliveries(alloc: Global, rows: &[(usize, u64)]) -> Option<Vec<Delivery>> {
    let mut deliveries = Vec::new(alloc);
    match add_deliveries(&mut deliveries, rows) {
        Ok(()) => Some(deliveries),
        Err(_) => None,
    }
}
