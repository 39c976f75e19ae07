//! Growths that are refused while a router's messages are made, or its wants are compared. The test
//! is also run with each allocation refused in turn, by `tools/each_growth_refused.sh`.

use super::{ANNE, BERT, FOR_EVER, GROUP, made, receive, table};
use crate::tests::state::refused;
use pim_addr::{Routes, V4};
use pim_down::{State, What};
use pim_form::{FormFault, Writer};
use pim_router::{Router, same_wants};
use std::alloc::{AllocError, Global};
use std::test::Fail;

const FIRST: [u8; 4] = [192, 0, 2, 1];

const SECOND: [u8; 4] = [192, 0, 2, 2];

/// The neighbour on the third port.
const CARL: [u8; 4] = [10, 0, 2, 9];

/// A star without 192.0.2.1.
const WITHOUT_FIRST: [u8; 42] = [
    0x23, 0, 0xfc, 0xb2, 1, 0, 10, 0, 0, 1, 0, 1, 0, 210, 1, 0, 0, 32, 239, 1, 1, 1, 0, 1, 0, 1, 1,
    0, 7, 32, 10, 9, 9, 9, 1, 0, 5, 32, 192, 0, 2, 1,
];

/// The same star without 192.0.2.1 and 192.0.2.2, for the second port.
const WITHOUT_BOTH: [u8; 50] = [
    0x23, 0, 0x33, 0x8f, 1, 0, 10, 0, 1, 1, 0, 1, 0, 210, 1, 0, 0, 32, 239, 1, 1, 1, 0, 1, 0, 2, 1,
    0, 7, 32, 10, 9, 9, 9, 1, 0, 5, 32, 192, 0, 2, 1, 1, 0, 5, 32, 192, 0, 2, 2,
];

/// A prune of 192.0.2.2 without a star, for the third port.
const LONE_PRUNE: [u8; 34] = [
    0x23, 0, 0x15, 0xe5, 1, 0, 10, 0, 2, 1, 0, 1, 0, 210, 1, 0, 0, 32, 239, 1, 1, 1, 0, 0, 0, 1, 1,
    0, 5, 32, 192, 0, 2, 2,
];

/// The packets, each with its port and its sender.
const PACKETS: [(usize, [u8; 4], &[u8]); 6] = [
    (0, ANNE, &FOR_EVER),
    (1, BERT, &FOR_EVER),
    (2, CARL, &FOR_EVER),
    (0, ANNE, &WITHOUT_FIRST),
    (1, BERT, &WITHOUT_BOTH),
    (2, CARL, &LONE_PRUNE),
];

/// By which 10.0.0.2 is asked then: the star without 192.0.2.1.
const ASKED: [u8; 42] = [
    0x23, 0, 0xfc, 0xb1, 1, 0, 10, 0, 0, 2, 0, 1, 0, 210, 1, 0, 0, 32, 239, 1, 1, 1, 0, 1, 0, 1, 1,
    0, 7, 32, 10, 9, 9, 9, 1, 0, 5, 32, 192, 0, 2, 1,
];

/// Whether a router's records, its neighbours and its moment are as the packets left them.
fn is_as_heard(router: &Router<'_, V4>) -> bool {
    let ports = router.ports();
    if ports.port_count() != 3 || router.port_count() != 3 {
        return false;
    }
    let pruned = Some(State::Prune);
    router.now() == 7
        && ports.records().count() == 6
        && ports.state_of(0, GROUP, What::Rpt(FIRST)) == pruned
        && ports.state_of(1, GROUP, What::Rpt(SECOND)) == pruned
        && ports.state_of(2, GROUP, What::Rpt(SECOND)) == pruned
        && router.neighbours(0).count() == 1
}

/// Lets a router take all packets.
fn take_all(router: &mut Router<'_, V4>) -> Result<(), AllocError> {
    for &(port, from, bytes) in &PACKETS {
        receive(router, port, from, bytes)?;
    }
    Ok(())
}

/// Whether a router asks by one message of these bytes.
fn asks(
    alloc: Global,
    router: &Router<'_, V4>,
    writer: &Writer<V4>,
) -> Result<bool, FormFault<V4>> {
    let messages = router.canonical(alloc, writer)?;
    Ok(messages.count() == 1 && messages.get(0) == Some(ASKED.as_slice()))
}

/// Whether a router asks by that message: at once or, where a growth is refused, with nothing
/// changed and then again.
fn asks_again(
    alloc: Global,
    router: &Router<'_, V4>,
    writer: &Writer<V4>,
) -> Result<bool, AllocError> {
    let answer = asks(alloc, router, writer);
    if answer == Err(FormFault::Memory) {
        return refused(is_as_heard(router) && asks(alloc, router, writer) == Ok(true));
    }
    Ok(answer == Ok(true))
}

/// Who asks 10.0.0.2, by messages of up to 1480 bytes.
fn writer() -> Option<Writer<V4>> {
    Writer::new([10, 0, 0, 2], [10, 0, 0, 1], 210, 1480).ok()
}

/// Whether a router wants the same as itself: at once or, where a growth is refused, with nothing
/// changed and then again.
fn same_again(
    alloc: Global,
    router: &Router<'_, V4>,
    writer: &Writer<V4>,
) -> Result<bool, AllocError> {
    let answer = same_wants(alloc, router, router, writer);
    if answer == Err(FormFault::Memory) {
        let is_same = same_wants(alloc, router, router, writer) == Ok(true);
        return refused(is_as_heard(router) && is_same);
    }
    Ok(answer == Ok(true))
}

/// Whether a router asks so, and wants the same as itself.
fn both_again(
    alloc: Global,
    router: &Router<'_, V4>,
    writer: &Writer<V4>,
) -> Result<bool, AllocError> {
    Ok(asks_again(alloc, router, writer)? && same_again(alloc, router, writer)?)
}

/// The same where the router takes all packets first, and 7 ms pass.
fn both_again_later(alloc: Global, router: &mut Router<'_, V4>) -> Result<bool, AllocError> {
    take_all(router)?;
    router.run_to(7);
    match writer() {
        Some(writer) => both_again(alloc, router, &writer),
        None => Ok(false),
    }
}

/// The same of a new router under this table.
fn are_made_again(alloc: Global, routes: &Routes<V4>) -> Result<bool, AllocError> {
    match made(alloc, routes) {
        Some(mut router) => both_again_later(alloc, &mut router),
        None => Err(AllocError),
    }
}

/// The same of a new table.
fn all_are_made_again(alloc: Global) -> Result<bool, AllocError> {
    match table(alloc, [10, 0, 0, 2]) {
        Some(routes) => are_made_again(alloc, &routes),
        None => Err(AllocError),
    }
}

#[test]
fn calls_are_made_again(rt: HostRuntime) -> Result<(), Fail> {
    assert!(rt; all_are_made_again(rt.alloc())?);
    Ok(())
}
