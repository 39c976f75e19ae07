//! A long time in which nothing comes. A star and a neighbour that are held for ever see each
//! refresh. A longer one is in `times.case` of `pimtree_cases`.

use super::{ANNE, FOR_EVER, GROUP, made, neighbour_count, receive, table};
use pim_addr::{Routes, V4};
use pim_down::{State, What};
use pim_router::{Router, Step, Verdict};
use std::alloc::Global;

/// 2^32 milliseconds, 49 days.
const FAR: u64 = 4_294_967_296;

/// A Join(*,G) with holdtime 65,535.
const STAR: [u8; 34] = [
    0x23, 0, 0xc5, 0xa7, 1, 0, 10, 0, 0, 1, 0, 1, 255, 255, 1, 0, 0, 32, 239, 1, 1, 1, 0, 1, 0, 0,
    1, 0, 7, 32, 10, 9, 9, 9,
];

/// How many times runs to a moment stop at a refresh before something else. `None` where the moment
/// is too far, or they stop 100,000 times.
fn refreshes(router: &mut Router<'_, V4>, moment: u64) -> Option<u64> {
    if moment > 1_000_000_000_000_000 {
        return None;
    }
    for refreshes in 0..100_000u64 {
        if router.run_to(moment) != Step::Refresh {
            return Some(refreshes);
        }
    }
    None
}

/// Whether a router at this moment holds the star and the neighbour.
fn holds_at(router: &Router<'_, V4>, moment: u64) -> bool {
    router.now() == moment
        && router.ports().state_of(0, GROUP, What::Star) == Some(State::Join)
        && neighbour_count(router, 0) == 1
}

/// Lets the first port hear a Hello and a star, both for ever: whether it takes them.
fn takes_both(router: &mut Router<'_, V4>) -> bool {
    receive(router, 0, ANNE, &FOR_EVER).is_ok()
        && receive(router, 0, ANNE, &STAR) == Ok(Some(Verdict::Applied))
}

/// How many refreshes a router stops at on its way, if it holds both then.
fn stops(router: &mut Router<'_, V4>) -> Option<u64> {
    if !takes_both(router) {
        return None;
    }
    let stops = refreshes(router, FAR);
    if holds_at(router, FAR) { stops } else { None }
}

/// The same of a new router under this table.
fn new_stops(alloc: Global, routes: &Routes<V4>) -> Option<u64> {
    match made(alloc, routes) {
        Some(mut router) => stops(&mut router),
        None => None,
    }
}

#[test]
fn refreshes_of_49_days(rt: HostRuntime) {
    match table(rt.alloc(), [10, 0, 0, 2]) {
        Some(routes) => assert_eq!(rt; new_stops(rt.alloc(), &routes), Some(71_582)),
        None => assert!(rt; false),
    }
}
