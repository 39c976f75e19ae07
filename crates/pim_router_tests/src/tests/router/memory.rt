//! Growths that are refused. Run with each allocation refused in turn
//! (`tools/each_growth_refused.sh`).

use super::{GROUP, PORTS, neighbour_count, receive};
use pim_addr::{Routes, V4};
use pim_frame::{MessageType, all_routers, seal};
use pim_hello::Heard;
use pim_router::{Config, ConfigFault, Router, Step, Verdict};
use std::alloc::Global;

/// A Hello with a holdtime of 60 s, without its header.
const HELLO: [u8; 10] = [0, 0, 0, 0, 0, 1, 0, 2, 0, 60];

/// A Join(S,G) and a Prune(S,G,rpt) of the source 192.0.2.0, without its header.
const SOURCE: [u8; 42] = [
    0, 0, 0, 0, 1, 0, 10, 0, 0, 1, 0, 1, 0, 210, 1, 0, 0, 32, 239, 1, 1, 1, 0, 1, 0, 1, 1, 0, 4,
    32, 192, 0, 2, 0, 1, 0, 5, 32, 192, 0, 2, 0,
];

/// How many records a router has: of the group, on the first port, and held for 210 s from now on.
fn records(router: &Router<'_, V4>) -> usize {
    router
        .ports()
        .records()
        .filter(|held| held.key.port == 0
            && held.key.group == GROUP
            && held.machine.expires_in == Some(210_000))
        .count()
}

/// How many neighbours the first port has for 60 s from now on.
fn neighbours(router: &Router<'_, V4>) -> usize {
    if router.port_count() == 0 {
        return 0;
    }
    router
        .neighbours(0)
        .filter(|neighbour| neighbour.left == Some(60_000))
        .count()
}

/// Whether a router has so many neighbours and records, and no others, and is at 7 ms.
fn holds(router: &Router<'_, V4>, (known, held): (usize, usize)) -> bool {
    router.now() == 7
        && neighbours(router) == known
        && neighbour_count(router, 0) == known
        && records(router) == held
        && router.ports().records().count() == held
}

/// Whether these bytes are answered as wanted: at once or, where a growth is refused, with nothing
/// changed and then again. So many neighbours and records are there before.
fn is_told(
    router: &mut Router<'_, V4>,
    from: [u8; 4],
    bytes: &[u8],
    wanted: Verdict,
    before: (usize, usize),
) -> bool {
    match receive(router, 0, from, bytes) {
        Ok(reported) => reported == Some(wanted),
        Err(_) => holds(router, before) && receive(router, 0, from, bytes) == Ok(Some(wanted)),
    }
}

const NEW: Verdict = Verdict::HelloTaken(Heard::New);

const SAME: Verdict = Verdict::HelloTaken(Heard::Same);

/// Whether a neighbour's Hello and its Join/Prune are answered as they have to be, each at first
/// and again, behind so many others.
fn four_are_told(
    router: &mut Router<'_, V4>,
    from: [u8; 4],
    hello: &[u8],
    message: &[u8],
    others: u8,
) -> bool {
    let (known, held) = (usize::from(others), 2 * usize::from(others));
    is_told(router, from, hello, NEW, (known, held))
        && is_told(router, from, hello, SAME, (known + 1, held))
        && is_told(router, from, message, Verdict::Applied, (known + 1, held))
        && is_told(
            router,
            from,
            message,
            Verdict::Applied,
            (known + 1, held + 2),
        )
}

/// Whether forty neighbours, and a Join/Prune of each, are answered as they have to be.
fn forty_are_told(router: &mut Router<'_, V4>) -> bool {
    let mut hello = HELLO;
    let mut message = SOURCE;
    for fourth in 0..40 {
        let from = [10, 0, 0, 100 + fourth];
        message[33] = fourth + 1;
        message[41] = fourth + 1;
        seal::<V4>(from, all_routers::<V4>(), MessageType::Hello, &mut hello);
        seal::<V4>(
            from,
            all_routers::<V4>(),
            MessageType::JoinPrune,
            &mut message,
        );
        if !four_are_told(router, from, &hello, &message, fourth) {
            return false;
        }
    }
    true
}

/// A router, made at once or, where a growth is refused, at the second time; `None` where it isn't.
fn made<'a>(alloc: Global, config: &Config<'a, V4>) -> Option<Router<'a, V4>> {
    match Router::new(alloc, config) {
        Err(ConfigFault::Memory) => Router::new(alloc, config).ok(),
        made => made.ok(),
    }
}

/// Whether the forty are answered as they have to be at 7 ms, by a new router.
fn are_told_at_7(router: &mut Router<'_, V4>) -> bool {
    router.run_to(7) == Step::Reached
        && holds(router, (0, 0))
        && forty_are_told(router)
        && holds(router, (40, 80))
}

/// The same of a new router under this table.
fn are_told_under(alloc: Global, routes: &Routes<V4>) -> bool {
    let config = Config {
        ports: &PORTS,
        routes,
        limit: 100,
    };
    match made(alloc, &config) {
        Some(mut router) => are_told_at_7(&mut router),
        None => false,
    }
}

#[test]
fn refusals_change_nothing(rt: HostRuntime) {
    let routes = Routes::new(rt.alloc());
    assert!(rt; are_told_under(rt.alloc(), &routes));
}
