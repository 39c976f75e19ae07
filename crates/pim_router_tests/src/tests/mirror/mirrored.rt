//! A fresh router that heard canonical messages alone: for which deliveries it is a mirror, how
//! long its records last from its final moment on, and when it writes the same messages.

use super::asked::{Asking, OTHER, UP, UPSTREAM, WRITER, asked, asks_by, deliveries};
use pim_addr::V4;
use pim_down::Step as Fires;
use pim_form::{Messages, Writer};
use pim_hello::Parameters;
use pim_mirror::{FreshConfig, MirrorFault, OtherNeighbour, are_short, fits, mirror};
use pim_router::{PortConfig, Router};
use std::alloc::Global;

const THIRD: [u8; 4] = [10, 0, 0, 7];

const FOURTH: [u8; 4] = [10, 0, 0, 8];

/// A fresh router and what comes to it.
#[derive(Clone, Copy)]
enum Given {
    /// The room for records, the holdtime of another neighbour, and the deliveries: of a message
    /// and a moment each.
    Deliveries(usize, u16, &'static [(usize, u64)]),
    /// Besides 10.0.0.7 this neighbour is there, too. Both messages come at 0.
    Beside([u8; 4]),
    /// The port's address and delays. No other neighbour is there. Both messages come at 0.
    Port([u8; 4], u16, u16),
}

/// A final moment, how much time so many records have left then, and the moment until which the
/// messages are written.
type Seen = (u64, [(u64, usize); 2], u64);

/// What becomes of the fresh router.
#[derive(Clone, Copy, PartialEq, Eq)]
enum Told {
    /// It is no mirror.
    Unfit,
    /// A message has no room, and up to it so many records are needed.
    Full(usize),
    /// It is one, and is seen so.
    Stands(Seen),
}

/// Rows for messages with the holdtime 210.
const ROWS: [(Given, Told); 20] = [
    // each message comes once; 3,000 ms after 207,000 the first one is over
    (
        Given::Deliveries(1000, 65_535, &[(0, 0), (1, 200_000)]),
        Told::Stands((203_000, [(7_000, 4), (207_000, 1)], 210_000)),
    ),
    (
        Given::Deliveries(1000, 65_535, &[(0, 0), (1, 207_000)]),
        Told::Unfit,
    ),
    // in another order, and again
    (
        Given::Deliveries(
            1000,
            65_535,
            &[(1, 0), (0, 100_000), (0, 150_000), (1, 200_000)],
        ),
        Told::Stands((200_000, [(160_000, 4), (210_000, 1)], 360_000)),
    ),
    // again before the prune takes effect, with room for just these records
    (
        Given::Deliveries(5, 65_535, &[(0, 0), (1, 0), (0, 2_000), (1, 2_000)]),
        Told::Stands((3_000, [(209_000, 5), (0, 0)], 212_000)),
    ),
    // a whole holdtime without the first one is too long
    (
        Given::Deliveries(1000, 65_535, &[(0, 0), (1, 0), (0, 209_999), (1, 209_999)]),
        Told::Stands((209_999, [(210_000, 5), (0, 0)], 419_999)),
    ),
    (
        Given::Deliveries(1000, 65_535, &[(0, 0), (1, 0), (1, 209_999), (0, 210_000)]),
        Told::Unfit,
    ),
    // the other neighbour stays to the end, or not, or never comes
    (
        Given::Deliveries(1000, 204, &[(0, 0), (1, 200_000)]),
        Told::Stands((203_000, [(7_000, 4), (207_000, 1)], 210_000)),
    ),
    (
        Given::Deliveries(1000, 203, &[(0, 0), (1, 200_000)]),
        Told::Unfit,
    ),
    (
        Given::Deliveries(1000, 0, &[(0, 0), (1, 200_000)]),
        Told::Unfit,
    ),
    // falling moments
    (
        Given::Deliveries(1000, 65_535, &[(0, 0), (1, 5), (0, 4)]),
        Told::Unfit,
    ),
    // a message that isn't there
    (
        Given::Deliveries(1000, 65_535, &[(0, 0), (1, 0), (2, 0)]),
        Told::Unfit,
    ),
    // a message that doesn't come
    (Given::Deliveries(1000, 65_535, &[(0, 0)]), Told::Unfit),
    // a moment past 10^14
    (
        Given::Deliveries(1000, 65_535, &[(0, 0), (1, 100_000_000_000_001)]),
        Told::Unfit,
    ),
    // no room for the second message, or for the first one
    (
        Given::Deliveries(4, 65_535, &[(0, 0), (1, 200_000)]),
        Told::Full(5),
    ),
    (
        Given::Deliveries(3, 65_535, &[(0, 0), (1, 200_000)]),
        Told::Full(4),
    ),
    // the port has the address to which the writer writes, and all addresses are different
    (
        Given::Beside(FOURTH),
        Told::Stands((3_000, [(207_000, 5), (0, 0)], 210_000)),
    ),
    (Given::Beside(THIRD), Told::Unfit),
    (Given::Beside(UPSTREAM), Told::Unfit),
    (Given::Beside(WRITER), Told::Unfit),
    (Given::Port(FOURTH, 500, 2500), Told::Unfit),
];

/// Rows for the least holdtime, 99 s, and the greatest override interval, 98,302 ms.
const SHORT: [(Given, Told); 2] = [
    (
        Given::Port(UPSTREAM, 32_767, 65_535),
        Told::Stands((98_302, [(698, 5), (0, 0)], 99_000)),
    ),
    (Given::Port(UPSTREAM, 32_768, 65_535), Told::Unfit),
];

/// The same, put together.
#[derive(Clone, Copy)]
struct Course<'a> {
    port: PortConfig<[u8; 4]>,
    others: &'a [OtherNeighbour<[u8; 4]>],
    limit: usize,
    deliveries: &'a [(usize, u64)],
}

/// Beside these neighbours, with ample room, where both messages come at 0.
fn at_once<'a>(others: &'a [OtherNeighbour<[u8; 4]>]) -> Course<'a> {
    Course {
        port: UP,
        others,
        limit: 1000,
        deliveries: &[(0, 0), (1, 0)],
    }
}

/// Another neighbour whose Hello has this holdtime and nothing else.
fn other(address: [u8; 4], holdtime: u16) -> OtherNeighbour<[u8; 4]> {
    OtherNeighbour {
        address,
        hello: Parameters {
            holdtime: Some(holdtime),
            lan: None,
            priority: None,
            generation: None,
        },
    }
}

/// What the mirror answers; `None` where it doesn't fit.
fn answered<'a>(
    alloc: Global,
    messages: &Messages,
    writer: &Writer<V4>,
    fresh: &FreshConfig<'a, V4>,
) -> Option<Result<Router<'a, V4>, MirrorFault>> {
    if !fits(messages, writer, fresh.routes, fresh) || !are_short(messages) {
        return None;
    }
    Some(mirror(alloc, messages, writer, fresh))
}

/// The same. Where a growth is refused, it is what it answers when it is called again.
fn mirrored<'a>(
    alloc: Global,
    messages: &Messages,
    writer: &Writer<V4>,
    fresh: &FreshConfig<'a, V4>,
) -> Option<Result<Router<'a, V4>, MirrorFault>> {
    match answered(alloc, messages, writer, fresh) {
        Some(Err(MirrorFault::Memory)) => answered(alloc, messages, writer, fresh),
        answer => answer,
    }
}

/// Whether so many records have so much left.
fn are_left(router: &Router<'_, V4>, (left, count): (u64, usize)) -> bool {
    let is_so = router
        .ports()
        .records()
        .filter(|held| held.machine.expires_in == Some(left))
        .count();
    is_so == count
}

/// Whether a router that runs to this moment writes the messages then.
fn writes_at(
    alloc: Global,
    router: &mut Router<'_, V4>,
    asking: &Asking,
    moment: u64,
) -> Option<bool> {
    if moment > 1_000_000 {
        return None;
    }
    let (step, _refreshes) = router.run_past_refreshes(moment);
    if step == Fires::Reached {
        asks_by(alloc, router, asking)
    } else {
        Some(false)
    }
}

/// Whether a router at its final moment is seen so; `None` where memory is refused.
fn is_seen(
    alloc: Global,
    router: &mut Router<'_, V4>,
    asking: &Asking,
    (moment, left, until): Seen,
) -> Option<bool> {
    let [one, two] = left;
    let is_so = router.now() == moment && are_left(router, one) && are_left(router, two);
    let five = router.ports().records().count() == 5;
    let now = asks_by(alloc, router, asking)?;
    let before = writes_at(alloc, router, asking, until.saturating_sub(1))?;
    let after = writes_at(alloc, router, asking, until)?;
    Some(is_so && five && now && before && !after)
}

/// The same of a router that is a mirror.
fn stands(
    alloc: Global,
    router: &mut Router<'_, V4>,
    asking: &Asking,
    reported: Told,
) -> Option<bool> {
    match reported {
        Told::Stands(seen) => is_seen(alloc, router, asking, seen),
        _ => Some(false),
    }
}

/// Whether a message has no room, as is told.
fn is_full(fault: MirrorFault, reported: Told) -> bool {
    match fault {
        MirrorFault::Full { needed } => reported == Told::Full(needed),
        MirrorFault::Memory => false,
    }
}

/// Whether the fresh router becomes that; `None` where memory is refused.
fn becomes(
    alloc: Global,
    asking: &Asking,
    fresh: &FreshConfig<'_, V4>,
    reported: Told,
) -> Option<bool> {
    match mirrored(alloc, &asking.messages, &asking.writer, fresh) {
        None => Some(reported == Told::Unfit),
        Some(Err(fault)) => Some(is_full(fault, reported)),
        Some(Ok(mut router)) => stands(alloc, &mut router, asking, reported),
    }
}

/// The same of the fresh router of a course.
fn ends(alloc: Global, asking: &Asking, course: Course<'_>, reported: Told) -> Option<bool> {
    let deliveries = deliveries(alloc, course.deliveries)?;
    let fresh = FreshConfig {
        ports: &[course.port],
        routes: &asking.routes,
        limit: course.limit,
        sender: WRITER,
        others: course.others,
        deliveries: &deliveries,
    };
    becomes(alloc, asking, &fresh, reported)
}

/// Whether a row goes so; `None` where memory is refused.
fn row_goes(alloc: Global, asking: &Asking, &(given, reported): &(Given, Told)) -> Option<bool> {
    match given {
        Given::Deliveries(limit, holdtime, deliveries) => {
            let others = [other(OTHER, holdtime)];
            let course = Course {
                limit,
                deliveries,
                ..at_once(&others)
            };
            ends(alloc, asking, course, reported)
        }
        Given::Beside(address) => {
            let others = [other(THIRD, 210), other(address, 210)];
            ends(alloc, asking, at_once(&others), reported)
        }
        Given::Port(address, propagation, override_ms) => {
            let port = PortConfig {
                address,
                propagation,
                override_ms,
            };
            let course = Course {
                port,
                ..at_once(&[])
            };
            ends(alloc, asking, course, reported)
        }
    }
}

/// Whether a row goes so: at once or, where memory is refused beside the mirror, then again.
fn goes(alloc: Global, asking: &Asking, row: &(Given, Told)) -> bool {
    match row_goes(alloc, asking, row) {
        Some(is_so) => is_so,
        None => row_goes(alloc, asking, row) == Some(true),
    }
}

/// What the writer asks, at once or, where memory is refused, the second time.
fn asked_at_last(alloc: Global, holdtime: u16) -> Option<Asking> {
    match asked(alloc, holdtime) {
        Some(asking) => Some(asking),
        None => asked(alloc, holdtime),
    }
}

/// The first row that doesn't go so.
fn wrong_row(alloc: Global, asking: &Asking, rows: &[(Given, Told)]) -> Option<usize> {
    for index in 0..rows.len() {
        if !goes(alloc, asking, &rows[index]) {
            return Some(index);
        }
    }
    None
}

/// The same for messages with this holdtime.
fn wrong(alloc: Global, holdtime: u16, rows: &[(Given, Told)]) -> Option<usize> {
    match asked_at_last(alloc, holdtime) {
        Some(asking) => wrong_row(alloc, &asking, rows),
        None => Some(0),
    }
}

/// Run with each allocation refused in turn (`tools/each_growth_refused.sh`).
#[test]
fn messages_make_mirrors(rt: HostRuntime) {
    assert_eq!(rt; wrong(rt.alloc(), 210, &ROWS), None);
    assert_eq!(rt; wrong(rt.alloc(), 99, &SHORT), None);
}
