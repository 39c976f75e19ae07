//! A router that hears deliveries of messages, each at its moment.

use super::super::router::{FOR_EVER, receive};
use super::asked::{Asking, OTHER, UP, WRITER, asked, asks_by};
use pim_addr::V4;
use pim_form::Messages;
use pim_mirror::{Delivery, MirrorFault, are_short, hear_deliveries};
use pim_router::{Config, Router};
use std::alloc::Global;

/// The second message comes first, and once more.
const DELIVERIES: [Delivery; 3] = [
    Delivery {
        message: 1,
        moment: 0,
    },
    Delivery {
        message: 0,
        moment: 1_000,
    },
    Delivery {
        message: 1,
        moment: 2_000,
    },
];

/// Lets the upstream neighbour know the writer and another neighbour for ever.
fn knows_both(router: &mut Router<'_, V4>) -> bool {
    receive(router, 0, WRITER, &FOR_EVER).is_ok() && receive(router, 0, OTHER, &FOR_EVER).is_ok()
}

/// Lets the router hear the deliveries and run to this moment.
fn hear(
    router: &mut Router<'_, V4>,
    messages: &Messages,
    moment: u64,
) -> Option<Result<(), MirrorFault>> {
    if router.port_count() != 1 || moment > 1_000_000 || !are_short(messages) {
        return None;
    }
    Some(hear_deliveries(router, messages, WRITER, &DELIVERIES, moment))
}

/// What is answered to the deliveries, the moment then, how many records the router has, and
/// whether it asks by the same messages.
type Heard = (Result<(), MirrorFault>, u64, usize, bool);

/// The same of this router at this moment.
fn heard_at(
    alloc: Global,
    router: &mut Router<'_, V4>,
    asking: &Asking,
    moment: u64,
) -> Option<Heard> {
    let answer = hear(router, &asking.messages, moment)?;
    let asks = asks_by(alloc, router, asking)?;
    let records = router.ports().records().count();
    Some((answer, router.now(), records, asks))
}

/// The room for records, the moment, and what is heard by then.
type Row = (usize, u64, Heard);

/// Without room for the first message the router has heard what came before it.
const ROWS: [Row; 5] = [
    (5, 3_999, (Ok(()), 3_999, 5, false)),
    (5, 4_000, (Ok(()), 4_000, 5, true)),
    (5, 210_999, (Ok(()), 210_999, 5, true)),
    (5, 211_000, (Ok(()), 211_000, 1, false)),
    (
        4,
        4_000,
        (Err(MirrorFault::Full { needed: 5 }), 1_000, 1, false),
    ),
];

/// Whether the upstream neighbour hears this by this moment.
fn hears(
    alloc: Global,
    router: &mut Router<'_, V4>,
    asking: &Asking,
    moment: u64,
    heard: Heard,
) -> bool {
    knows_both(router) && heard_at(alloc, router, asking, moment) == Some(heard)
}

/// Whether a row goes so.
fn goes(alloc: Global, asking: &Asking, (limit, moment, heard): Row) -> bool {
    let config = Config {
        ports: &[UP],
        routes: &asking.routes,
        limit,
    };
    match Router::new(alloc, &config) {
        Ok(mut router) => hears(alloc, &mut router, asking, moment, heard),
        Err(_) => false,
    }
}

/// The first row that doesn't go so.
fn wrong_row(alloc: Global, asking: &Asking, rows: &[Row]) -> Option<usize> {
    for index in 0..rows.len() {
        if !goes(alloc, asking, rows[index]) {
            return Some(index);
        }
    }
    None
}

/// The same of what the writer asks.
fn wrong(alloc: Global) -> Option<usize> {
    match asked(alloc, 210) {
        Some(asking) => wrong_row(alloc, &asking, &ROWS),
        None => Some(0),
    }
}

#[test]
fn deliveries_in_another_order_are_heard(rt: HostRuntime) {
    assert_eq!(rt; wrong(rt.alloc()), None);
}
