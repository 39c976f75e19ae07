//! How many timers a run looks at: 1,000 (*,G) machines, all heard of at the same moment.

use super::ONE_RP;
use super::bodies::{is_heard, table};
use pim_addr::{Routes, V4};
use pim_down::{Ports, Step};
use std::alloc::Global;

/// What a run answers, how many looks it takes at least and at most, and what is held and due then.
struct Turn {
    moment: u64,
    least: u64,
    most: u64,
    held: usize,
    due: Option<u64>,
}

/// Upstream 10.0.0.2, holdtime 210, and the group 239.1.HIGH.LOW with its star joined.
fn message(high: u8, low: u8) -> [u8; 30] {
    [
        1, 0, 10, 0, 0, 2, 0, 1, 0, 210, 1, 0, 0, 32, 239, 1, high, low, 0, 1, 0, 0, 1, 0, 7, 32,
        10, 9, 9, 9,
    ]
}

/// Hears of 250 groups.
fn hear_row(ports: &mut Ports<V4>, routes: &Routes<V4>, high: u8) -> bool {
    for low in 0..250 {
        if !is_heard(ports, routes, 0, &message(high, low)) {
            return false;
        }
    }
    true
}

/// Hears of 1,000 groups.
fn hear_all(ports: &mut Ports<V4>, routes: &Routes<V4>) -> bool {
    for high in 0..4 {
        if !hear_row(ports, routes, high) {
            return false;
        }
    }
    true
}

/// Whether a run goes so.
fn goes(ports: &mut Ports<V4>, turn: &Turn) -> bool {
    if turn.moment > 1_000_000_000_000_000 {
        return false;
    }
    let (step, looks) = ports.run_counted(turn.moment);
    step == Step::Reached
        && looks >= turn.least
        && looks <= turn.most
        && ports.count_on(0) == turn.held
        && ports.next_due() == turn.due
}

/// Runs to 100,000, and hears of all again.
fn is_refreshed(ports: &mut Ports<V4>, routes: &Routes<V4>) -> bool {
    ports.run_to(100_000) == Step::Reached && hear_all(ports, routes)
}

/// Hears of all and, where it is to be, runs to 100,000 and hears of all again.
fn is_heard_of(ports: &mut Ports<V4>, routes: &Routes<V4>, refreshes: bool) -> bool {
    hear_all(ports, routes) && (!refreshes || is_refreshed(ports, routes))
}

/// The first of these runs that doesn't go so.
fn first_wrong(ports: &mut Ports<V4>, turns: &[Turn]) -> Option<usize> {
    for index in 0..turns.len() {
        if !goes(ports, &turns[index]) {
            return Some(index);
        }
    }
    None
}

/// The same of ports that hear of all first.
fn wrong_after(
    ports: &mut Ports<V4>,
    routes: &Routes<V4>,
    refreshes: bool,
    turns: &[Turn],
) -> Option<usize> {
    if is_heard_of(ports, routes, refreshes) {
        first_wrong(ports, turns)
    } else {
        Some(0)
    }
}

/// The same of new ports under this table.
fn wrong_under(
    alloc: Global,
    routes: &Routes<V4>,
    refreshes: bool,
    turns: &[Turn],
) -> Option<usize> {
    let mut ports: Ports<V4> = Ports::new(alloc, 1, 1_000);
    wrong_after(&mut ports, routes, refreshes, turns)
}

/// The first of these runs that doesn't go so, behind a hearing at 0 and, where it is to be, a
/// refresh at 100,000.
fn wrong(alloc: Global, refreshes: bool, turns: &[Turn]) -> Option<usize> {
    match table(alloc, &ONE_RP) {
        Some(routes) => wrong_under(alloc, &routes, refreshes, turns),
        None => Some(0),
    }
}

/// Nothing is due before the holdtime ends; then all machines expire at once.
const ONCE: [Turn; 4] = [
    Turn {
        moment: 209_999,
        least: 1,
        most: 1,
        held: 1_000,
        due: Some(210_000),
    },
    Turn {
        moment: 209_999,
        least: 1,
        most: 1,
        held: 1_000,
        due: Some(210_000),
    },
    Turn {
        moment: 210_000,
        least: 1_000,
        most: 1_001,
        held: 0,
        due: None,
    },
    Turn {
        moment: 1_000_000_000_000_000,
        least: 0,
        most: 0,
        held: 0,
        due: None,
    },
];

/// Behind a refresh at 100,000.
const REFRESHED: [Turn; 3] = [
    Turn {
        moment: 210_000,
        least: 1,
        most: 1,
        held: 1_000,
        due: Some(310_000),
    },
    Turn {
        moment: 309_999,
        least: 1,
        most: 1,
        held: 1_000,
        due: Some(310_000),
    },
    Turn {
        moment: 310_001,
        least: 1_000,
        most: 1_001,
        held: 0,
        due: None,
    },
];

#[test]
fn looks_go_by_the_timers_that_fire(rt: HostRuntime) {
    assert_eq!(rt; wrong(rt.alloc(), false, &ONCE), None);
    assert_eq!(rt; wrong(rt.alloc(), true, &REFRESHED), None);
}
