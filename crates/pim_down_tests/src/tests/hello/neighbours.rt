//! Neighbours: calls that no command of a session makes, and growths that are refused.

use pim_addr::V4;
use pim_hello::{Heard, Hello, LanDelay, NeighbourFault, Neighbours, Parameters, PortDelays};
use std::alloc::Global;

const SENDER: [u8; 4] = [10, 0, 0, 1];

const OTHER: [u8; 4] = [10, 0, 0, 2];

const NOTHING: Parameters = Parameters {
    holdtime: None,
    lan: None,
    priority: None,
    generation: None,
};

/// What a Hello says.
#[derive(Clone, Copy)]
enum Says {
    Nothing,
    /// This holdtime, in seconds.
    Holdtime(u16),
    /// A propagation delay of up to 32,767 ms, and an override delay.
    Delays(u16, u16),
}

fn delays(propagation: u16, override_ms: u16) -> Option<LanDelay> {
    Some(LanDelay {
        t: false,
        propagation: propagation.min(32_767),
        override_ms,
    })
}

fn parameters(says: Says) -> Parameters {
    match says {
        Says::Nothing => NOTHING,
        Says::Holdtime(seconds) => Parameters {
            holdtime: Some(seconds),
            ..NOTHING
        },
        Says::Delays(propagation, override_ms) => Parameters {
            lan: delays(propagation, override_ms),
            ..NOTHING
        },
    }
}

/// A Hello that says this and has no Address List.
fn saying(says: Says) -> Hello<'static, V4> {
    let parameters = parameters(says);
    Hello {
        holdtime: parameters.holdtime,
        lan: parameters.lan,
        priority: parameters.priority,
        generation: parameters.generation,
        ..Hello::empty()
    }
}

/// What is told of a Hello.
type Answer = Result<Heard, NeighbourFault>;

const NEW: Answer = Ok(Heard::New);

const SAME: Answer = Ok(Heard::Same);

/// What happens to a table of neighbours, and what it tells.
#[derive(Clone, Copy)]
enum Row {
    /// A Hello of this sender comes at this moment, and this is told.
    Hears([u8; 4], Says, u64, Answer),
    /// Neighbours whose time is over by this moment go.
    Expires(u64),
    Knows([u8; 4], bool),
    Count(usize),
    /// The override interval of a port with this propagation delay and this override delay of its
    /// own.
    Interval(u16, u16, u32),
}

/// The last moment that a table takes.
const LATEST: u64 = 1_000_000_000_000_000;

/// Whether a row goes as it says.
fn goes(neighbours: &mut Neighbours<V4>, row: Row) -> bool {
    match row {
        Row::Hears(sender, says, moment, want) => {
            moment <= LATEST && neighbours.hear(sender, &saying(says), moment) == want
        }
        Row::Expires(moment) => {
            if moment <= LATEST {
                neighbours.expire(moment);
            }
            moment <= LATEST
        }
        Row::Knows(sender, known) => neighbours.knows(sender) == known,
        Row::Count(count) => neighbours.count() == count,
        Row::Interval(propagation, override_ms, want) => {
            let own = PortDelays {
                propagation: propagation.min(32_767),
                override_ms,
            };
            neighbours.override_interval(own) == want
        }
    }
}

/// The first of these rows, played one after the other, that doesn't go as it says.
fn wrong_row(neighbours: &mut Neighbours<V4>, rows: &[Row]) -> Option<usize> {
    for index in 0..rows.len() {
        if !goes(neighbours, rows[index]) {
            return Some(index);
        }
    }
    None
}

/// The same on a new table.
fn first_wrong(alloc: Global, rows: &[Row]) -> Option<usize> {
    let mut neighbours: Neighbours<V4> = Neighbours::new(alloc);
    wrong_row(&mut neighbours, rows)
}

/// With the default delays of a port.
const INTERVALS: [Row; 5] = [
    Row::Interval(500, 2500, 3000),
    Row::Hears(SENDER, Says::Delays(700, 2000), 0, NEW),
    Row::Interval(500, 2500, 3200),
    Row::Hears(OTHER, Says::Nothing, 0, NEW),
    Row::Interval(500, 2500, 3000),
];

const OTHER_INTERVALS: [Row; 3] = [
    Row::Interval(700, 100, 800),
    Row::Hears(SENDER, Says::Delays(500, 2500), 0, NEW),
    Row::Interval(700, 100, 3200),
];

#[test]
fn makes_the_override_interval(rt: HostRuntime) {
    let usual = PortDelays::default();
    assert!(rt; usual.propagation == 500 && usual.override_ms == 2500);
    assert_eq!(rt; first_wrong(rt.alloc(), &INTERVALS), None);
    assert_eq!(rt; first_wrong(rt.alloc(), &OTHER_INTERVALS), None);
}

/// A Hello of this sender, and the override interval that it leaves.
type Left = ([u8; 4], Says, u32);

/// Whether a Hello leaves this override interval of a port whose own delays are 100 ms each.
fn is_left(neighbours: &mut Neighbours<V4>, (sender, says, want): Left) -> bool {
    let heard = neighbours.hear(sender, &saying(says), 0).is_ok();
    heard && goes(neighbours, Row::Interval(100, 100, want))
}

/// The first of these Hellos, which come one after the other, that leaves another override
/// interval.
fn otherwise(neighbours: &mut Neighbours<V4>, rows: &[Left]) -> Option<usize> {
    for index in 0..rows.len() {
        if !is_left(neighbours, rows[index]) {
            return Some(index);
        }
    }
    None
}

/// The same on a new table.
fn first_otherwise(alloc: Global, rows: &[Left]) -> Option<usize> {
    let mut neighbours: Neighbours<V4> = Neighbours::new(alloc);
    otherwise(&mut neighbours, rows)
}

const GREATEST: [Left; 14] = [
    (SENDER, Says::Delays(700, 2000), 2700),
    (OTHER, Says::Delays(600, 3000), 3700),
    (OTHER, Says::Delays(600, 3000), 3700),
    // One tells smaller ones, one leaves, one tells none and leaves.
    (SENDER, Says::Delays(300, 400), 3600),
    (OTHER, Says::Holdtime(0), 700),
    (OTHER, Says::Holdtime(0), 700),
    (OTHER, Says::Nothing, 3000),
    (SENDER, Says::Delays(300, 500), 3000),
    (OTHER, Says::Holdtime(0), 800),
    (OTHER, Says::Delays(0, 600), 900),
    (SENDER, Says::Nothing, 3000),
    (SENDER, Says::Delays(50, 50), 700),
    (SENDER, Says::Holdtime(0), 700),
    (OTHER, Says::Holdtime(0), 200),
];

// A router gathers the delays before it asks (`neighbours-delays-left.session` of `pimtree_cases`).
// Here nobody does.
#[test]
fn goes_by_the_greatest_delays_that_are_left(rt: HostRuntime) {
    assert_eq!(rt; first_otherwise(rt.alloc(), &GREATEST), None);
}

const TIMES: [Row; 5] = [
    Row::Hears(SENDER, Says::Nothing, 0, NEW),
    Row::Hears(OTHER, Says::Holdtime(0xffff), 0, NEW),
    Row::Expires(LATEST),
    Row::Knows(SENDER, false),
    Row::Knows(OTHER, true),
];

#[test]
fn ends_times_until_the_last_moment(rt: HostRuntime) {
    assert_eq!(rt; first_wrong(rt.alloc(), &TIMES), None);
}

/// Whether a Hello is told so, at once or, where a growth is refused, with nothing changed and then
/// again; so many are known before.
fn is_told(
    neighbours: &mut Neighbours<V4>,
    sender: [u8; 4],
    says: Says,
    (moment, want): (u64, Answer),
    count: usize,
) -> bool {
    let known = neighbours.knows(sender);
    let hears = Row::Hears(sender, says, moment, want);
    match neighbours.hear(sender, &saying(says), moment.min(LATEST)) {
        Err(NeighbourFault::Memory) => {
            neighbours.count() == count
                && neighbours.knows(sender) == known
                && goes(neighbours, hears)
        }
        reported => reported == want,
    }
}

/// Whether a neighbour comes, and tells another holdtime, behind so many others.
fn comes_behind(neighbours: &mut Neighbours<V4>, number: u8) -> bool {
    let (sender, moment, count) = ([10, 1, 0, number], u64::from(number), usize::from(number));
    is_told(
        neighbours,
        sender,
        Says::Delays(500, 2500),
        (moment, NEW),
        count,
    ) && goes(neighbours, Row::Count(count + 1))
        && is_told(
            neighbours,
            sender,
            Says::Holdtime(60),
            (moment, SAME),
            count + 1,
        )
        && goes(neighbours, Row::Count(count + 1))
}

const ENDS: [Row; 4] = [
    Row::Expires(60_019),
    Row::Count(20),
    Row::Expires(60_039),
    Row::Count(0),
];

/// The first of forty neighbours that doesn't come so.
fn first_that_fails(neighbours: &mut Neighbours<V4>) -> Option<u8> {
    for number in 0..40 {
        if !comes_behind(neighbours, number) {
            return Some(number);
        }
    }
    None
}

// With each allocation refused in turn (`tools/each_growth_refused.sh`): the table is as it was,
// and the same Hello, with memory, is told as it would have been.
#[test]
fn refusals_change_nothing(rt: HostRuntime) {
    let mut neighbours: Neighbours<V4> = Neighbours::new(rt.alloc());
    assert_eq!(rt; first_that_fails(&mut neighbours), None);
    assert_eq!(rt; wrong_row(&mut neighbours, &ENDS), None);
}
