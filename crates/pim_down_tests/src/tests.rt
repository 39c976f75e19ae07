//! What no command shows of devices, times, tables, Hellos, bodies, items of sessions, captures and
//! the two lists, each in a module of its own.
//!
//! This module and the others have what no command of a session shows of the machines: look-ups,
//! walks, looks, prints, a moment that is far away, and growths that are refused; and thousands of
//! messages beside a slow list.
//! The group is 239.1.1.1 with the RP 10.9.9.9, the sources are 192.0.2.1 and 192.0.2.2. Examples
//! are constant tables of rows that are played one after the other, each by a small helper: a test
//! that makes its calls itself takes far longer to prove. The scenarios of `pimtree_cases` show the
//! machines.

mod addr;
mod blocks;
mod bodies;
mod capture;
mod courses;
mod device;
mod fragments;
mod hello;
mod items;
mod jp;
mod limits;
mod looks;
mod nexts;
mod random;
mod running;
mod slow;
mod times;

use bodies::{body, is_heard, table};
use pim_addr::V4;
use pim_down::{Ports, State, Step, Timing, What};
use pim_jp::Entry;
use std::alloc::Global;

/// A prefix of groups, its length, and the RP to which it leads them.
type Lead = ([u8; 4], u8, [u8; 4]);

const RP: [u8; 4] = [10, 9, 9, 9];

/// The table that leads all groups to the RP.
const ONE_RP: [Lead; 1] = [([224, 0, 0, 0], 4, RP)];

const GROUP: [u8; 4] = [239, 1, 1, 1];

const FIRST: [u8; 4] = [192, 0, 2, 1];

const SECOND: [u8; 4] = [192, 0, 2, 2];

/// One neighbour on the port.
const ALONE: Timing = Timing {
    override_ms: 0,
    several: false,
};

/// Several neighbours on the port.
const SEVERAL: Timing = Timing {
    override_ms: 3000,
    several: true,
};

const JOIN_STAR: Entry<[u8; 4]> = Entry::Star(RP);

const JOIN_FIRST: Entry<[u8; 4]> = Entry::Source(FIRST);

const JOIN_SECOND: Entry<[u8; 4]> = Entry::Source(SECOND);

const RPT_FIRST: Entry<[u8; 4]> = Entry::Rpt(FIRST);

const RPT_SECOND: Entry<[u8; 4]> = Entry::Rpt(SECOND);

/// A group, and the joined and the pruned list of its set.
type Set = (
    [u8; 4],
    &'static [Entry<[u8; 4]>],
    &'static [Entry<[u8; 4]>],
);

/// A row of an example: a call, and what it tells or leaves.
#[derive(Clone, Copy)]
enum Row {
    /// A message with the holdtime 210 is heard on a port with one neighbour.
    Hear(usize, &'static [Set]),
    /// One whose entries are held for ever.
    HearForEver(usize, &'static [Set]),
    /// A run to a moment reaches it.
    Reach(u64),
    /// How the ports begin in print.
    ShownFrom(&'static str),
    /// What the ports show in print.
    Shown(&'static str),
    /// How the walk through the records begins in print.
    RecordsShownFrom(&'static str),
    /// The present moment.
    Now(u64),
    /// The next moment at which a timer fires.
    Due(Option<u64>),
    /// The state of one of the group's machines.
    State(usize, What<[u8; 4]>, Option<State>),
    /// How many records a port holds, and how many of them are (S,G,rpt) machines.
    Counts(usize, usize, usize),
    /// How many machines are in Join, and never expire.
    Lasting(usize),
    /// How many ports there are, and how many records each may have.
    Sizes(usize, usize),
    /// The group that comes next on a port.
    GroupAfter(usize, Option<[u8; 4]>, Option<[u8; 4]>),
    /// The machine of a group that comes next on the first port.
    MachineAfter([u8; 4], What<[u8; 4]>, Option<What<[u8; 4]>>),
}

/// Rows that are played by so many ports, each with room for so many records.
#[derive(Clone, Copy)]
struct Example {
    name: &'static str,
    ports: usize,
    limit: usize,
    rows: &'static [Row],
}

/// Hears a body on a port: whether it is taken.
fn hears_body(alloc: Global, ports: &mut Ports<V4>, port: usize, body: &[u8]) -> bool {
    match table(alloc, &ONE_RP) {
        Some(routes) => is_heard(ports, &routes, port, body),
        None => false,
    }
}

/// Hears a message of this holdtime on a port: whether it is taken.
fn hears(
    alloc: Global,
    ports: &mut Ports<V4>,
    port: usize,
    holdtime: u16,
    sets: &'static [Set],
) -> bool {
    match body(alloc, holdtime, sets) {
        Ok(bytes) => hears_body(alloc, ports, port, &bytes),
        Err(_) => false,
    }
}

/// Runs to a moment: whether it is reached.
fn reaches(ports: &mut Ports<V4>, moment: u64) -> bool {
    moment <= 1_000_000_000_000_000 && ports.run_to(moment) == Step::Reached
}

/// Whether the ports begin so in print.
fn shows_from(alloc: Global, ports: &Ports<V4>, start: &str) -> bool {
    match format!(in alloc; "{ports:?}") {
        Ok(text) => text.starts_with(start),
        Err(_) => false,
    }
}

/// Whether the ports show this in print.
fn shows(alloc: Global, ports: &Ports<V4>, part: &str) -> bool {
    match format!(in alloc; "{ports:?}") {
        Ok(text) => text.contains(part),
        Err(_) => false,
    }
}

/// Whether the walk through the records begins so in print.
fn records_show_from(alloc: Global, ports: &Ports<V4>, start: &str) -> bool {
    match format!(in alloc; "{:?}", ports.records()) {
        Ok(text) => text.starts_with(start),
        Err(_) => false,
    }
}

/// How many machines are in Join, and never expire.
fn lasting(ports: &Ports<V4>) -> usize {
    ports
        .records()
        .filter(|record| record.machine.state == State::Join && record.machine.expires_in.is_none())
        .count()
}

/// The machine of a group that comes next on the first port.
fn machine_after(ports: &Ports<V4>, group: [u8; 4], what: What<[u8; 4]>) -> Option<What<[u8; 4]>> {
    nexts::what_of(ports.record_after(0, group, what))
}

/// Whether what a row sees is so.
fn is_seen(ports: &Ports<V4>, row: Row) -> bool {
    match row {
        Row::Now(moment) => ports.now() == moment,
        Row::Due(due) => ports.next_due() == due,
        Row::State(port, what, state) => ports.state_of(port, GROUP, what) == state,
        Row::Counts(port, count, rpts) => {
            ports.count_on(port) == count
                && ports.records_on(port).count() == count
                && ports.rpt_count_on(port) == rpts
        }
        Row::Lasting(count) => lasting(ports) == count,
        Row::Sizes(count, limit) => ports.port_count() == count && ports.limit() == limit,
        Row::GroupAfter(port, group, next) => ports.group_after(port, group) == next,
        Row::MachineAfter(group, what, next) => machine_after(ports, group, what) == next,
        _ => false,
    }
}

/// Plays a row: whether it goes as it says.
fn goes(alloc: Global, ports: &mut Ports<V4>, row: Row) -> bool {
    match row {
        Row::Hear(port, sets) => hears(alloc, ports, port, 210, sets),
        Row::HearForEver(port, sets) => hears(alloc, ports, port, 65_535, sets),
        Row::Reach(moment) => reaches(ports, moment),
        Row::ShownFrom(start) => shows_from(alloc, ports, start),
        Row::Shown(part) => shows(alloc, ports, part),
        Row::RecordsShownFrom(start) => records_show_from(alloc, ports, start),
        _ => is_seen(ports, row),
    }
}

/// Plays an example: its first row that doesn't go as it says.
fn wrong_row(alloc: Global, example: &Example) -> Option<usize> {
    let &Example {
        ports,
        limit,
        rows,
        ..
    } = example;
    if ports == 0 || ports > 64 || limit == 0 || limit > 100_000 {
        return Some(0);
    }
    let mut ports: Ports<V4> = Ports::new(alloc, ports, limit);
    rows.iter().position(|row| !goes(alloc, &mut ports, *row))
}

/// The first example with a wrong row, and that row.
fn wrong(alloc: Global, examples: &[Example]) -> Option<(&'static str, usize)> {
    for example in examples {
        if let Some(index) = wrong_row(alloc, example) {
            return Some((example.name, index));
        }
    }
    None
}

#[test]
fn examples_go_as_they_say(rt: HostRuntime) {
    for examples in [&nexts::EXAMPLES, &running::EXAMPLES] {
        assert_eq!(rt; wrong(rt.alloc(), examples), None);
    }
}
